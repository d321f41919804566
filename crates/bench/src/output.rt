use crate::call::Call;
use crate::calls::{Hub, make};
use crate::meter::Meter;
use crate::sum::Sum;
use anyhow::bail;
use capture::Capture;
use common::{LONGEST_FRAME, verdict_number};
use std::env;
use std::io::Write;

// What is printed: counts and a sum over all answers and written frames, the written frames, or times.
// Chosen by a word, and asked for once.
#[derive(Clone, Copy)]
pub enum Output {
    Sum,
    Bytes,
    Times,
}

// Prints the counts of a concentrator on which the calls were made, and the sum over the number of each
// answer and the bytes that were written for each slot.
// A struct of handle, concentrator and calls would be taken apart in each of the three.
fn show_sum(rt: &HostRuntime, hub: &mut Hub, calls: Capture) -> anyhow::Result<()> {
    let mut buffer = [0; LONGEST_FRAME];
    let mut sum = Sum::NONE;
    for record in calls {
        let answer = make(hub, Call::from(record), &mut buffer);
        sum = sum.with(verdict_number(answer));
        if let Ok(len) = answer {
            sum = sum.with_all(&buffer[..len]);
        }
    }
    let counts = hub.counts()?;
    println!(rt;
        "{} slots written, {} frames accepted, {} refused, sum {:016x}",
        counts.written,
        counts.accepted(),
        counts.refusals(),
        sum.0
    )?;
    Ok(())
}

// Prints the frames that are written for the slots, as they are.
fn show_bytes(rt: &HostRuntime, hub: &mut Hub, calls: Capture) -> anyhow::Result<()> {
    let mut out = rt.stdout();
    let mut buffer = [0; LONGEST_FRAME];
    for record in calls {
        if let Ok(len) = make(hub, Call::from(record), &mut buffer) {
            out.write_all(&buffer[..len])?;
        }
    }
    Ok(())
}

// Prints how many calls of each kind were made, and how long they took.
fn show_times(rt: &HostRuntime, hub: &mut Hub, calls: Capture) -> anyhow::Result<()> {
    let mut buffer = [0; LONGEST_FRAME];
    let mut meter = Meter::start(rt)?;
    for record in calls {
        let call = Call::from(record);
        meter.count(rt, call.kind())?;
        // what is answered is for `show_sum` to tell
        let _ = make(hub, call, &mut buffer);
    }
    meter.stop(rt)?;
    meter.print(rt)?;
    Ok(())
}

impl Output {
    // What the arguments ask for.
    pub fn read(rt: &HostRuntime) -> anyhow::Result<Output> {
        let mut words = env::args(rt)?;
        let _program = words.next();
        let Some(word) = words.next() else {
            return Ok(Output::Sum);
        };
        match word.as_str() {
            "--bytes" => Ok(Output::Bytes),
            "--times" => Ok(Output::Times),
            _ => bail!("usage: bench [--bytes | --times] < LOAD"),
        }
    }

    // Makes the calls and prints what is asked for.
    pub fn show(self, rt: &HostRuntime, hub: &mut Hub, calls: Capture) -> anyhow::Result<()> {
        match self {
            Output::Sum => show_sum(rt, hub, calls),
            Output::Bytes => show_bytes(rt, hub, calls),
            Output::Times => show_times(rt, hub, calls),
        }
    }
}
