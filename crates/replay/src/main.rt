// Plays a capture from standard input through a concentrator, or through two under a third: prints its
// frames, builds a plan from their configurations, publishes the combined configuration, and tells what
// the concentrator refuses, what it writes for each slot and when, and what it counts.
#![tactic(auto)]

mod account;
mod arrivals;
mod capture_bytes;
mod empty_run;
mod hex;
mod lower;
mod options;
mod pace;
mod pile;
mod player;
mod present;
mod report;
mod single;
mod slot;
mod slot_line;
mod stack;
mod table;
mod unfilled;
mod whose;
mod wired;
mod written;

use anyhow::Context;
use arrivals::{Arrival, play};
use capture::{Capture, Record};
use listing::{exit_code, read_capture};
use options::{Form, Options};
use recorded::Recorded;
use single::play_single;
use stack::play_stack;
use std::process::ExitCode;

// Reads the arguments and the capture, and plays it.
fn run(rt: &HostRuntime) -> anyhow::Result<()> {
    let options = Options::read(rt)?;
    let bytes = read_capture(rt.alloc(), rt.stdin())?;
    let bytes = bytes.as_slice();
    let capture = Capture::open(bytes).context("refused")?;
    let arrivals = play(rt, capture, Recorded::over(bytes))?;
    let records: Vec<Record> = arrivals.iter().map(Arrival::record).collect(rt.alloc())?;
    let records = records.as_slice();
    // with no record any reading does, since the plan then has no port
    let first = records.first().map_or(0, |record| record.reading);
    match options.form {
        Form::Single => play_single(rt, options, first, bytes, records),
        Form::Stack => play_stack(rt, options, first, records),
    }
}

fn main(rt: HostRuntime) -> ExitCode {
    exit_code(&rt, "replay", run(&rt))
}
