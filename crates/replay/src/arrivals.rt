use anyhow::Context;
use capture::{Capture, Record};
use common::Port;
use feed::{Feed, LONGEST_FRAME};
use recorded::Recorded;

// A frame that a feed gave, the reading that it came at, and the line that it came in by.
#[derive(Drop)]
pub struct Arrival {
    reading: u64,
    port: Port,
    frame: Vec<u8>,
}

impl Arrival {
    // The arrival as a capture has it.
    pub fn record(&self) -> Record<'_> {
        Record {
            reading: self.reading,
            port: self.port,
            frame: self.frame.as_slice(),
        }
    }
}

// Ticks the feed with a reading, and takes every frame that then waits.
fn take_due(
    rt: &HostRuntime,
    feed: &mut Recorded,
    reading: u64,
    arrivals: &mut Vec<Arrival>,
) -> anyhow::Result<()> {
    let mut buffer = [0; LONGEST_FRAME];
    feed.tick(reading, &mut buffer).context("refused")?;
    while let Ok(taken) = feed.next(&mut buffer) {
        let frame = buffer[..taken.len].to_vec(rt.alloc())?;
        arrivals.push(Arrival {
            reading,
            port: taken.port,
            frame,
        })?;
    }
    Ok(())
}

// Plays a capture through its feed, by each reading in it. Nothing is due twice.
pub fn play(
    rt: &HostRuntime,
    capture: Capture,
    mut feed: Recorded,
) -> anyhow::Result<Vec<Arrival>> {
    let mut arrivals = Vec::new(rt.alloc());
    for record in capture {
        take_due(rt, &mut feed, record.reading, &mut arrivals)?;
    }
    Ok(arrivals)
}
