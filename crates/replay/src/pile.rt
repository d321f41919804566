use crate::lower::{Lower, LowerFeed};
use crate::options::COMBINED;
use anyhow::{Context, bail};
use capture::Record;
use choice::Simple;
use common::{IdCode, Port};
use feed::Joined;
use listing::{Build, Outcome};
use std::alloc::{AllocError, Global};

// The codes that the two lower boxes send under.
const FIRST: IdCode = IdCode(2);

const SECOND: IdCode = IdCode(3);

// Two boxes, and a third above them: its ports 0 and 1 have the combined streams of the two.
#[derive(Drop)]
pub struct Pile {
    pub first: Lower,
    pub second: Lower,
    pub upper: Build,
}

// The lines that fill a port.
fn filled_lines(heap: Global, build: &Build) -> Result<Vec<Port>, AllocError> {
    let lines = (0u8..16).zip(build.lines.as_slice());
    lines
        .filter(|(_, outcome)| matches!(outcome, Outcome::Filled(_)))
        .map(|(line, _)| Port(line))
        .collect(heap)
}

// What the box above makes of the configurations that the two publish.
fn build_upper(heap: Global, first: &Lower, second: &Lower, reading: u64) -> anyhow::Result<Build> {
    let published = [
        Record {
            reading,
            port: Port(0),
            frame: first.configuration()?,
        },
        Record {
            reading,
            port: Port(1),
            frame: second.configuration()?,
        },
    ];
    let upper = Build::of(heap, &published, COMBINED)?;
    // a loop: a `find_map` would have the same `match` in a closure
    for outcome in upper.lines.as_slice() {
        if let Outcome::Refused(fault) = outcome {
            return Err(*fault).context("the configuration of a lower box is refused above");
        }
    }
    Ok(upper)
}

impl Pile {
    // A pile of the lines that have a port: the first half of them, rounded up, and the rest.
    pub fn of(heap: Global, records: &[Record], build: &Build) -> anyhow::Result<Pile> {
        let lines = filled_lines(heap, build)?;
        if lines.len() < 2 {
            bail!("--stack needs at least two lines with a configuration");
        }
        let (front, back) = lines.as_slice().split_at(lines.len().div_ceil(2));
        let first = Lower::of(heap, records, front, FIRST)?;
        let second = Lower::of(heap, records, back, SECOND)?;
        // two lines have a record each, so there is a last one
        let reading = records.last().map_or(0, |record| record.reading);
        let upper = build_upper(heap, &first, &second, reading)?;
        Ok(Pile {
            first,
            second,
            upper,
        })
    }

    // The feed of the box above: the two boxes, opened at a reading.
    pub fn feed(&self, policy: Simple, reading: u64) -> Joined<LowerFeed<'_>, LowerFeed<'_>> {
        Joined {
            first: self.first.feed(Port(0), policy, reading),
            second: self.second.feed(Port(1), policy, reading),
        }
    }
}
