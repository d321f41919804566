use crate::capture_bytes::capture_bytes;
use crate::wired::Wired;
use anyhow::Context;
use capture::Record;
use choice::Simple;
use common::{IdCode, Port};
use listing::Build;
use recorded::Recorded;
use stacked::Stacked;
use std::alloc::{AllocError, Global};

// What waits at a lower box: the combined frames of its lines.
pub type LowerFeed<'a> = Stacked<Wired<'a, Recorded<'a>>, Simple>;

// A box under another: its lines, a capture of their records, and what their configurations make.
#[derive(Drop)]
pub struct Lower {
    pub lines: Vec<Port>,
    capture: Vec<u8>,
    pub build: Build,
}

impl Lower {
    // A box of some of the lines, that sends under the ID.
    pub fn of(
        heap: Global,
        records: &[Record],
        lines: &[Port],
        id: IdCode,
    ) -> Result<Lower, AllocError> {
        let own: Vec<Record> = records
            .iter()
            .filter(|record| lines.contains(&record.port))
            .copied()
            .collect(heap)?;
        Ok(Lower {
            lines: Vec::from_slice(heap, lines)?,
            capture: capture_bytes(heap, own.as_slice())?,
            build: Build::of(heap, own.as_slice(), id)?,
        })
    }

    // The combined configuration that the box publishes.
    pub fn configuration(&self) -> anyhow::Result<&[u8]> {
        // by a `match`: `as_deref` lends the refusal too, which has to be copied in a closure
        match &self.build.combined {
            Ok(frame) => Ok(frame.as_slice()),
            Err(fault) => Err(*fault).context("a lower box has no configuration"),
        }
    }

    // The box as a feed at a port of the one above, opened at a reading.
    pub fn feed(&self, port: Port, policy: Simple, reading: u64) -> LowerFeed<'_> {
        let feed = Wired {
            feed: Recorded::over(self.capture.as_slice()),
            lines: self.build.lines.as_slice(),
        };
        Stacked::open(port, &self.build.plan, feed, policy, reading)
    }
}
