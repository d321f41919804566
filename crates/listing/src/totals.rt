use common::Fault;
use std::fmt;
use wire::{FrameType, Header};

// How many records there were, and of what.
#[derive(Clone, Copy)]
pub(crate) struct Totals {
    records: u32,
    data_frames: u32,
    configurations: u32,
    others: u32,
    // by the number of the refusal, of which the highest is 30: an array needs no heap, as a map would
    refused: [u32; 31],
}

fn add_one(count: &mut u32) {
    *count = count.saturating_add(1);
}

impl Totals {
    pub(crate) fn new() -> Totals {
        Totals {
            records: 0,
            data_frames: 0,
            configurations: 0,
            others: 0,
            refused: [0; 31],
        }
    }

    // Counts a record by what its frame turned out to be.
    pub(crate) fn count(&mut self, finding: Result<Header, Fault>) {
        add_one(&mut self.records);
        match finding {
            Ok(header) => match header.kind {
                FrameType::Data => add_one(&mut self.data_frames),
                FrameType::Config2 => add_one(&mut self.configurations),
                _ => add_one(&mut self.others),
            },
            Err(fault) => {
                if let Some(times) = self.refused.get_mut(usize::from(fault.number())) {
                    add_one(times);
                }
            }
        }
    }
}

impl fmt::Display for Totals {
    fn fmt<W: fmt::Write>(&self, f: &mut fmt::Formatter<W>) -> fmt::Result {
        let records = self.records;
        let good = self.data_frames;
        let configurations = self.configurations;
        let others = self.others;
        write!(
            f,
            "{records} records: {good} data, {configurations} configuration 2, {others} other"
        )?;
        for (number, times) in self.refused.iter().enumerate() {
            if *times > 0 {
                write!(f, ", {times} refused with {number}")?;
            }
        }
        Ok(())
    }
}
