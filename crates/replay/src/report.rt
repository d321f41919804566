use crate::account::Account;
use crate::hex::HexLine;
use crate::options::Output;
use crate::present::Present;
use crate::slot::slot_of;
use crate::slot_line::SlotLine;
use crate::table::Table;
use crate::unfilled::is_unfilled;
use crate::whose::Whose;
use crate::written::WrittenSlot;
use anyhow::Context;
use capture::Record;
use common::{Fault, Port};
use concentrator::Counts;
use plan::Plan;
use runs::PulledFrame;
use std::alloc::Global;
use std::collections::BTreeMap;

// Where the frames come from that a concentrator pulls. An own enum, since a `None` would not say that boxes
// stand below; a trait for the two would have three methods of a line or two in each.
#[derive(Clone, Copy)]
pub enum Source<'a> {
    // The records of a capture, in their order.
    Records(&'a [Record<'a>]),
    // The combined streams of boxes below.
    Boxes,
}

impl Source<'_> {
    // Whether a frame may wait at a reading, once so many were pulled. Of boxes below only a pull tells.
    fn may_wait(self, pulled: usize, reading: u64) -> bool {
        match self {
            Source::Records(records) => records
                .get(pulled)
                .is_some_and(|record| record.reading <= reading),
            Source::Boxes => true,
        }
    }
}

// Prints what a concentrator takes and writes.
#[derive(Drop)]
pub struct Report<'a> {
    // asked for in six methods: of a trait with two printers, four would do nothing for the dump
    output: Output,
    source: Source<'a>,
    plan: &'a Plan,
    // the ports with an accepted frame, by slots that are not written yet
    accepted: BTreeMap<u64, Present>,
    // how many frames are pulled; counted, since the number is printed, and a record is found by it
    pulled: usize,
    table: Table,
}

impl<'a> Report<'a> {
    // A report of a concentrator with this plan, before its first call.
    pub fn new(heap: Global, output: Output, source: Source<'a>, plan: &'a Plan) -> Report<'a> {
        Report {
            output,
            source,
            plan,
            accepted: BTreeMap::new(heap),
            pulled: 0,
            table: Table::new(heap),
        }
    }

    // Tells why the concentrator is shut.
    pub fn shut(&self, rt: &impl Print, fault: Fault) -> anyhow::Result<()> {
        match self.output {
            Output::Table => {
                println!(rt)?;
                println!(rt; "no slots: {fault}")?;
                Ok(())
            }
            Output::Hex => Err(fault).context("refused"),
        }
    }

    // The head of the table of slots.
    pub fn begin(&self, rt: &impl Print, wait: u64) -> anyhow::Result<()> {
        if let Output::Table = self.output {
            println!(rt)?;
            println!(rt;
                "slots: due at most {wait} microseconds after their stamps, written at the first reading from then on"
            )?;
            println!(rt;
                "        slot  stamp (UTC)                  written (s since 1970)  after (us)  quality  bytes  check  ports"
            )?;
        }
        Ok(())
    }

    // Notes that a frame of the port was accepted for the slot.
    fn accept(&mut self, slot: u64, port: Port) -> anyhow::Result<()> {
        self.accepted
            .entry(slot)?
            .or_insert(Present::none())
            .add(port);
        Ok(())
    }

    // A line of the table for a slot; an empty one is put off. By a flag, as two callers find it out in two ways,
    // and one `if` serves both.
    fn show(
        &mut self,
        rt: &impl Print,
        written: WrittenSlot,
        whose: Whose,
        empty: bool,
    ) -> anyhow::Result<()> {
        if let Output::Hex = self.output {
            return Ok(());
        }
        let line = SlotLine::read(written, whose).context("refused")?;
        if empty {
            self.table.put_off(line)
        } else {
            self.table.print(rt, line)
        }
    }

    // Notes the frame of a record that was accepted. Out of line, as are `record_refused` and `box_pulled`: a
    // function pays at its entry for all that it keeps on the stack, and `pulled` pays for none of the three where
    // a dump passes over a frame that was refused.
    #[inline(never)]
    fn record_accepted(&mut self, pulled: &PulledFrame) -> anyhow::Result<()> {
        let slot = slot_of(self.plan, pulled.port, pulled.frame.as_slice()).context("refused")?;
        self.accept(slot, pulled.port)
    }

    // Tells of the frame of a record that was refused.
    #[inline(never)]
    fn record_refused(&mut self, rt: &impl Print, line: Port, fault: Fault) -> anyhow::Result<()> {
        self.table.flush(rt)?;
        let number = self.pulled;
        println!(rt; "record {number} of line {line} refused: {fault}")?;
        Ok(())
    }

    // Notes the frame of a record that was accepted; of one that was refused the table tells.
    fn record_pulled(
        &mut self,
        rt: &impl Print,
        line: Port,
        pulled: &PulledFrame,
    ) -> anyhow::Result<()> {
        match (pulled.verdict, self.output) {
            (Ok(()), _) => self.record_accepted(pulled),
            (Err(fault), Output::Table) => self.record_refused(rt, line, fault),
            (Err(_), Output::Hex) => Ok(()),
        }
    }

    // Tells of the frame of a box below. One that no line of the box has filled counts as no port.
    #[inline(never)]
    fn box_pulled(
        &mut self,
        rt: &impl Print,
        reading: u64,
        pulled: &PulledFrame,
    ) -> anyhow::Result<()> {
        let frame = pulled.frame.as_slice();
        let slot = slot_of(self.plan, pulled.port, frame).context("refused")?;
        let whose = Whose::Below {
            port: pulled.port,
            verdict: pulled.verdict,
        };
        let written = WrittenSlot {
            slot,
            reading,
            frame,
        };
        let unfilled = is_unfilled(self.plan, pulled.port, frame).context("refused")?;
        if pulled.verdict.is_ok() && !unfilled {
            self.accept(slot, pulled.port)?;
        }
        self.show(rt, written, whose, unfilled)
    }

    // Whether to pull at a reading: always from boxes below, else if the next record is due.
    pub fn may_wait(&self, reading: u64) -> bool {
        self.source.may_wait(self.pulled, reading)
    }

    // Tells what became of a frame that was pulled at a reading.
    pub fn pulled(
        &mut self,
        rt: &impl Print,
        reading: u64,
        pulled: &PulledFrame,
    ) -> anyhow::Result<()> {
        let place = self.pulled;
        self.pulled = self.pulled.saturating_add(1);
        match self.source {
            Source::Boxes => self.box_pulled(rt, reading, pulled),
            Source::Records(records) => match records.get(place) {
                Some(record) => self.record_pulled(rt, record.port, pulled),
                None => Ok(()),
            },
        }
    }

    // Shows the frame that was written for a slot.
    pub fn written(&mut self, rt: &impl Print, written: WrittenSlot) -> anyhow::Result<()> {
        // a slot stands there once a port has a frame in it
        let present = self.accepted.remove(&written.slot);
        if let Output::Hex = self.output {
            let hex = HexLine(written.frame);
            println!(rt; "{hex}")?;
        }
        let whose = Whose::Own(present.unwrap_or(Present::none()));
        self.show(rt, written, whose, present.is_none())
    }

    // Prints what was put off.
    pub fn end(&mut self, rt: &impl Print) -> anyhow::Result<()> {
        self.table.flush(rt)
    }

    // Tells what was counted, and whether it adds up with what was reported.
    pub fn account(&self, rt: &impl Print, counts: Counts, waits: bool) -> anyhow::Result<()> {
        if let Output::Table = self.output {
            let frames = match self.source {
                Source::Records(records) => records.len() as u64,
                Source::Boxes => self.table.shown.below,
            };
            let account = Account {
                counts,
                waits,
                frames,
                slots: self.table.shown.own,
            };
            println!(rt)?;
            println!(rt; "{account}")?;
        }
        Ok(())
    }
}
