use crate::empty_run::EmptyRun;
use crate::slot_line::SlotLine;
use crate::whose::Whose;
use std::alloc::Global;

// How many slots are printed: the concentrator's own, and those of boxes below.
#[derive(Clone, Copy)]
pub struct Shown {
    pub own: u64,
    pub below: u64,
}

impl Shown {
    // Counts slots as shown.
    fn count(&mut self, whose: Whose, slots: u64) {
        match whose {
            Whose::Own(_) => self.own = self.own.saturating_add(slots),
            Whose::Below { .. } => self.below = self.below.saturating_add(slots),
        }
    }
}

// The table of slots as it is printed, with empty slots in a row as one line.
#[derive(Drop)]
pub struct Table {
    // the empty slots that are not printed yet, in the order in which their runs began
    runs: Vec<EmptyRun>,
    pub shown: Shown,
}

impl Table {
    // A table with no slots yet.
    pub fn new(heap: Global) -> Table {
        Table {
            runs: Vec::new(heap),
            shown: Shown { own: 0, below: 0 },
        }
    }

    // Prints the empty slots that were put off.
    pub fn flush(&mut self, rt: &impl Print) -> anyhow::Result<()> {
        for run in self.runs.as_slice() {
            println!(rt; "{run}")?;
            self.shown.count(run.whose(), run.slots());
        }
        self.runs.clear();
        Ok(())
    }

    // Puts off an empty slot, with those that it follows.
    pub fn put_off(&mut self, line: SlotLine) -> anyhow::Result<()> {
        if self
            .runs
            .as_mut_slice()
            .iter_mut()
            .any(|run| run.take(line))
        {
            return Ok(());
        }
        self.runs.push(EmptyRun::of(line))?;
        Ok(())
    }

    // Prints a slot with a frame.
    pub fn print(&mut self, rt: &impl Print, line: SlotLine) -> anyhow::Result<()> {
        self.flush(rt)?;
        println!(rt; "{line}")?;
        self.shown.count(line.whose, 1);
        Ok(())
    }
}
