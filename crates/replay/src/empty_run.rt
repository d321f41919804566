use crate::slot_line::SlotLine;
use crate::whose::Whose;
use std::fmt;

// Slots in a row that were written without a frame of any line.
#[derive(Clone, Copy)]
pub struct EmptyRun {
    first: SlotLine,
    last: u64,
}

impl EmptyRun {
    // The run that a line begins. No `From`: a line begins a run, and is no run in another form.
    pub fn of(line: SlotLine) -> EmptyRun {
        EmptyRun {
            first: line,
            last: line.slot,
        }
    }

    // Takes the line, if its slot is the next one of the run. Answers whether it is.
    pub fn take(&mut self, line: SlotLine) -> bool {
        let follows = line.whose.is_same(self.first.whose)
            && self.last.checked_add(1) == Some(line.slot);
        if follows {
            self.last = line.slot;
        }
        follows
    }

    // Whose slots they are.
    pub fn whose(&self) -> Whose {
        self.first.whose
    }

    // How many slots there are.
    pub fn slots(&self) -> u64 {
        self.last.saturating_sub(self.first.slot).saturating_add(1)
    }
}

impl fmt::Display for EmptyRun {
    fn fmt<W: fmt::Write>(&self, f: &mut fmt::Formatter<W>) -> fmt::Result {
        let line = self.first;
        let first = line.slot;
        let last = self.last;
        if first == last {
            return write!(f, "{line}");
        }
        let slots = self.slots();
        write!(f, "slots {first} to {last}: {slots} slots with no port")?;
        match line.whose {
            Whose::Own(_) => Ok(()),
            whose => write!(f, " {whose}"),
        }
    }
}
