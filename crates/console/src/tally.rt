use concentrator::{Counts, REFUSALS};
use std::fmt;

// Counts, shown as the frames accepted, the slots written, and each number that frames were refused by.
#[derive(Clone, Copy)]
pub struct Tally(pub Counts);

impl fmt::Display for Tally {
    fn fmt<W: fmt::Write>(&self, f: &mut fmt::Formatter<W>) -> fmt::Result {
        let counts = self.0;
        write!(f, "{} {}", counts.accepted(), counts.written)?;
        for fault in REFUSALS {
            let refused = counts.refused(fault);
            if refused > 0 {
                write!(f, " {}:{refused}", fault.number())?;
            }
        }
        Ok(())
    }
}
