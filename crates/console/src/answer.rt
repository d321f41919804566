use crate::bytes::Hex;
use crate::tally::Tally;
use common::{Fault, Port, verdict_number};
use concentrator::Counts;
use plan::Place;
use runs::{Entry, PulledFrame};
use std::fmt;

// What a call answered.
#[derive(Drop)]
pub enum Answer<'a> {
    Done,
    Added(Port),
    Published(&'a [u8]),
    Found(Option<Place>),
    Pulled(PulledFrame),
    Taken(u64),
    Written(Vec<u8>),
    Counted(Counts),
}

impl Answer<'_> {
    // What the call of an entry answered. No `TryFrom`: an `Err` is what the call answered, and no failed
    // conversion.
    pub fn of(entry: Entry) -> Result<Answer<'static>, Fault> {
        Ok(match entry {
            Entry::Tick { answer, .. } | Entry::Admit { answer, .. } => {
                answer?;
                Answer::Done
            }
            Entry::Pull { answer, .. } => Answer::Pulled(answer?),
            Entry::Take { answer } => Answer::Taken(answer?),
            Entry::Write { answer, .. } => Answer::Written(answer?),
            Entry::Counts { answer } => Answer::Counted(answer?),
        })
    }
}

impl fmt::Display for Answer<'_> {
    fn fmt<W: fmt::Write>(&self, f: &mut fmt::Formatter<W>) -> fmt::Result {
        match self {
            Answer::Done => write!(f, "0"),
            Answer::Added(port) => write!(f, "0 {port}"),
            Answer::Published(frame) => write!(f, "0 {} {}", frame.len(), Hex(frame)),
            Answer::Found(Some(place)) => write!(f, "0 {} {}", place.port, place.station),
            Answer::Found(None) => write!(f, "none"),
            Answer::Pulled(pulled) => {
                write!(
                    f,
                    "0 {} {} {} {}",
                    pulled.port,
                    pulled.frame.len(),
                    verdict_number(pulled.verdict),
                    Hex(pulled.frame.as_slice())
                )
            }
            Answer::Taken(slot) => write!(f, "0 {slot}"),
            Answer::Written(frame) => write!(f, "0 {} {}", frame.len(), Hex(frame.as_slice())),
            Answer::Counted(counts) => write!(f, "0 {}", Tally(*counts)),
        }
    }
}
