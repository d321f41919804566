use common::Fault;
use std::fmt;

// Why a call did nothing: the library refused it, or there is no plan or box that it could act on.
#[derive(Clone, Copy, Debug)]
pub enum Trouble {
    Refused(Fault),
    NoPlan,
    NoBox,
}

// By hand, as the text below is: a derive would want one text for the two forms of a refusal.
impl From<Fault> for Trouble {
    fn from(fault: Fault) -> Trouble {
        Trouble::Refused(fault)
    }
}

// A refusal is shown as its number, and the station that it tells.
impl fmt::Display for Trouble {
    fn fmt<W: fmt::Write>(&self, f: &mut fmt::Formatter<W>) -> fmt::Result {
        match self {
            Trouble::Refused(fault) => match fault.station() {
                Some(station) => write!(f, "{} {station}", fault.number()),
                None => write!(f, "{}", fault.number()),
            },
            Trouble::NoPlan => write!(f, "no plan"),
            Trouble::NoBox => write!(f, "no box"),
        }
    }
}
