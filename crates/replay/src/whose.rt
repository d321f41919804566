use crate::present::Present;
use common::{Fault, Port};
use std::fmt;

// Whose slot a line tells of.
#[derive(Clone, Copy, PartialEq, Eq)]
pub enum Whose {
    // The concentrator's own, with these ports in it.
    Own(Present),
    // That of the box below at this port, and what became of its frame above.
    Below {
        port: Port,
        verdict: Result<(), Fault>,
    },
}

impl Whose {
    // Whether two slots without a port are of the same: there are no ports to be compared.
    pub fn is_same(self, other: Whose) -> bool {
        matches!((self, other), (Whose::Own(_), Whose::Own(_))) || self == other
    }
}

impl fmt::Display for Whose {
    fn fmt<W: fmt::Write>(&self, f: &mut fmt::Formatter<W>) -> fmt::Result {
        match self {
            Whose::Own(present) => write!(f, "{present}"),
            Whose::Below {
                port,
                verdict: Ok(()),
            } => write!(f, "of box {port}, accepted"),
            Whose::Below {
                port,
                verdict: Err(fault),
            } => write!(f, "of box {port}, refused: {fault}"),
        }
    }
}
