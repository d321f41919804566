use common::Port;
use std::fmt;

// The ports that have a frame in a slot.
#[derive(Clone, Copy, PartialEq, Eq)]
pub struct Present {
    // by port: an array needs no heap, as a set would
    ports: [bool; 16],
}

impl Present {
    // No port.
    pub fn none() -> Present {
        Present { ports: [false; 16] }
    }

    // Adds a port; a number above 15 is none.
    pub fn add(&mut self, port: Port) {
        if let Some(present) = self.ports.get_mut(usize::from(port.0)) {
            *present = true;
        }
    }
}

impl fmt::Display for Present {
    fn fmt<W: fmt::Write>(&self, f: &mut fmt::Formatter<W>) -> fmt::Result {
        let ports = self.ports.iter().enumerate();
        let mut present = ports.filter(|(_, present)| **present).map(|(port, _)| port);
        let Some(first) = present.next() else {
            return f.write_str("none");
        };
        write!(f, "{first}")?;
        for port in present {
            write!(f, " {port}")?;
        }
        Ok(())
    }
}
