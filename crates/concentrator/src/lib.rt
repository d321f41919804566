// The concentrator: frames from a feed lined up by time stamp, slot by slot, under a wait policy.
#![tactic(auto)]

mod calls;
mod concentrator;
mod counts;
mod open;
mod ticket;

pub use calls::{Pulled, Written};
pub use concentrator::Concentrator;
pub use engine::{Counts, EARLIEST, LONGEST_STEP, REFUSALS};
pub use ticket::Ticket;
