// What every layer shares: the refusals, the numbers that name a line and a sender, and the limits.
#![tactic(auto)]

mod fault;
mod ids;
mod limits;

pub use fault::{Fault, verdict_number};
pub use ids::{IdCode, Port};
pub use limits::{LAST_READING, LONGEST_BODY, LONGEST_FRAME};
