// Runs of a concentrator: a host makes calls that are given as values, and answers their journal, with
// the law over runs as its contract.
#![tactic(auto)]

mod call;
mod entry;
mod host;
mod law;
mod make;
mod open;
mod run;
mod tickets;

pub use call::Call;
pub use entry::{Entry, PulledFrame};
pub use host::Host;
pub use law::calls_keep_the_law;
