// The feed of a capture: recorded frames, each added once its reading has come.
#![tactic(auto)]

mod calls;
mod over;
mod recorded;

pub use recorded::Recorded;
