// Calls of a feed, with what they are to answer: what the tests of several feeds share. A library may not
// end the process, so what is found wrong is an error.
#![tactic(auto)]

mod calls;

pub use calls::{check_idle, check_next, check_short, tick};
