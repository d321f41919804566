// Samples: what a data frame is for a port of the plan, whatever the state of the concentrator.
#![tactic(auto)]

mod read;

pub use read::Sample;
