// A concentrator under another, as a feed.
#![tactic(auto)]

mod calls;
mod stacked;
mod steps;

pub use stacked::Stacked;
