// Policies and feeds that are chosen at run time: one type for each of the two.
#![tactic(auto)]

mod any_feed;
mod chosen;

pub use any_feed::AnyFeed;
pub use chosen::Chosen;
use policy::{Absolute, Relative, Sooner};

// A policy that is no combination of others.
pub type Simple = Chosen<Absolute, Relative>;

// A simple policy, or the sooner of two.
pub type AnyPolicy = Chosen<Simple, Sooner<Simple, Simple>>;
