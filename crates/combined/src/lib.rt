// The combined data frame of a slot, from what its cell holds.
#![tactic(auto)]

mod body;
mod frame;

pub use frame::write_slot;
