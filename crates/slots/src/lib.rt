// Slots at a rate: their stamps and tags, and which slot a frame belongs to.
#![tactic(auto)]

mod align;
mod rate;
mod stamps;
mod window;

pub use rate::Rate;
