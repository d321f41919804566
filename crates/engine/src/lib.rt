// The alignment engine: slots, what they hold, and how they close. It knows neither feed nor policy
// by itself: each call that may close slots is lent the policy. An engine is to be held by C too, which
// has no type parameters.
#![tactic(auto)]

mod admit;
mod closing;
mod counting;
mod counts;
mod engine;
mod judge;
mod open;
mod place;
mod ring;
mod take;
mod terms;
mod tick;
mod write;

pub use closing::EARLIEST;
pub use counts::{Counts, REFUSALS};
pub use engine::Engine;
pub use tick::LONGEST_STEP;
