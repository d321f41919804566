// Wait policies: when the slot of a stamp closes.
#![tactic(auto)]

mod absolute;
mod limits;
mod policy;
mod relative;
mod sooner;

pub use absolute::Absolute;
pub use policy::Policy;
pub use relative::Relative;
pub use sooner::Sooner;
