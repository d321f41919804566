// The plan: what the concentrator knows of its lines, and the combined configuration of them all.
#![tactic(auto)]

mod add;
mod find;
mod plan;
mod publish;
mod record;
mod request;
mod span;
mod table;
mod tell;

pub use find::Place;
pub use plan::Plan;
pub use record::Record;
pub use span::Span;
pub use table::Table;
