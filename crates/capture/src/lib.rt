// Captures: frames as they came in, each with its reading and its line, held in borrowed bytes.
#![tactic(auto)]

mod capture;
mod limits;
mod record;

pub use capture::Capture;
pub use record::Record;
