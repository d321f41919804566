// The listing of a capture: its records, the plan that its configurations make, the combined
// configuration, and how long slots are held open.
#![tactic(auto)]

mod build;
mod checks;
mod exit;
mod find;
mod input;
mod line;
mod ports;
mod published;
mod records;
mod seconds;
mod show;
mod slot;
mod totals;
mod utc;
mod waits;

pub use build::{Build, Outcome};
pub use checks::judge;
pub use exit::exit_code;
pub use input::{InputError, read_capture};
pub use published::show_combined;
pub use seconds::Seconds;
pub use show::show_capture;
pub use slot::slot_at;
pub use utc::Utc;
pub use waits::{WaitError, Waits};
