// Configuration-2 bodies: the stations that they describe.
#![tactic(auto)]

mod config;
mod format;
mod read;
mod station;
mod stations;

pub use config::Config;
pub use format::{Encoding, Format};
pub use station::Station;
pub use stations::{MOST_STATIONS, Stations, no_stations};
