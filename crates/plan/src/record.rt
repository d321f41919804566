use common::IdCode;
use config::Stations;

// What a port's configuration says: its sender, its time base, and its stations.
#[derive(Clone, Copy)]
pub struct Record {
    pub id: IdCode,
    pub time_base: u32,
    pub stations: Stations,
}
