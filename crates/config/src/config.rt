use crate::stations::Stations;

// What the body of a configuration says.
#[derive(Clone, Copy)]
pub struct Config {
    pub time_base: u32,
    pub stations: Stations,
    pub rate: u16,
}
