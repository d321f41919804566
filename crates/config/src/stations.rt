ghost use Rattle.std.specs.Prelude.{◌≡◌, []};
ghost use Rattle.config.specs.Configs.{listed};

use crate::format::Format;
use crate::station::Station;
use common::IdCode;
use fixed::FixedList;

// The most stations that a configuration is read with, or written for.
pub const MOST_STATIONS: usize = 32;

// The stations of one configuration, in their order.
pub type Stations = FixedList<Station, MOST_STATIONS>;

// What stands behind the last station.
const NO_STATION: Station = Station {
    id: IdCode(0),
    format: Format(0),
    phasors: 0,
    analogs: 0,
    digitals: 0,
};

// No station.
pub fn no_stations() -> Stations
    ensures { listed result ≡ [] }
{
    Stations::new(NO_STATION)
}
