ghost use Rattle.std.specs.Prelude.{◌≡◌, []};
ghost use Rattle.plan.specs.Tables.{ports_of};

use crate::record::Record;
use common::IdCode;
use config::no_stations;
use fixed::FixedList;

// The most ports that a plan has.
pub(crate) const MOST_PORTS: usize = 16;

// The records of the ports, in their order.
pub type Table = FixedList<Record, MOST_PORTS>;

// No port.
pub(crate) fn no_ports() -> Table
    ensures { ports_of result ≡ [] }
{
    // What stands behind the last record.
    let none = Record {
        id: IdCode(0),
        time_base: 0,
        stations: no_stations(),
    };
    Table::new(none)
}
