ghost use Rattle.std.specs.Prelude.{◌≡◌, ◌≤◌, map, length, slice_get};
ghost use Rattle.plan.specs.Find.{find_in, place_in, place_of};
ghost use Rattle.plan.specs.Tables.{port_of, ports_of};
ghost use Rattle.std.specs.Option.{option_map};

use crate::plan::Plan;
use crate::record::Record;
use common::{IdCode, Port};
use config::Station;

// Where a station stands: its port, and its place among the port's stations, counted from 0.
#[derive(Clone, Copy, PartialEq, Eq, Debug)]
pub struct Place {
    pub port: Port,
    pub station: usize,
}

// The place of the first station with the code.
fn position(stations: &[Station], id: IdCode) -> Option<usize>
    ensures { result ≡ place_in stations.now id.0 0 }
{
    stations.iter().position(|station| station.id == id)
}

impl Plan {
    // The records of the ports, in their order.
    pub fn ports(&self) -> &[Record]
        ensures value { map port_of result.now ≡ ports_of self.now.table }
        ensures few { length result.now ≤ 16 }
    {
        self.table.as_slice()
    }

    // The record of a port, if the plan has it.
    pub fn port(&self, port: Port) -> Option<&Record>
        ensures { option_map (λ r. port_of r.now) result ≡ slice_get (ports_of self.now.table) port.0 }
    {
        self.ports().get(usize::from(port.0))
    }

    // The first station with the code, by port and then by place, or none.
    pub fn find(&self, id: IdCode) -> Option<Place>
        ensures { option_map place_of result ≡ find_in (ports_of self.now.table) id.0 0 }
    {
        self.ports().iter().enumerate().find_map(|(number, port)| {
            let station = position(port.stations.as_slice(), id)?;
            // By `as`, which is itself proved to lose nothing, and is shorter than a proved `unwrap`.
            let port = Port(number as u8);
            Some(Place { port, station })
        })
    }
}
