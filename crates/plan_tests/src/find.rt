// Stations sought by their codes.
use crate::bench::Bench;
use crate::build::station;
use common::{IdCode, Port};
use plan::{Place, Plan};
use std::process::Abort;
use std::test::Fail;

// That the station of this code is found at this place, or none is.
fn check_found(rt: &impl Abort, plan: &Plan, id: u16, place: Option<Place>) {
    assert_eq!(rt; plan.find(IdCode(id)), place);
}

#[test]
fn the_first_of_a_code(rt: HostRuntime) -> Result<(), Fail> {
    let a = station(10, 0, (0, 0, 0));
    let b = station(20, 0, (1, 0, 0));
    let c = station(30, 0, (0, 1, 0));
    let mut bench = Bench::new(rt.alloc(), 400)?;
    check_found(&rt, &bench.plan, 10, None);
    bench.check_add(&rt, 7, &[a, b, b], 0)?;
    check_found(&rt, &bench.plan, 30, None);
    bench.check_add(&rt, 8, &[b, c, a, c], 1)?;
    // code, port, and place
    for (id, port, station) in [(10, 0, 0), (20, 0, 1), (30, 1, 1)] {
        let place = Place {
            port: Port(port),
            station,
        };
        check_found(&rt, &bench.plan, id, Some(place));
    }
    // no station has these, though the senders and the plan do
    for id in [0, 7, 8, 0x0102, 40, 65_535] {
        check_found(&rt, &bench.plan, id, None);
    }
    Ok(())
}
