// Lines of several stations.
use crate::bench::Bench;
use crate::build::{BARE, line, station};
use crate::checks::{check_parts, check_published, check_record};
use std::test::Fail;

#[test]
fn at_most_eight_stations(rt: HostRuntime) -> Result<(), Fail> {
    let mut bench = Bench::new(rt.alloc(), 1_000)?;
    bench.check_add(&rt, 5, &[BARE; 2], 0)?;
    bench.check_add(&rt, 7, &[BARE; 9], 111)?;
    bench.check_add(&rt, 6, &[BARE; 8], 1)?;
    let [first, second] = bench.plan.ports() else {
        return Err(Fail::new("not two ports"));
    };
    // 6 bytes of data for each station
    check_record(&rt, first, (5, 1_000), &[BARE; 2], 12);
    check_record(&rt, second, (6, 1_000), &[BARE; 8], 48);
    // 10 parts of 30 bytes
    bench.check_publish(&rt, 0, 324)?;
    Ok(())
}

#[test]
fn two_ports_are_published_in_order(rt: HostRuntime) -> Result<(), Fail> {
    let heap = rt.alloc();
    let stations = [
        station(11, 0, (2, 0, 0)),
        station(12, 15, (1, 1, 1)),
        station(21, 4, (0, 2, 0)),
        station(22, 0, (0, 0, 1)),
        station(23, 2, (3, 0, 0)),
    ];
    let mut bench = Bench::new(heap, 874)?;
    bench.check_add(&rt, 100, &stations[0..2], 0)?;
    bench.check_add(&rt, 200, &stations[2..5], 1)?;
    // parts of 70, 330, 70, 290 and 90 bytes
    bench.check_publish(&rt, 1, 874)?;
    let whole = line(heap, 300, &stations)?;
    check_parts(&rt, bench.buffer.as_slice(), whole.as_slice(), 850)?;
    // blocks of 14, 24, 14, 8 and 30 bytes
    check_published(&rt, bench.buffer.as_slice(), &stations, 90)
}
