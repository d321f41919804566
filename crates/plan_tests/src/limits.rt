// How much a plan takes.
use crate::bench::Bench;
use crate::build::{BARE, station};
use crate::checks::check_record;
use config::Station;
use std::alloc::Global;
use std::process::Abort;
use std::test::Fail;

// Adds one line after another, each with its stations, and checks what comes of it.
fn check_lines(
    rt: &impl Abort,
    heap: Global,
    room: usize,
    lines: &[(&[Station], u8)],
) -> Result<(), Fail> {
    let mut bench = Bench::new(heap, room)?;
    for (stations, outcome) in lines {
        bench.check_add(rt, 7, *stations, *outcome)?;
    }
    Ok(())
}

#[test]
fn sixteen_ports(rt: HostRuntime) -> Result<(), Fail> {
    let mut bench = Bench::new(rt.alloc(), 600)?;
    for number in 0..16 {
        bench.check_add(&rt, 7, &[BARE], number)?;
    }
    bench.check_add(&rt, 7, &[BARE], 127)?;
    assert_eq!(rt; bench.plan.ports().len(), 16);
    bench.check_publish(&rt, 0, 504)?;
    Ok(())
}

#[test]
fn thirty_two_stations(rt: HostRuntime) -> Result<(), Fail> {
    let heap = rt.alloc();
    check_lines(
        &rt,
        heap,
        2_000,
        &[
            (&[BARE; 8], 0),
            (&[BARE; 8], 1),
            (&[BARE; 8], 2),
            (&[BARE; 8], 3),
            (&[BARE], 127),
        ],
    )?;
    check_lines(
        &rt,
        heap,
        2_000,
        &[
            (&[BARE; 8], 0),
            (&[BARE; 8], 1),
            (&[BARE; 8], 2),
            (&[BARE; 7], 3),
            (&[BARE; 2], 127),
            (&[BARE], 4),
            (&[BARE], 127),
        ],
    )
}

#[test]
fn data_of_1024_bytes(rt: HostRuntime) -> Result<(), Fail> {
    let heap = rt.alloc();
    // 2 bytes of STAT, 31 float phasors of 8, two frequencies of 2, and a digital word: 256
    let wide = station(1, 2, (31, 0, 1));
    // an integer analog more: 258
    let wider = station(2, 2, (31, 1, 1));
    // 1026, 1024, and 6 more
    check_lines(
        &rt,
        heap,
        9_000,
        &[
            (&[wider, wide, wide, wide], 127),
            (&[wide; 4], 0),
            (&[BARE], 127),
        ],
    )?;
    // 768, 258 more, 256 more, and 6 more
    check_lines(
        &rt,
        heap,
        9_000,
        &[
            (&[wide; 3], 0),
            (&[wider], 127),
            (&[wide], 1),
            (&[BARE], 127),
        ],
    )?;
    // the limit comes before the buffer
    check_lines(
        &rt,
        heap,
        0,
        &[
            (&[wider, wide, wide, wide], 127),
            (&[wide; 4], 117),
            (&[BARE], 117),
        ],
    )
}

#[test]
fn the_widest_station(rt: HostRuntime) -> Result<(), Fail> {
    let mut bench = Bench::new(rt.alloc(), 2_054)?;
    let widest = station(1, 14, (32, 16, 4));
    bench.check_add(&rt, 7, &[widest], 0)?;
    let [record] = bench.plan.ports() else {
        return Err(Fail::new("not one port"));
    };
    // 2, 32 times 8, 2 times 4, 16 times 4, and 4 times 2 bytes
    check_record(&rt, record, (7, 1_000), &[widest], 338);
    // 30, 32 times 20, 16 times 20, and 4 times 260 bytes, with 24 around them
    bench.check_publish(&rt, 0, 2_054)?;
    Ok(())
}
