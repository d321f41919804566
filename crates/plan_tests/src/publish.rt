// The combined configuration, and the buffer that it is made in.
use crate::bench::Bench;
use crate::build::{BARE, station};
use fields::u32_at;
use fixtures::{from_hex, number};
use std::process::Abort;
use std::test::Fail;
use wire::seal;

// Stated here again, as a test gives its own values.
const LAST: u64 = 4_000_000_000_000_000;

// Publishes in buffers of each room at each reading: the number of the refusal, after which all bytes are as before.
fn check_refusals(
    rt: &impl Abort,
    bench: &mut Bench,
    cases: &[(usize, u64, u8)],
) -> Result<(), Fail> {
    for (room, reading, expected) in cases {
        bench.resize(*room)?;
        let before = bench.buffer.clone()?;
        assert_eq!(rt; number(bench.publish(*reading)), *expected);
        assert!(rt; bench.buffer.as_slice() == before.as_slice());
    }
    Ok(())
}

#[test]
fn an_empty_plan(rt: HostRuntime) -> Result<(), Fail> {
    let mut bench = Bench::new(rt.alloc(), 23)?;
    let cases = [
        (0, LAST + 1, 17),
        (23, LAST + 1, 17),
        (24, LAST + 1, 14),
        (24, u64::MAX, 14),
        (24, LAST, 25),
        (24, 0, 25),
    ];
    check_refusals(&rt, &mut bench, &cases)?;
    assert!(rt; bench.buffer.as_slice() == [0x55; 24].as_slice());
    Ok(())
}

#[test]
fn one_part_behind_the_other(rt: HostRuntime) -> Result<(), Fail> {
    let heap = rt.alloc();
    let mut bench = Bench::new(heap, 0)?;
    // room, code of the station, and outcome
    for (room, id, outcome) in [
        (53, 0x11, 117),
        (54, 0x11, 0),
        (83, 0x22, 117),
        (84, 0x22, 1),
    ] {
        bench.resize(room)?;
        bench.check_add(&rt, 7, &[station(id, 0, (0, 0, 0))], outcome)?;
    }
    let expected = from_hex(
        heap,
        "5555555555 5555555555 5555555555 5555555555
        11111111111111111111111111111111 0011 0000 0000 0000 0000 01010101
        22222222222222222222222222222222 0022 0000 0000 0000 0000 01010101
        55555555",
    )?;
    assert!(rt; bench.buffer.as_slice() == expected.as_slice());
    Ok(())
}

#[test]
fn short_buffers_and_late_readings(rt: HostRuntime) -> Result<(), Fail> {
    let mut bench = Bench::new(rt.alloc(), 54)?;
    bench.check_add(&rt, 7, &[BARE], 0)?;
    let cases = [(53, LAST + 1, 17), (53, LAST, 17), (54, LAST + 1, 14)];
    check_refusals(&rt, &mut bench, &cases)?;
    bench.check_publish(&rt, LAST, 54)?;
    let bytes = bench.buffer.as_slice();
    // SOC, and the count
    let stamp = (u32_at(bytes, 6), u32_at(bytes, 10));
    assert_eq!(rt; stamp, (Some(4_000_000_000), Some(0)));
    Ok(())
}

#[test]
fn a_published_frame_byte_by_byte(rt: HostRuntime) -> Result<(), Fail> {
    let heap = rt.alloc();
    let mut bench = Bench::new(heap, 84)?;
    bench.check_add(&rt, 7, &[BARE; 2], 0)?;
    let mut expected = from_hex(
        heap,
        "AA32 0054 0102 6553F100 00 01E240 000F4240 0002
        09090909090909090909090909090909 0009 0000 0000 0000 0000 01010101
        09090909090909090909090909090909 0009 0000 0000 0000 0000 01010101
        001E 0000",
    )?;
    seal(expected.as_mut_slice());
    // bytes behind the frame stay
    for room in [84, 86] {
        bench.resize(room)?;
        expected.resize(room, 0x55)?;
        bench.check_publish(&rt, 1_700_000_000_123_456, 84)?;
        assert!(rt; bench.buffer.as_slice() == expected.as_slice());
    }
    Ok(())
}
