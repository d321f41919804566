// Which slot a SOC and a count belong to.
use slots::Rate;

// The slot at so many frames a second, none also where there is no such rate.
fn slot_of(frames: u16, time_base: u32, soc: u32, count: u32) -> Option<u64> {
    Rate::new(frames)?.slot_of(time_base, soc, count)
}

#[test]
fn thirty_a_second_in_microseconds(rt: HostRuntime) {
    // count, place in the second
    let cases = [
        (0, Some(0)),
        (1, None),
        (33_332, None),
        (33_333, Some(1)),
        (33_334, Some(1)),
        (33_335, None),
        (966_666, Some(29)),
        (966_667, Some(29)),
        (999_999, None),
    ];
    for (count, expected) in cases {
        assert_eq!(rt; slot_of(30, 1_000_000, 0, count), expected);
    }
    // the second counts too
    assert_eq!(rt;
        slot_of(30, 1_000_000, 1_149_580_800, 33_333),
        Some(34_487_424_001)
    );
}

#[test]
fn one_a_second(rt: HostRuntime) {
    // only the count 0 is less than one unit away
    assert_eq!(rt; slot_of(1, 1_000, 7, 0), Some(7));
    assert_eq!(rt; slot_of(1, 1_000, 7, 1), None);
    assert_eq!(rt; slot_of(1, 1_000, 7, 999), None);
    assert_eq!(rt; slot_of(1, 16_777_215, u32::MAX, 0), Some(4_294_967_295));
}

#[test]
fn the_least_and_the_largest_time_base(rt: HostRuntime) {
    // at 120 a second and 1,000 units, place k lies at 8 and a third units times k
    for (count, expected) in [
        (8, Some(1)),
        (9, Some(1)),
        (7, None),
        (991, Some(119)),
        (992, Some(119)),
        (999, None),
    ] {
        assert_eq!(rt; slot_of(120, 1_000, 0, count), expected);
    }
    // at 16,777,215 units: 139,810.125 times k
    for (count, expected) in [
        (139_810, Some(1)),
        (139_811, Some(1)),
        (139_809, None),
        (139_812, None),
        (16_777_214, None),
    ] {
        assert_eq!(rt; slot_of(120, 16_777_215, 0, count), expected);
    }
}

#[test]
fn no_such_rate_and_odd_numbers(rt: HostRuntime) {
    assert!(rt; Rate::new(0).is_none());
    assert!(rt; Rate::new(121).is_none());
    assert!(rt; Rate::new(u16::MAX).is_none());
    assert_eq!(rt; slot_of(30, 0, 0, 0), None);
    assert_eq!(rt; slot_of(120, 1_000, u32::MAX, u32::MAX), None);
}
