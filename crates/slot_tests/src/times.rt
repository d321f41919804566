// Stamps, seconds and counts of slots, and slots of readings.
use slots::Rate;
use std::test::Fail;

// Stated here again, as a test gives its own values.
const LAST: u64 = 4_000_000_000_000_000;

fn rate(frames: u16) -> Result<Rate, &'static str> {
    Rate::new(frames).ok_or("no such rate")
}

#[test]
fn stamps_and_times(rt: HostRuntime) -> Result<(), Fail> {
    // rate, slot, stamp, SOC, count
    let cases = [
        (1, 0, 0, 0, 0),
        (30, 1, 33_333, 0, 33_333),
        (30, 29, 966_666, 0, 966_666),
        (30, 30, 1_000_000, 1, 0),
        (120, 119, 991_666, 0, 991_666),
        (120, 480_000_000_000, LAST, 4_000_000_000, 0),
        (50, 50_001, 1_000_020_000, 1_000, 20_000),
    ];
    for (frames, slot, stamp, soc, count) in cases {
        let rate = rate(frames)?;
        assert_eq!(rt; rate.stamp(slot), stamp);
        assert_eq!(rt; rate.slot_soc(slot), soc);
        assert_eq!(rt; rate.slot_count(slot), count);
    }
    Ok(())
}

#[test]
fn slots_of_readings(rt: HostRuntime) -> Result<(), Fail> {
    // rate, reading, first slot not before it, last slot by it
    let cases = [
        (50, 0, 0, 0),
        (50, 1, 1, 0),
        (50, 19_999, 1, 0),
        (50, 20_000, 1, 1),
        (50, 20_001, 2, 1),
        (50, 1_000_000_001, 50_001, 50_000),
        (30, 33_333, 1, 1),
        (30, 33_332, 1, 0),
        (30, 33_334, 2, 1),
        (1, LAST, 4_000_000_000, 4_000_000_000),
        (120, LAST, 480_000_000_000, 480_000_000_000),
        (120, LAST + 1, 480_000_000_001, 480_000_000_000),
    ];
    for (frames, reading, first, last) in cases {
        let rate = rate(frames)?;
        assert_eq!(rt; rate.first_slot(reading), first);
        assert_eq!(rt; rate.last_slot_by(reading), last);
    }
    Ok(())
}

#[test]
fn largest_numbers(rt: HostRuntime) -> Result<(), Fail> {
    let one = rate(1)?;
    // 18,446,744,073,709 seconds and 551,615 microseconds
    assert_eq!(rt; one.last_slot_by(u64::MAX), 18_446_744_073_709);
    assert_eq!(rt; one.first_slot(u64::MAX), 18_446_744_073_710);
    assert_eq!(rt; one.stamp(u64::MAX), u64::MAX);
    assert_eq!(rt; one.slot_soc(u64::MAX), u32::MAX);
    assert_eq!(rt; one.slot_count(u64::MAX), 0);
    Ok(())
}

#[test]
fn waits_that_fit(rt: HostRuntime) -> Result<(), Fail> {
    // rate, longest wait
    for (frames, longest) in [
        (50, 540_000),
        (30, 966_666),
        (120, 166_666),
        (1, 31_900_000),
    ] {
        let rate = rate(frames)?;
        assert!(rt; rate.fits_window(longest));
        assert!(rt; !rate.fits_window(longest + 1));
    }
    assert!(rt; !rate(1)?.fits_window(u64::MAX));
    Ok(())
}
