use crate::build::recording;
use crate::steps::{Step, check_steps};
use feed_checks::{check_idle, check_next, tick};
use fixtures::{Recording, number};
use recorded::Recorded;
use std::alloc::Global;
use std::test::Fail;

// Stated here again, as a test gives its own values.
const LAST: u64 = 4_000_000_000_000_000;

// The number that the check of a capture answers, 0 if it is sound.
fn soundness(feed: &Recorded<'_>) -> u8 {
    number(feed.check())
}

#[test]
fn frames_wait_in_their_order_once_they_have_come(rt: HostRuntime) -> Result<(), Fail> {
    let records = [(10, 4, 1), (10, 0, 2), (11, 15, 3), (20, 4, 4)];
    let built = recording(rt.alloc(), &records)?;
    let mut feed = Recorded::over(built.bytes());
    let steps: [Step<'_>; 5] = [
        (9, &[], true),
        (10, &[(4, 1)], false),
        // what comes later goes behind what still waits
        (19, &[(0, 2), (15, 3)], true),
        (u64::MAX, &[(4, 4)], true),
        (u64::MAX, &[], true),
    ];
    check_steps(&mut feed, &steps)
}

#[test]
fn a_falling_reading_adds_nothing(rt: HostRuntime) -> Result<(), Fail> {
    let built = recording(rt.alloc(), &[(5, 1, 1), (7, 1, 2)])?;
    let mut feed = Recorded::over(built.bytes());
    let steps: [Step<'_>; 5] = [
        (6, &[], false),
        (3, &[], false),
        (0, &[(1, 1)], true),
        (5, &[], true),
        (7, &[(1, 2)], true),
    ];
    check_steps(&mut feed, &steps)
}

// The soundness of a capture of which nothing ever waits.
fn check_empty(bytes: &[u8]) -> Result<u8, Fail> {
    let mut feed = Recorded::over(bytes);
    check_idle(&mut feed)?;
    tick(&mut feed, u64::MAX)?;
    check_idle(&mut feed)?;
    Ok(soundness(&feed))
}

#[test]
fn an_unsound_capture_stays_empty(rt: HostRuntime) -> Result<(), Fail> {
    // the last reading falls
    let built = recording(rt.alloc(), &[(7, 1, 1), (7, 1, 2), (6, 1, 3)])?;
    let bytes = built.bytes();
    assert_eq!(rt; bytes.len(), 41);
    // the first two records are sound
    assert_eq!(rt; soundness(&Recorded::over(&bytes[0..29])), 0);
    // so is a bare header; all three, a record that is cut short, and too few bytes for the header are not
    let cases = [
        (5, 0),
        (41, 13),
        (40, 13),
        (28, 13),
        (6, 13),
        (4, 13),
        (0, 13),
    ];
    for (end, expected) in cases {
        let front = bytes.get(0..end).ok_or("too few bytes")?;
        assert_eq!(rt; check_empty(front)?, expected);
    }
    Ok(())
}

// The soundness of a capture with one record, whose frame then waits if it is sound.
fn one_record(heap: Global, reading: u64, port: u8, len: usize) -> Result<u8, Fail> {
    let frame = vec![in heap; 0xaa; len]?;
    let mut built = Recording::new(heap)?;
    built.record(reading, port, frame.as_slice())?;
    let mut feed = Recorded::over(built.bytes());
    tick(&mut feed, reading)?;
    if feed.check().is_ok() {
        check_next(&mut feed, port, frame.as_slice())?;
    }
    check_idle(&mut feed)?;
    Ok(soundness(&feed))
}

#[test]
fn one_record_at_its_limits(rt: HostRuntime) -> Result<(), Fail> {
    // reading, port, length, and the number that the check answers
    let cases = [
        (0, 0, 1, 0),
        (LAST, 15, 1_040, 0),
        (LAST + 1, 0, 1, 13),
        (0, 16, 1, 13),
        (0, 0, 0, 13),
        (0, 0, 1_041, 13),
    ];
    for (reading, port, len, expected) in cases {
        assert_eq!(rt; one_record(rt.alloc(), reading, port, len)?, expected);
    }
    Ok(())
}
