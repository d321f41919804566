// Ticks that the box below refuses.
use crate::build::{FIRST, OPENING, SECOND, lower, plan, recording};
use crate::steps::{Step, check_steps, check_text};
use common::Port;
use feed::Feed;
use feed_checks::{check_idle, tick};
use std::alloc::Global;
use std::process::Abort;
use std::test::Fail;

// A tick at which the seconds 1000 to 1059 are over, and the frame of the first comes too late: the frames of the
// first and the last, between which are others as long.
fn check_minute<F: Feed>(
    rt: &impl Abort,
    heap: Global,
    feed: &mut F,
    first: &str,
    last: &str,
) -> Result<(), Fail> {
    tick(feed, 1_060_000_000)?;
    check_text(heap, feed, 5, first)?;
    for _ in 1..59 {
        let taken = feed.next(&mut [0; 1040])?;
        assert_eq!(rt; (taken.port, taken.len), (Port(5), 28));
    }
    check_text(heap, feed, 5, last)?;
    Ok(check_idle(feed)?)
}

#[test]
fn a_leap_changes_nothing(rt: HostRuntime) -> Result<(), Fail> {
    let heap = rt.alloc();
    let built = recording(
        heap,
        &[(
            OPENING,
            0,
            "AA02 0016 0065 000003E8 00 000000 000000010002 195D",
        )],
    )?;
    let plan = plan(heap, 7, &[FIRST, SECOND], &mut [0; 84])?;
    let mut feed = lower(5, &plan, built.bytes());
    // more than a minute ahead, again and again
    let leaps: [Step<'_>; 4] = [
        (1_060_000_001, None),
        (1_061_000_000, None),
        (4_000_000_000_000_001, None),
        (u64::MAX, None),
    ];
    check_steps(heap, &mut feed, 5, &leaps)?;
    check_minute(
        &rt,
        heap,
        &mut feed,
        "AA02 001C 0007 000003E8 0F 000000 800080008000 800080008000 4A4D",
        "AA02 001C 0007 00000423 0F 000000 800080008000 800080008000 84A2",
    )
}
