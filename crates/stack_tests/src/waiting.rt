// What waits at a box under another, slot by slot.
use crate::build::{FIRST, SECOND, lower, plan, recording};
use crate::steps::{Step, check_steps};
use feed_checks::check_short;
use std::test::Fail;

#[test]
fn a_frame_waits_once_its_slot_is_closed(rt: HostRuntime) -> Result<(), Fail> {
    let heap = rt.alloc();
    let built = recording(
        heap,
        &[
            (
                1_000_020_000,
                0,
                "AA02 0016 0065 000003E8 00 000000 000000010002 195D",
            ),
            (
                1_000_030_000,
                1,
                "AA02 0016 0066 000003E8 02 000000 000000030004 2A54",
            ),
            (
                1_001_020_000,
                0,
                "AA02 0016 0065 000003E9 00 000000 000000050006 5D50",
            ),
            // too late for its slot
            (
                1_002_150_000,
                1,
                "AA02 0016 0066 000003EA 00 000000 000000070008 4921",
            ),
        ],
    )?;
    let plan = plan(heap, 7, &[FIRST, SECOND], &mut [0; 84])?;
    // the port is taken modulo 16
    let mut feed = lower(19, &plan, built.bytes());
    let steps: [Step<'_>; 6] = [
        (1_000_010_000, None),
        // one line of two
        (1_000_025_000, None),
        // both
        (
            1_000_030_000,
            Some("AA02 001C 0007 000003E8 02 000000 000000010002 000000030004 40BE"),
        ),
        (1_001_099_999, None),
        // the wait is over
        (
            1_001_100_000,
            Some("AA02 001C 0007 000003E9 00 000000 000000050006 800080008000 4648"),
        ),
        (
            1_002_200_000,
            Some("AA02 001C 0007 000003EA 0F 000000 800080008000 800080008000 6B89"),
        ),
    ];
    check_steps(heap, &mut feed, 3, &steps)
}

#[test]
fn a_tick_takes_all_that_waits_below(rt: HostRuntime) -> Result<(), Fail> {
    let heap = rt.alloc();
    let built = recording(
        heap,
        &[
            (
                1_000_020_000,
                0,
                "AA02 0016 0065 000003E8 00 000000 000000010002 195D",
            ),
            // one that is no frame, one of no port, and one more of the first port
            (1_000_021_000, 1, "55"),
            (
                1_000_022_000,
                2,
                "AA02 0016 0066 000003E8 02 000000 000000030004 2A54",
            ),
            (
                1_000_023_000,
                0,
                "AA02 0016 0065 000003E8 00 000000 000000050006 8519",
            ),
            (
                1_000_024_000,
                1,
                "AA02 0016 0066 000003E8 02 000000 000000030004 2A54",
            ),
        ],
    )?;
    let plan = plan(heap, 7, &[FIRST, SECOND], &mut [0; 84])?;
    let mut feed = lower(0, &plan, built.bytes());
    // a refused call does nothing
    check_short(&mut feed, 1_000_030_000)?;
    let steps: [Step<'_>; 1] = [(
        1_000_030_000,
        Some("AA02 001C 0007 000003E8 02 000000 000000010002 000000030004 40BE"),
    )];
    check_steps(heap, &mut feed, 0, &steps)
}
