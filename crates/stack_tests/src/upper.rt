// Two boxes under a third, which waits 200 milliseconds for a slot.
use crate::build::{FIRST, OPENING, Record, SECOND, lower, plan, plan_over, recording};
use crate::steps::{Advance, check_advances};
use concentrator::Concentrator;
use feed::Joined;
use policy::Absolute;
use std::test::Fail;

// The frames of the left box's line, and of the right one's.
const LEFT: [Record<'static>; 2] = [
    (
        1_000_020_000,
        0,
        "AA02 0016 0065 000003E8 00 000000 000000010002 195D",
    ),
    (
        1_001_020_000,
        0,
        "AA02 0016 0065 000003E9 00 000000 000000050006 5D50",
    ),
];

const RIGHT: [Record<'static>; 1] = [(
    1_000_030_000,
    0,
    "AA02 0016 0066 000003E8 02 000000 000000030004 2A54",
)];

const TWO_SECONDS: [Advance<'static>; 4] = [
    (1_000_025_000, 1, None),
    (
        1_000_035_000,
        1,
        Some("AA02 001C 0009 000003E8 02 000000 000000010002 000000030004 53BE"),
    ),
    // the second box closes the slot 1001 without a frame
    (1_001_050_000, 1, None),
    (
        1_001_100_000,
        1,
        Some("AA02 001C 0009 000003E9 0F 000000 000000050006 800080008000 2C52"),
    ),
];

#[test]
fn two_boxes_stand_under_a_third(rt: HostRuntime) -> Result<(), Fail> {
    let heap = rt.alloc();
    let left = recording(heap, &LEFT)?;
    let right = recording(heap, &RIGHT)?;
    let mut first = [0; 54];
    let mut second = [0; 54];
    let lower_first = plan(heap, 7, &[FIRST], &mut first)?;
    let lower_second = plan(heap, 8, &[SECOND], &mut second)?;
    // the configurations that the two publish are those of the lines of the third
    let both = plan_over(9, &[&first, &second], &mut [0; 84])?;
    let feed = Joined {
        first: lower(0, &lower_first, left.bytes()),
        second: lower(1, &lower_second, right.bytes()),
    };
    let mut upper = Concentrator::open(&both, feed, Absolute::new(200_000), OPENING);
    check_advances(&rt, heap, &mut upper, &TWO_SECONDS)
}
