// Three boxes, each under the next, which wait 100, 200 and 400 milliseconds for a slot.
//
// The lowest has a captured line whose clock stood seven seconds ahead, and another line; the middle has
// the lowest and a line of its own; the top has the middle alone. So a frame of the top has three blocks:
// the captured line's, the other's, and that of the middle's own line, each as it was sent, or 8000 three
// times if it did not come. Before them stand the top's code, the slot's SOC, and the worst time quality
// that came up from the lines, or 0F if the top took no frame. The check words are those that
// `check_word` of tools/frames.py gives for these bytes.
use crate::build::{FIRST, OPENING, Record, SECOND, plan, plan_over, recording};
use crate::steps::{Advance, check_advances, check_written};
use common::Port;
use concentrator::Concentrator;
use feed::{Feed, Joined};
use fixtures::{from_hex, number};
use plan::Plan;
use policy::Absolute;
use recorded::Recorded;
use shift::{Shifted, Shifts};
use stacked::Stacked;
use std::alloc::Global;
use std::process::Abort;
use std::test::Fail;

// The configuration of the sender 103, the middle box's own line.
const THIRD: &str = "AA32 0036 0067 00000000 00 000000 000F4240 0001
    20202020202020202020202020202020 03EB 0000 0000 0000 0000 00000000 0001 4F4E";

// The own line's frame of the second 1000.
const OWN: &str = "AA02 0016 0067 000003E8 00 000000 000000050006 C8C0";

type Lowest<'a> = Stacked<Joined<Shifted<Recorded<'a>>, Recorded<'a>>, Absolute>;

type Middle<'a> = Stacked<Joined<Lowest<'a>, Recorded<'a>>, Absolute>;

type Top<'a> = Concentrator<Middle<'a>, Absolute>;

// The plans of the lowest box, the middle and the top.
fn plans(heap: Global) -> Result<[Plan; 3], Fail> {
    // the configuration that a box publishes is that of the line above it
    let mut below = [0; 84];
    let lowest = plan(heap, 7, &[FIRST, SECOND], &mut below)?;
    let third = from_hex(heap, THIRD)?;
    let mut between = [0; 114];
    let middle = plan_over(8, &[&below, third.as_slice()], &mut between)?;
    let top = plan_over(9, &[&between], &mut [0; 114])?;
    Ok([lowest, middle, top])
}

// The lowest box over the captures of its lines.
fn lowest<'a>(plan: &Plan, one: &'a [u8], other: &'a [u8]) -> Lowest<'a> {
    let lines = Joined {
        first: Shifted {
            feed: Recorded::over(one),
            map: Shifts::new([-7, 0, 0, 0, 0, 0, 0, 0, 0, 0, 0, 0, 0, 0, 0, 0]),
        },
        second: Recorded::over(other),
    };
    Stacked::open(Port(0), plan, lines, Absolute::new(100_000), OPENING)
}

// The middle box over the lowest and the capture of its own line.
fn middle<'a>(plan: &Plan, lowest: Lowest<'a>, own: &'a [u8]) -> Middle<'a> {
    let lines = Joined {
        first: lowest,
        second: Recorded::over(own),
    };
    Stacked::open(Port(0), plan, lines, Absolute::new(200_000), OPENING)
}

// The pile over the captures of the lowest box's two lines and of the middle's own.
fn pile<'a>(heap: Global, one: &'a [u8], other: &'a [u8], own: &'a [u8]) -> Result<Top<'a>, Fail> {
    let [first, second, third] = plans(heap)?;
    let feed = middle(&second, lowest(&first, one, other), own);
    Ok(Concentrator::open(&third, feed, Absolute::new(400_000), OPENING))
}

// The frames of the captured line, stamped with the seconds 1007 and 1008.
const AHEAD: [Record<'static>; 2] = [
    (
        1_000_020_000,
        0,
        "AA02 0016 0065 000003EF 01 000000 000000010002 5FA5",
    ),
    (
        1_001_020_000,
        0,
        "AA02 0016 0065 000003F0 01 000000 000000070008 9241",
    ),
];

// The frame of the other line.
const OTHER: [Record<'static>; 1] = [(
    1_000_030_000,
    1,
    "AA02 0016 0066 000003E8 02 000000 000000030004 2A54",
)];

const TWO_SECONDS: [Advance<'static>; 6] = [
    (1_000_025_000, 0, None),
    // the last line of the second 1000 completes the slot of each box, all in one tick
    (
        1_000_030_000,
        1,
        Some("AA02 0022 0009 000003E8 02 000000 000000010002 000000030004 000000050006 31A5"),
    ),
    // of the second 1001 only the captured line's frame comes: the lowest box closes the slot at
    // 1_001_100_000, and the middle takes its frame in that tick, but waits for its own line; it closes
    // at 1_001_200_000, and the top has the one frame that completes its slot
    (1_001_025_000, 0, None),
    (1_001_100_000, 0, None),
    (1_001_199_999, 0, None),
    (
        1_001_200_000,
        1,
        Some("AA02 0022 0009 000003E9 01 000000 000000070008 800080008000 800080008000 7311"),
    ),
];

#[test]
fn three_boxes_deep(rt: HostRuntime) -> Result<(), Fail> {
    let heap = rt.alloc();
    let one = recording(heap, &AHEAD)?;
    let other = recording(heap, &OTHER)?;
    let own = recording(heap, &[(1_000_010_000, 1, OWN)])?;
    let mut top = pile(heap, one.bytes(), other.bytes(), own.bytes())?;
    check_advances(&rt, heap, &mut top, &TWO_SECONDS)
}

// A tick with this reading, at which the frame of the box below comes and no other: the verdict on it, and what is
// then written.
fn check_late<F: Feed>(
    rt: &impl Abort,
    heap: Global,
    upper: &mut Concentrator<F, Absolute>,
    frame: &str,
    step: (u64, u8, &str),
) -> Result<(), Fail> {
    let (reading, verdict, written) = step;
    let frame = from_hex(heap, frame)?;
    let mut buffer = [0; 1040];
    upper.tick(reading, &mut buffer)?;
    let pulled = upper.pull(&mut buffer)?;
    assert!(rt; &buffer[..pulled.len] == frame.as_slice());
    check_written(rt, heap, upper, written)?;
    let verdicts = [number(pulled.verdict), number(upper.pull(&mut buffer))];
    assert_eq!(rt; verdicts, [verdict, 30], "at {reading}");
    Ok(())
}

#[test]
fn a_late_frame_from_below_is_refused(rt: HostRuntime) -> Result<(), Fail> {
    let heap = rt.alloc();
    let silent = recording(heap, &[])?;
    let own = recording(heap, &[(1_000_020_000, 1, OWN)])?;
    // one tick closes the slot in all boxes that have waited long enough, from the top down: so the
    // lowest's frame is late for the middle, and at its own closing reading the top refuses the middle's
    let below = "AA02 0022 0008 000003E8 00 000000 800080008000 800080008000 000000050006 3CCF";
    // the reading, what the top makes of the middle's frame, and what it writes
    let cases = [
        (
            1_000_399_999,
            0,
            "AA02 0022 0009 000003E8 00 000000 800080008000 800080008000 000000050006 29A9",
        ),
        (
            1_000_400_000,
            20,
            "AA02 0022 0009 000003E8 0F 000000 800080008000 800080008000 800080008000 FF95",
        ),
    ];
    for case in cases {
        let mut top = pile(heap, silent.bytes(), silent.bytes(), own.bytes())?;
        check_advances(&rt, heap, &mut top, &[(1_000_025_000, 0, None)])?;
        check_late(&rt, heap, &mut top, below, case)?;
    }
    Ok(())
}
