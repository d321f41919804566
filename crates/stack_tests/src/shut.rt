// Boxes that are shut: nothing ever waits.
use crate::build::{FIRST, OPENING, plan, recording};
use crate::steps::{Step, check_steps};
use common::{IdCode, Port};
use feed::Feed;
use feed_checks::check_short;
use fixtures::number;
use plan::Plan;
use policy::Absolute;
use recorded::Recorded;
use stacked::Stacked;
use std::alloc::Global;
use std::test::Fail;

// That nothing waits at a feed whenever it is asked.
fn check_silence<F: Feed>(heap: Global, feed: &mut F) -> Result<(), Fail> {
    check_short(feed, OPENING)?;
    let steps: [Step<'_>; 3] = [
        (OPENING, None),
        (OPENING + 1_000_000, None),
        (u64::MAX, None),
    ];
    check_steps(heap, feed, 1, &steps)
}

#[test]
fn nothing_waits_at_a_shut_one(rt: HostRuntime) -> Result<(), Fail> {
    let heap = rt.alloc();
    let built = recording(
        heap,
        &[(
            OPENING,
            0,
            "AA02 0016 0065 000003E8 00 000000 000000010002 195D",
        )],
    )?;
    let planned = plan(heap, 7, &[FIRST], &mut [0; 54])?;
    // plan, reading, wait, and the number of the refusal
    let cases = [
        (planned, 4_000_000_000_000_001, 100_000, 14),
        (Plan::begin(IdCode(7), 1), OPENING, 100_000, 25),
        (planned, OPENING, 60_000_000, 26),
    ];
    for (plan, reading, wait, refusal) in cases {
        let mut feed = Stacked::open(
            Port(1),
            &plan,
            Recorded::over(built.bytes()),
            Absolute::new(wait),
            reading,
        );
        let before = number(feed.check());
        check_silence(heap, &mut feed)?;
        assert_eq!(rt; [before, number(feed.check())], [refusal; 2]);
    }
    Ok(())
}
