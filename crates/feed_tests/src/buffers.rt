// Buffers of 1,039 and 1,040 bytes, at a feed of each kind.
use feed::{Feed, Joined, Silent};
use feed_checks::{check_idle, check_next, check_short, tick};
use fixtures::Recording;
use recorded::Recorded;
use shift::{Shifted, Shifts};
use std::test::Fail;

// A refused call does nothing: the frame, which comes at the reading 5, is neither added nor taken.
fn check_lengths<F: Feed + Drop>(mut feed: F, frame: &[u8]) -> Result<(), Fail> {
    check_short(&mut feed, 5)?;
    check_idle(&mut feed)?;
    tick(&mut feed, 5)?;
    check_short(&mut feed, 5)?;
    check_next(&mut feed, 2, frame)?;
    check_idle(&mut feed)?;
    Ok(())
}

#[test]
fn short_buffers_are_refused(rt: HostRuntime) -> Result<(), Fail> {
    let heap = rt.alloc();
    let frame = vec![in heap; 0xaa; 1040]?;
    let frame = frame.as_slice();
    let mut built = Recording::new(heap)?;
    built.record(5, 2, frame)?;
    let capture = Recorded::over(built.bytes());
    check_lengths(capture, frame)?;
    let shifted = Shifted {
        feed: capture,
        map: Shifts::new([1; 16]),
    };
    check_lengths(shifted, frame)?;
    let first = Joined {
        first: capture,
        second: Silent,
    };
    check_lengths(first, frame)?;
    let second = Joined {
        first: Silent,
        second: capture,
    };
    check_lengths(second, frame)
}

#[test]
fn silence(rt: HostRuntime) -> Result<(), Fail> {
    let mut feed = Silent;
    check_short(&mut feed, 0)?;
    check_idle(&mut feed)?;
    tick(&mut feed, u64::MAX)?;
    check_idle(&mut feed)?;
    Ok(())
}
