use crate::build::recording;
use crate::steps::{Step, check_steps};
use feed::Joined;
use recorded::Recorded;
use std::test::Fail;

#[test]
fn the_first_comes_before_the_second(rt: HostRuntime) -> Result<(), Fail> {
    let heap = rt.alloc();
    let left = recording(heap, &[(10, 1, 1), (20, 1, 2), (40, 1, 3)])?;
    let right = recording(heap, &[(10, 2, 4), (15, 1, 5), (30, 2, 6)])?;
    let mut feed = Joined {
        first: Recorded::over(left.bytes()),
        second: Recorded::over(right.bytes()),
    };
    let steps: [Step<'_>; 3] = [
        (10, &[], false),
        // the frame of the reading 20 goes between those that wait
        (20, &[(1, 1), (1, 2), (2, 4)], false),
        (40, &[(1, 3), (1, 5), (2, 6)], true),
    ];
    check_steps(&mut feed, &steps)
}
