// Feeds upon feeds, three levels and more.
use crate::build::command;
use feed::{Feed, Joined, Silent};
use feed_checks::{check_idle, check_next, tick};
use fixtures::Recording;
use recorded::Recorded;
use shift::{Shifted, Shifts};
use std::alloc::{AllocError, Global};
use std::test::Fail;

// A capture of the line `port`, with frames of the SOC 100 at the reading 10 and 200 at 20.
fn line(heap: Global, port: u8) -> Result<Recording, AllocError> {
    let mut built = Recording::new(heap)?;
    built.record(10, port, &command(100, 0xe12e))?;
    built.record(20, port, &command(200, 0x764a))?;
    Ok(built)
}

// That the frames of line 1, with these SOCs and check words, come before those of line 2.
fn check_lines<F: Feed + Drop>(
    mut feed: F,
    first: [(u32, u16); 2],
    second: [(u32, u16); 2],
) -> Result<(), Fail> {
    tick(&mut feed, 10)?;
    tick(&mut feed, 20)?;
    for (port, frames) in [(1, first), (2, second)] {
        for (soc, check_word) in frames {
            check_next(&mut feed, port, &command(soc, check_word))?;
        }
    }
    check_idle(&mut feed)?;
    Ok(())
}

const PLAIN: [(u32, u16); 2] = [(100, 0xe12e), (200, 0x764a)];

const LATER: [(u32, u16); 2] = [(160, 0x56fd), (260, 0x15e7)];

const MUCH_LATER: [(u32, u16); 2] = [(220, 0x80f7), (320, 0x09cd)];

const EARLIER: [(u32, u16); 2] = [(93, 0x936f), (193, 0x5d86)];

#[test]
fn shifts_and_joins_in_any_order(rt: HostRuntime) -> Result<(), Fail> {
    let heap = rt.alloc();
    let one = line(heap, 1)?;
    let two = line(heap, 2)?;
    let one = Recorded::over(one.bytes());
    let two = Recorded::over(two.bytes());
    // the line 1 is shifted by 60 seconds, and the line 2 by -7
    let map = Shifts::new([0, 60, -7, 0, 0, 0, 0, 0, 0, 0, 0, 0, 0, 0, 0, 0]);
    let joined_shifted = Joined {
        first: Shifted { feed: one, map },
        second: Shifted { feed: two, map },
    };
    check_lines(joined_shifted, LATER, EARLIER)?;
    let shifted_joined = Shifted {
        feed: Joined {
            first: one,
            second: two,
        },
        map,
    };
    check_lines(shifted_joined, LATER, EARLIER)?;
    let joined_joined = Joined {
        first: Joined {
            first: Silent,
            second: one,
        },
        second: Joined {
            first: two,
            second: Joined {
                first: Silent,
                second: Silent,
            },
        },
    };
    check_lines(joined_joined, PLAIN, PLAIN)?;
    let shifted_twice = Shifted {
        feed: Joined {
            first: Shifted {
                feed: Joined {
                    first: Silent,
                    second: one,
                },
                map,
            },
            second: two,
        },
        map,
    };
    check_lines(shifted_twice, MUCH_LATER, EARLIER)
}
