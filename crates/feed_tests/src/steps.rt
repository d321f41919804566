use feed::Feed;
use feed_checks::{check_idle, check_next, tick};
use std::test::Fail;

// A tick with this reading, then the frames that are next, as port and only byte, and whether no
// others wait.
pub(crate) type Step<'a> = (u64, &'a [(u8, u8)], bool);

pub(crate) fn check_steps<F: Feed>(feed: &mut F, steps: &[Step<'_>]) -> Result<(), Fail> {
    for (reading, frames, last) in steps {
        tick(feed, *reading)?;
        for (port, byte) in *frames {
            check_next(feed, *port, &[*byte])?;
        }
        if *last {
            check_idle(feed)?;
        }
    }
    Ok(())
}
