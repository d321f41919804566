use common::Fault;
use concentrator::Concentrator;
use feed::Feed;
use feed_checks::{check_idle, check_next, tick};
use fixtures::from_hex;
use policy::Absolute;
use std::alloc::Global;
use std::process::Abort;
use std::test::Fail;

// That the frame of this hexadecimal text is next.
pub(crate) fn check_text<F: Feed>(
    heap: Global,
    feed: &mut F,
    port: u8,
    text: &str,
) -> Result<(), Fail> {
    let frame = from_hex(heap, text)?;
    Ok(check_next(feed, port, frame.as_slice())?)
}

// A tick with this reading, then the frame that is next, if one is, and no other. Beside that of `feed_tests`,
// where a frame is one byte and not hexadecimal text.
pub(crate) type Step<'a> = (u64, Option<&'a str>);

pub(crate) fn check_steps<F: Feed>(
    heap: Global,
    feed: &mut F,
    port: u8,
    steps: &[Step<'_>],
) -> Result<(), Fail> {
    for (reading, frame) in steps {
        tick(feed, *reading)?;
        if let Some(frame) = *frame {
            check_text(heap, feed, port, frame)?;
        }
        check_idle(feed)?;
    }
    Ok(())
}

// Ticks, and pulls until nothing waits: how many frames were accepted.
pub(crate) fn advance<F: Feed>(
    upper: &mut Concentrator<F, Absolute>,
    reading: u64,
) -> Result<u32, Fault> {
    let mut buffer = [0; 1040];
    upper.tick(reading, &mut buffer)?;
    // counted: a `while` has to be proved to end
    for accepted in 0..10 {
        match upper.pull(&mut buffer) {
            Ok(pulled) => pulled.verdict?,
            Err(Fault::NothingWaits) => return Ok(accepted),
            Err(fault) => return Err(fault),
        }
    }
    Ok(10)
}

// A tick with this reading, how many frames are accepted, and the frame that is then written, if one is to be.
pub(crate) type Advance<'a> = (u64, u32, Option<&'a str>);

pub(crate) fn check_advances<F: Feed>(
    rt: &impl Abort,
    heap: Global,
    upper: &mut Concentrator<F, Absolute>,
    steps: &[Advance<'_>],
) -> Result<(), Fail> {
    for (reading, accepted, frame) in steps {
        assert_eq!(rt; advance(upper, *reading)?, *accepted, "at {reading}");
        if let Some(frame) = *frame {
            check_written(rt, heap, upper, frame)?;
        }
    }
    Ok(())
}

// That this frame is the next that is written.
pub(crate) fn check_written<F: Feed>(
    rt: &impl Abort,
    heap: Global,
    upper: &mut Concentrator<F, Absolute>,
    frame: &str,
) -> Result<(), Fail> {
    let frame = from_hex(heap, frame)?;
    let ticket = upper.take()?;
    let mut out = [0; 1040];
    let written = upper.write(ticket, &mut out)?;
    assert!(rt; &out[..written.len] == frame.as_slice());
    Ok(())
}
