// Boxes at one frame a second. Their lines have one station without channels, so that a block has six
// bytes. All check words were worked out elsewhere.
use common::{Fault, IdCode, Port};
use fixtures::{Recording, from_hex};
use plan::Plan;
use policy::Absolute;
use recorded::Recorded;
use stacked::Stacked;
use std::alloc::Global;
use std::test::Fail;

// The configurations of the senders 101 and 102.
pub(crate) const FIRST: &str = "AA32 0036 0065 00000000 00 000000 000F4240 0001
    20202020202020202020202020202020 03E9 0000 0000 0000 0000 00000000 0001 8972";

pub(crate) const SECOND: &str = "AA32 0036 0066 00000000 00 000000 000F4240 0001
    20202020202020202020202020202020 03EA 0000 0000 0000 0000 00000000 0001 2C50";

// The second 1000, at which all boxes open.
pub(crate) const OPENING: u64 = 1_000_000_000;

// A box under another: it waits 100 milliseconds for a slot.
pub(crate) type Lower<'a> = Stacked<Recorded<'a>, Absolute>;

// A plan of these lines; its configuration is left in the buffer.
pub(crate) fn plan(heap: Global, id: u16, lines: &[&str], buffer: &mut [u8]) -> Result<Plan, Fail> {
    let mut plan = Plan::begin(IdCode(id), 1);
    for line in lines {
        plan.add(from_hex(heap, line)?.as_slice(), buffer)?;
    }
    plan.publish(0, buffer)?;
    Ok(plan)
}

// A plan of boxes whose configurations were left in buffers; its own is left in another.
pub(crate) fn plan_over(id: u16, boxes: &[&[u8]], buffer: &mut [u8]) -> Result<Plan, Fault> {
    let mut plan = Plan::begin(IdCode(id), 1);
    for frame in boxes {
        plan.add(frame, buffer)?;
    }
    plan.publish(0, buffer)?;
    Ok(plan)
}

pub(crate) fn lower<'a>(port: u8, plan: &Plan, capture: &'a [u8]) -> Lower<'a> {
    Stacked::open(
        Port(port),
        plan,
        Recorded::over(capture),
        Absolute::new(100_000),
        OPENING,
    )
}

// A record of a capture: the reading, the port and the frame.
pub(crate) type Record<'a> = (u64, u8, &'a str);

// A capture of these records. Beside that of `feed_tests`, where a frame is one byte and not hexadecimal text.
pub(crate) fn recording(heap: Global, records: &[Record<'_>]) -> Result<Recording, Fail> {
    let mut built = Recording::new(heap)?;
    for (reading, port, frame) in records {
        built.record(*reading, *port, from_hex(heap, frame)?.as_slice())?;
    }
    Ok(built)
}
