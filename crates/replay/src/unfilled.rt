use common::{Fault, Port};
use feed::LONGEST_FRAME;
use layout::fill_absent;
use plan::Plan;
use wire::Frame;

// The code of the time quality if no line has a frame in the slot. A line may also send it.
const WORST: u8 = 15;

// Whether no line of a box below has filled its combined frame: then all blocks are absent ones.
pub fn is_unfilled(plan: &Plan, port: Port, frame: &[u8]) -> Result<bool, Fault> {
    let (header, frame) = Frame::read_headed(frame)?;
    if header.time.quality & 15 != WORST {
        return Ok(false);
    }
    let record = plan.port(port).ok_or(Fault::Port)?;
    let body = frame.data()?;
    let mut absent = [0; LONGEST_FRAME];
    let len = fill_absent(&record.stations, &mut absent)?;
    Ok(absent.get(..len).is_some_and(|blocks| blocks == body))
}
