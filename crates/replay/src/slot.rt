use common::{Fault, Port};
use listing::slot_at;
use plan::Plan;
use slots::Rate;
use wire::Header;

// The slot of a data frame that was accepted at a port of the plan.
pub fn slot_of(plan: &Plan, port: Port, frame: &[u8]) -> Result<u64, Fault> {
    let header = Header::read(frame)?;
    let record = plan.port(port).ok_or(Fault::Port)?;
    let rate = Rate::new(plan.rate()).ok_or(Fault::EmptyPlan)?;
    slot_at(record, rate, header.time)
}
