ghost use Rattle.closings.specs.Placing.{data_time_of, filled_port, slot_by};
ghost use Rattle.listing.specs.Judged.{header_judged};
ghost use Rattle.plan.specs.Tables.{port_of as port_in};
ghost use Rattle.plan.specs.Views.{plan_of};
ghost use Rattle.slots.specs.Slots.{frames_of};
ghost use Rattle.std.specs.Option.{option_map};
ghost use Rattle.std.specs.Prelude.{◌≡◌, slice_get};

use common::{Fault, Port};
use listing::{Build, Outcome, judge, slot_at};
use slots::Rate;
use wire::{FrameType, TimeTag};

// The time of a sound data frame, and none of any other frame.
pub fn data_time(frame: &[u8]) -> Option<TimeTag>
    ensures { result ≡ data_time_of (header_judged frame.now) }
{
    let header = judge(frame).ok()?;
    (header.kind == FrameType::Data).then_some(header.time)
}

// The record of the plan's port that a line fills, if it fills one.
fn port_of(build: &Build, line: Port) -> Option<&plan::Record>
    ensures { option_map (λ r. port_in r.now) result ≡ filled_port (slice_get build.now.lines.items line.0) (plan_of build.now.plan) }
{
    match build.lines.get(usize::from(line.0)) {
        Some(Outcome::Filled(port)) => build.plan.port(*port),
        _ => None,
    }
}

// The slot of a data frame that came by a line.
pub fn slot_of(build: &Build, rate: Rate, line: Port, time: TimeTag) -> Result<u64, Fault>
    ensures { result ≡ slot_by (filled_port (slice_get build.now.lines.items line.0) (plan_of build.now.plan)) (frames_of rate) time }
{
    let port = port_of(build, line).ok_or(Fault::Port)?;
    slot_at(port, rate, time)
}
