ghost use Rattle.slots.specs.Slots.{frames_of, slot_due};
ghost use Rattle.std.specs.Prelude.{◌≡◌};

use common::Fault;
use plan::Record;
use slots::Rate;
use wire::TimeTag;

// The slot of a port's data frame with this time.
pub fn slot_at(port: &Record, rate: Rate, time: TimeTag) -> Result<u64, Fault>
    ensures { result ≡ slot_due (frames_of rate) port.now.time_base time.soc time.count }
{
    rate.slot_due(port.time_base, time.soc, time.count)
}
