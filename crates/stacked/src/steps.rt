ghost use Rattle.concentrator.specs.Wholes.{whole};
ghost use Rattle.feed.specs.Calls.{first_over, first_taken, pick, short};
ghost use Rattle.feed.specs.Feeds.{Next, Tick, after};
ghost use Rattle.stacked.specs.Stackings.{meaning_of};
ghost use Rattle.stacked.specs.Stacks.{drained, taken_by};
ghost use Rattle.std.specs.Prelude.{◌≡◌, false, []};

use crate::stacked::Stacked;
use common::Fault;
use concentrator::Concentrator;
use feed::Feed;
use policy::Policy;

// Pulls until nothing waits at the feed, or no more frames are judged.
fn drain<F: Feed, P: Policy>(concentrator: &mut Concentrator<F, P>, scratch: &mut [u8])
    requires room { short scratch.old ≡ false }
    ensures { whole concentrator.new ≡ drained (whole concentrator.old) }
{
    while concentrator.pull(scratch).is_ok() {}
}

impl<F: Feed, P: Policy> Stacked<F, P> {
    // Ticks the concentrator and, unless the tick is refused, drains its feed.
    pub(crate) fn advance(&mut self, reading: u64, scratch: &mut [u8])
        requires room { short scratch.old ≡ false }
        ensures left { (meaning_of self.new).waits ≡ after (meaning_of self.old).waits (Tick reading) }
        ensures shut { (whole self.new.concentrator).shut ≡ (whole self.old.concentrator).shut }
    {
        if self.concentrator.tick(reading, scratch).is_ok() {
            drain(&mut self.concentrator, scratch);
        }
    }

    // Takes the oldest closed slot and writes its frame to the buffer's front. Its length.
    pub(crate) fn write_first(&mut self, buffer: &mut [u8]) -> Result<usize, Fault>
        requires room { short buffer.old ≡ false }
        ensures answer { taken_by self.old.port.0 result ≡ first_taken ((meaning_of self.old).waits []) }
        ensures frame { buffer.new ≡ first_over ((meaning_of self.old).waits []) buffer.old }
        ensures left { (meaning_of self.new).waits ≡ pick ((meaning_of self.old).waits []) (after (meaning_of self.old).waits Next) (meaning_of self.old).waits }
        ensures shut { (whole self.new.concentrator).shut ≡ (whole self.old.concentrator).shut }
        ensures port { self.new.port ≡ self.old.port }
    {
        let ticket = self.concentrator.take().map_err(|_| Fault::NothingWaits)?;
        let written = self.concentrator.write(ticket, buffer)?;
        Ok(written.len)
    }
}
