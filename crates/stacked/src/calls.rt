ghost use Rattle.concentrator.specs.Wholes.{whole};
ghost use Rattle.feed.specs.Calls.{next_buffer, next_left, next_said, short, tick_left, tick_said};
ghost use Rattle.stacked.specs.Stackings.{meaning_of};
ghost use Rattle.std.specs.Prelude.{◌≡◌, true, []};

use crate::stacked::Stacked;
use common::Fault;
use feed::{Feed, Taken, check_room};
use policy::Policy;

// No call changes why the concentrator is shut: `check` answers it at any time, and so each call says that
// it stays. A method with a clause of its own repeats those of its trait.
impl<F: Feed, P: Policy> Feed for Stacked<F, P> {
    ghost meaning = { λ s. meaning_of s };

    fn tick(&mut self, reading: u64, scratch: &mut [u8]) -> Result<(), Fault>
        ensures answer { result ≡ tick_said scratch.old }
        ensures left { (meaning_of self.new).waits ≡ tick_left (meaning_of self.old).waits reading scratch.old }
        ensures refused { short scratch.old ≡ true → scratch.new ≡ scratch.old }
        ensures shut { (whole self.new.concentrator).shut ≡ (whole self.old.concentrator).shut }
    {
        check_room(scratch)?;
        self.advance(reading, scratch);
        Ok(())
    }

    fn next(&mut self, buffer: &mut [u8]) -> Result<Taken, Fault>
        ensures answer { result ≡ next_said ((meaning_of self.old).waits []) buffer.old }
        ensures frame { buffer.new ≡ next_buffer ((meaning_of self.old).waits []) buffer.old }
        ensures left { (meaning_of self.new).waits ≡ next_left (meaning_of self.old).waits buffer.old }
        ensures shut { (whole self.new.concentrator).shut ≡ (whole self.old.concentrator).shut }
    {
        check_room(buffer)?;
        let len = self.write_first(buffer)?;
        Ok(Taken {
            port: self.port,
            len,
        })
    }
}
