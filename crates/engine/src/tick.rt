ghost use Rattle.engine.specs.States.{check_said, tick_said, ticked};
ghost use Rattle.engine.specs.Views.{state_of};
ghost use Rattle.std.specs.Prelude.{◌≡◌};

use crate::closing::EARLIEST;
use crate::engine::Engine;
use common::{Fault, LAST_READING};
use policy::Policy;

// How far past the latest reading a tick may be, in microseconds.
pub const LONGEST_STEP: u64 = 60_000_000;

impl Engine {
    // Why the engine is shut, if it is.
    pub fn check(&self) -> Result<(), Fault>
        ensures { result ≡ check_said (state_of self.now) }
    {
        self.terms.shut.map_or(Ok(()), Err)
    }

    // Takes a reading of the clock, closes the slots whose time has come, and answers the latest
    // reading. One that is lower than the latest counts as that.
    pub fn tick<P: Policy>(&mut self, policy: &P, reading: u64) -> Result<u64, Fault>
        ensures answer { result ≡ tick_said (state_of self.old) reading }
        ensures next { state_of self.new ≡ ticked (P.closing policy.now) (state_of self.old) reading }
    {
        self.check()?;
        if reading > LAST_READING || reading > self.latest + LONGEST_STEP {
            return Err(Fault::Reading);
        }
        let latest = reading.max(self.latest);
        self.latest = latest;
        self.reach = self.terms.rate.last_slot_by(latest + EARLIEST);
        self.settle(policy);
        Ok(latest)
    }
}
