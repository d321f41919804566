ghost use Rattle.common.specs.Faults.{number as number_of};
ghost use Rattle.engine.specs.States.{counts_said};
ghost use Rattle.engine.specs.Views.{counts_by, counts_of, state_of};
ghost use Rattle.std.specs.Prelude.{◌≡◌, ◌+◌};

use crate::counts::Counts;
use crate::engine::Engine;
use common::Fault;

impl Counts {
    // How many frames were accepted.
    pub fn accepted(&self) -> u64
        ensures { result ≡ (counts_of self.now).given 0 }
    {
        self.given[0]
    }

    // How many frames were refused by this refusal's number.
    pub fn refused(&self, fault: Fault) -> u64
        ensures { result ≡ (counts_of self.now).given (number_of fault) }
    {
        let number = usize::from(fault.number());
        // a number that no frame can be given was given to none
        self.given.get(number).copied().unwrap_or(0)
    }

    // How many frames were refused, by any number.
    pub fn refusals(&self) -> u64
        ensures { self.now.judged ≡ (counts_of self.now).given 0 + result }
    {
        self.judged - self.given[0]
    }
}

impl Engine {
    // What was counted so far.
    pub fn counts(&self) -> Result<Counts, Fault>
        ensures { counts_by result ≡ counts_said (state_of self.now) }
    {
        self.check()?;
        Ok(Counts {
            written: self.written,
            judged: self.judged,
            given: self.tally,
        })
    }
}
