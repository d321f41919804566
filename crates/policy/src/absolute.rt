ghost use Rattle.std.specs.Prelude.{◌≡◌, ◌≤◌};
ghost use Rattle.policy.specs.Policies.{absolute_closing, capped};
ghost use Rattle.std.proofs.Common.{rules};

use crate::limits::{LATEST_READING, LONGEST_WAIT};
use crate::policy::Policy;

// A slot closes a fixed wait after its stamp.
#[derive(Clone, Copy, PartialEq, Eq, Hash, Debug)]
pub struct Absolute {
    wait: u64,
    ghost short: { wait ≤ 60000000 },
}

impl Absolute {
    ghost use Rattle.policy.specs.Laws.{AbsoluteIgnores};

    // A wait of over 60,000,000 microseconds is taken as that.
    pub fn new(wait: u64) -> Absolute
        ensures waits { result.wait ≡ capped wait }
        ensures ignores { AbsoluteIgnores result }
    {
        Absolute {
            wait: wait.min(LONGEST_WAIT),
        }
    }
}

impl Policy for Absolute {
    ghost bound = { λ s. s.wait };

    ghost closing = { λ s stamp a. absolute_closing s.wait stamp };

    ghost bounded = { Prim.search rules };

    ghost from = { Prim.search rules };

    ghost upto = { Prim.search rules };

    fn longest_wait(&self) -> u64 {
        self.wait
    }

    fn closes_at(&self, stamp: u64, _arrival: Option<u64>) -> u64 {
        stamp.min(LATEST_READING) + self.wait
    }
}
