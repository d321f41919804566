ghost use Rattle.std.specs.Prelude.{◌≡◌, ◌≤◌};
ghost use Rattle.policy.specs.Policies.{capped, relative_closing};
ghost use Rattle.std.proofs.Common.{rules};

use crate::limits::{LATEST_READING, LONGEST_WAIT};
use crate::policy::Policy;

// A slot closes some time after its first arrival, but no more than a wait after its stamp.
#[derive(Clone, Copy, PartialEq, Eq, Hash, Debug)]
pub struct Relative {
    after_arrival: u64,
    wait: u64,
    ghost soon: { after_arrival ≤ 60000000 },
    ghost short: { wait ≤ 60000000 },
}

impl Relative {
    ghost use Rattle.policy.specs.Laws.{RelativeNoLater, WorkedClosings};

    // Times of over 60,000,000 microseconds are each taken as that.
    pub fn new(after_arrival: u64, wait: u64) -> Relative
        ensures follows { result.after_arrival ≡ capped after_arrival }
        ensures waits { result.wait ≡ capped wait }
        ensures no_later { RelativeNoLater result }
        ensures worked { WorkedClosings result }
    {
        Relative {
            after_arrival: after_arrival.min(LONGEST_WAIT),
            wait: wait.min(LONGEST_WAIT),
        }
    }
}

impl Policy for Relative {
    ghost bound = { λ s. s.wait };

    ghost closing = { λ s stamp a. relative_closing s.after_arrival s.wait stamp a };

    ghost bounded = { Prim.search rules };

    ghost from = { Prim.search rules };

    ghost upto = { Prim.search rules };

    fn longest_wait(&self) -> u64 {
        self.wait
    }

    fn closes_at(&self, stamp: u64, arrival: Option<u64>) -> u64 {
        let stamp = stamp.min(LATEST_READING);
        let latest = stamp + self.wait;
        arrival.map_or(latest, |first| {
            latest.min(stamp.max(first.min(LATEST_READING)) + self.after_arrival)
        })
    }
}
