ghost use Rattle.policy.specs.Policies.{held};
ghost use Rattle.slots.specs.Slots.{frames_of, stamp_of};
ghost use Rattle.std.specs.Prelude.{◌≡◌, ◌-◌, ◌^◌, Some, min};

use listing::Seconds;
use policy::Policy;
use slots::Rate;
use std::fmt;

// A slot, its stamp, and when it would close.
#[derive(Clone, Copy)]
pub struct Closing {
    slot: u64,
    stamp: u64,
    closes: u64,
}

impl Closing {
    // That of a slot whose first frame came at a reading.
    pub fn of<P: Policy>(policy: &P, rate: Rate, slot: u64, arrival: u64) -> Closing
        ensures slot { result.slot ≡ slot }
        ensures stamp { result.stamp ≡ min (stamp_of (frames_of rate) slot) (2 ^ 64 - 1) }
        ensures closes { result.closes ≡ P.closing policy.now (held result.stamp) (Some (held arrival)) }
    {
        let stamp = rate.stamp(slot);
        Closing {
            slot,
            stamp,
            closes: policy.closes_at(stamp, Some(arrival)),
        }
    }
}

impl fmt::Display for Closing {
    fn fmt<W: fmt::Write>(&self, f: &mut fmt::Formatter<W>) -> fmt::Result {
        let slot = self.slot;
        let at = Seconds(self.stamp);
        let until = Seconds(self.closes);
        write!(f, "{slot:>15}  {at}  {until}")
    }
}
