ghost use Rattle.std.specs.Prelude.{◌≡◌, ◌≤◌};
ghost use Rattle.engine.specs.Closing.{past_complete_of, past_ripe_of, ripe, settled};
ghost use Rattle.engine.specs.Limits.{slot_limit};
ghost use Rattle.engine.specs.States.{with_box};
ghost use Rattle.engine.specs.Views.{box_of, setting_of, state_of};

use crate::engine::Engine;
use policy::Policy;

// How far past the latest reading the stamp of a frame's slot may be, in microseconds.
pub const EARLIEST: u64 = 100_000;

impl Engine {
    // Whether the slot's closing reading has come.
    pub(crate) fn is_ripe<P: Policy>(&self, policy: &P, slot: u64) -> bool
        ensures { result ≡ ripe (P.closing policy.now) (setting_of self.now) (box_of self.now) slot }
    {
        let stamp = self.terms.rate.stamp(slot);
        policy.closes_at(stamp, self.arrival_of(slot)) <= self.latest
    }

    // Where the front stands once all up to the highest ripe slot is closed. Slots whose bound has passed are all ripe, and at most 32
    // have a stamp that has come and a bound that has not, so the policy is asked at most 33 times.
    // No type stands for a number within the limit: that depends on the rate, which the type would have to hold too.
    fn past_ripe<P: Policy>(&self, policy: &P) -> u64
        ensures value { result ≡ past_ripe_of (P.closing policy.now) (setting_of self.now) (box_of self.now) }
        ensures near { result ≤ slot_limit (setting_of self.now).rate }
    {
        let front = self.front;
        let end = self.terms.rate.last_slot_by(self.latest) + 1;
        (front..end)
            .rev()
            .find(|slot| self.is_ripe(policy, *slot))
            .map_or(front, |slot| slot + 1)
    }

    // The first slot from `from` on that is not complete.
    pub(crate) fn past_complete(&self, from: u64) -> u64
        requires { from ≤ slot_limit (setting_of self.now).rate }
        ensures value { result ≡ past_complete_of (setting_of self.now) (box_of self.now) from }
        ensures near { result ≤ slot_limit (setting_of self.now).rate }
        ensures up { from ≤ result }
    {
        let end = self.reach + 1;
        (from..end)
            .find(|slot| !self.is_complete(*slot))
            .unwrap_or(from.max(end))
    }

    // Moves the front past the highest ripe slot, and then past each complete one.
    pub(crate) fn settle<P: Policy>(&mut self, policy: &P)
        ensures { state_of self.new ≡ with_box (state_of self.old) (settled (P.closing policy.now) (setting_of self.old) (box_of self.old)) }
    {
        let ripe = self.past_ripe(policy);
        self.front = self.past_complete(ripe);
    }
}
