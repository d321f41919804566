ghost use Rattle.std.specs.Prelude.{◌≡◌, ◌<◌, if◌then◌else◌, Ok, Err};
ghost use Rattle.engine.specs.Calls.{counted, exhausted, judge as judge_of, placed, verdict_number_of, verdict_of};
ghost use Rattle.engine.specs.Limits.{most_frames};
ghost use Rattle.engine.specs.States.{admit_said, admitted, with_box};
ghost use Rattle.engine.specs.Views.{box_of, setting_of, state_of};
ghost use Rattle.common.specs.declared.fault.Fault.TheVariants.{Exhausted};

use crate::engine::Engine;
use common::{Fault, Port, verdict_number};
use policy::Policy;

// How many frames are judged at most.
const MOST_FRAMES: u64 = 1_000_000_000_000_000;

// How many numbers a verdict can have: 0 for accepted, and those of the refusals.
pub(crate) const VERDICTS: usize = 31;

impl Engine {
    // Whether one frame more may be judged.
    pub fn check_count(&self) -> Result<(), Fault>
        ensures { result ≡ (if exhausted (box_of self.now) then Err Exhausted else Ok tt) }
    {
        if self.judged >= MOST_FRAMES {
            return Err(Fault::Exhausted);
        }
        Ok(())
    }

    // Counts a frame by its verdict.
    fn count(&mut self, verdict: Result<(), Fault>)
        requires { self.old.judged < most_frames }
        ensures { state_of self.new ≡ with_box (state_of self.old) (counted (box_of self.old) (verdict_number_of verdict)) }
    {
        let i = usize::from(verdict_number(verdict));
        self.tally[i] += 1;
        self.judged += 1;
    }

    // Judges a frame, and keeps it if it is to be accepted.
    fn accept<P: Policy>(&mut self, policy: &P, port: Port, bytes: &[u8]) -> Result<(), Fault>
        ensures answer { result ≡ verdict_of (judge_of (setting_of self.old) (box_of self.old) port.0 bytes.now) }
        ensures next { state_of self.new ≡ with_box (state_of self.old) (placed (P.closing policy.now) (setting_of self.old) (box_of self.old) port.0 (judge_of (setting_of self.old) (box_of self.old) port.0 bytes.now)) }
    {
        let sample = self.judge(port, bytes)?;
        self.place(policy, port, sample);
        Ok(())
    }

    // Takes one frame for a port: judges it, keeps it if it is accepted, and counts it.
    pub fn admit<P: Policy>(&mut self, policy: &P, port: Port, bytes: &[u8]) -> Result<(), Fault>
        ensures answer { result ≡ admit_said (state_of self.old) port.0 bytes.now }
        ensures next { state_of self.new ≡ admitted (P.closing policy.now) (state_of self.old) port.0 bytes.now }
    {
        self.check()?;
        self.check_count()?;
        let verdict = self.accept(policy, port, bytes);
        self.count(verdict);
        verdict
    }
}
