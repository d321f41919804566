ghost use Rattle.concentrator.specs.Wholes.{begins, whole};
ghost use Rattle.engine.specs.Calls.{open_fault, unless_shut};
ghost use Rattle.plan.specs.Views.{plan_of};
ghost use Rattle.std.specs.Prelude.{◌≡◌, None, Ok};

use crate::concentrator::Concentrator;
use common::Fault;
use engine::Engine;
use feed::Feed;
use plan::Plan;
use policy::Policy;

impl<F: Feed, P: Policy> Concentrator<F, P> {
    // Opens a concentrator; against a refusal it is shut, and every call answers that refusal.
    // Four arguments, which hosts hand on: a struct of them would be put together for one call.
    pub fn open(plan: &Plan, feed: F, policy: P, reading: u64) -> Concentrator<F, P>
        ensures shut { (whole result).shut ≡ open_fault (plan_of plan.now) (P.bound policy) reading }
        ensures opens { (whole result).shut ≡ None → whole result ≡ begins (plan_of plan.now) reading (P.closing policy) (F.meaning feed).waits }
    {
        // the engine first, so that it is opened where it stands
        Concentrator {
            engine: Engine::open(plan, &policy, reading),
            feed,
            policy,
        }
    }

    // Why the concentrator is shut, if it is.
    pub fn check(&self) -> Result<(), Fault>
        ensures { result ≡ unless_shut (whole self.now).shut (Ok tt) }
    {
        self.engine.check()
    }
}

impl<F: Feed + Drop, P: Policy + Drop> Concentrator<F, P> {
    // Opens it anew, over another feed and policy, where it stands: a new one would be moved there.
    pub fn reopen(&mut self, plan: &Plan, feed: F, policy: P, reading: u64)
        ensures shut { (whole self.new).shut ≡ open_fault (plan_of plan.now) (P.bound policy) reading }
        ensures opens { (whole self.new).shut ≡ None → whole self.new ≡ begins (plan_of plan.now) reading (P.closing policy) (F.meaning feed).waits }
    {
        self.engine = Engine::open(plan, &policy, reading);
        self.feed = feed;
        self.policy = policy;
    }
}
