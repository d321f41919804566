ghost use Rattle.concentrator.specs.Wholes.{begins, whole};
ghost use Rattle.engine.specs.Calls.{open_fault, unless_shut};
ghost use Rattle.plan.specs.Views.{plan_of};
ghost use Rattle.stacked.specs.Laws.{DrainsAll, PullsByCall, SilentIfShut, TicksByCall};
ghost use Rattle.std.specs.Prelude.{◌≡◌, ◌%◌, ◌≤◌, None, Ok, ⊤};

use common::{Fault, Port};
use concentrator::Concentrator;
use feed::Feed;
use plan::Plan;
use policy::Policy;
use std::alloc::AllocError;

// A concentrator that stands under another, and is called through its feed's calls alone: so no ticket
// is out. Its frames come by one line.
// No model: its value would hold what the feed below means and when slots close, and functions have no code.
#[derive(Copy, Drop)]
pub struct Stacked<F: Feed, P: Policy> {
    pub(crate) concentrator: Concentrator<F, P>,
    pub(crate) port: Port,
    ghost free: { (whole concentrator).shut ≡ None → (whole concentrator).box.out ≡ None },
    ghost line: { port.0 ≤ 15 },
}

// Written out, since a generic type with ghost fields cannot derive it.
impl<F: Feed + Copy, P: Policy + Copy> Clone for Stacked<F, P> {
    ghost is_clone = { λ stacked copy. copy ≡ stacked };

    ghost is_infallible = { λ _. ⊤ };

    fn clone(&self) -> Result<Self, AllocError> {
        Ok(*self)
    }
}

impl<F: Feed, P: Policy> Stacked<F, P> {
    // Opens a concentrator whose frames come by a line, as that of a port modulo 16. Against a refusal
    // it is shut, and nothing ever waits.
    // Not of any concentrator: of one that others call too, a ticket may be out.
    pub fn open(port: Port, plan: &Plan, feed: F, policy: P, reading: u64) -> Stacked<F, P>
        ensures port { result.port.0 ≡ port.0 % 16 }
        ensures shut { (whole result.concentrator).shut ≡ open_fault (plan_of plan.now) (P.bound policy) reading }
        ensures opens { (whole result.concentrator).shut ≡ None → whole result.concentrator ≡ begins (plan_of plan.now) reading (P.closing policy) (F.meaning feed).waits }
        ensures laws { SilentIfShut × PullsByCall × TicksByCall × DrainsAll }
    {
        Stacked {
            concentrator: Concentrator::open(plan, feed, policy, reading),
            port: Port(port.0 % 16),
        }
    }

    // Why the concentrator is shut, if it is.
    pub fn check(&self) -> Result<(), Fault>
        ensures { result ≡ unless_shut (whole self.now.concentrator).shut (Ok tt) }
    {
        self.concentrator.check()
    }
}
