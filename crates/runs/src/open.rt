ghost use Rattle.concentrator.specs.Wholes.{begins};
ghost use Rattle.engine.specs.Calls.{open_fault, unless_shut};
ghost use Rattle.plan.specs.Views.{plan_of};
ghost use Rattle.runs.specs.Given.{standing};
ghost use Rattle.runs.specs.Standing.{JustOpened};
ghost use Rattle.std.specs.Prelude.{◌≡◌, None, Ok};

use crate::host::Host;
use common::Fault;
use concentrator::Concentrator;
use feed::Feed;
use plan::Plan;
use policy::Policy;

impl<F: Feed, P: Policy> Host<F, P> {
    // A host of a concentrator that is opened new. Against a refusal it is shut, and every call answers that.
    pub fn open(plan: &Plan, feed: F, policy: P, reading: u64) -> Host<F, P>
        ensures shut { (standing result).shut ≡ open_fault (plan_of plan.now) (P.bound policy) reading }
        ensures opens { (standing result).shut ≡ None → JustOpened (plan_of plan.now) (P.closing policy) (P.bound policy) reading (F.meaning feed).waits (standing result) }
    {
        Host {
            concentrator: Concentrator::open(plan, feed, policy, reading),
            ticket: None,
        }
    }

    // Why the concentrator is shut, if it is.
    pub fn check(&self) -> Result<(), Fault>
        ensures { result ≡ unless_shut (standing self.now).shut (Ok tt) }
    {
        self.concentrator.check()
    }
}

impl<F: Feed + Drop, P: Policy + Drop> Host<F, P> {
    // Opens a concentrator in place of the one before, whose ticket is spent if it is out. Where the host stands,
    // since a new one would be moved there.
    pub fn reopen(&mut self, plan: &Plan, feed: F, policy: P, reading: u64)
        ensures shut { (standing self.new).shut ≡ open_fault (plan_of plan.now) (P.bound policy) reading }
        ensures opens { (standing self.new).shut ≡ None → JustOpened (plan_of plan.now) (P.closing policy) (P.bound policy) reading (F.meaning feed).waits (standing self.new) }
    {
        if let Some(ticket) = self.ticket.take() {
            let _ = self.concentrator.write(ticket, &mut []);
        }
        self.concentrator.reopen(plan, feed, policy, reading);
    }

    // Lets the host go: a ticket that is still out is spent, without a frame.
    pub fn close(self) {
        let Host {
            mut concentrator,
            ticket,
        } = self;
        if let Some(ticket) = ticket {
            let _ = concentrator.write(ticket, &mut []);
        }
    }
}
