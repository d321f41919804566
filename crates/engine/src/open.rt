ghost use Rattle.std.specs.Prelude.{◌≡◌, ◌≤◌, Some, None};
ghost use Rattle.engine.specs.Calls.{open_fault};
ghost use Rattle.engine.specs.Opens.{opens_by};
ghost use Rattle.common.specs.Readings.{last_reading};
ghost use Rattle.engine.specs.Limits.{slot_limit};
ghost use Rattle.engine.specs.States.{begins};
ghost use Rattle.engine.specs.Views.{fresh, state_of};
ghost use Rattle.plan.specs.Views.{plan_of};
ghost use Rattle.slots.specs.Slots.{frames_of};

use crate::admit::VERDICTS;
use crate::closing::EARLIEST;
use crate::engine::Engine;
use crate::ring::SLOTS;
use crate::terms::Terms;
use cells::Cell;
use common::{Fault, LAST_READING};
use plan::Plan;
use policy::Policy;
use slots::Rate;

// The rate at which a plan may be opened, under a wait of at most the bound.
fn opening_rate(plan: &Plan, bound: u64, reading: u64) -> Result<Rate, Fault>
    ensures { opens_by result (plan_of plan.now) reading (open_fault (plan_of plan.now) bound reading) }
{
    if reading > LAST_READING {
        return Err(Fault::Reading);
    }
    if plan.ports().is_empty() {
        return Err(Fault::EmptyPlan);
    }
    let rate = Rate::new(plan.rate()).ok_or(Fault::EmptyPlan)?;
    if !rate.fits_window(bound) {
        return Err(Fault::WaitTooLong);
    }
    Ok(rate)
}

impl Terms {
    // Those of an engine that is shut.
    fn refused(plan: &Plan, fault: Fault) -> Terms
        ensures shut_value { result.shut ≡ Some fault }
        ensures first_value { result.first ≡ 0 }
    {
        Terms {
            shut: Some(fault),
            plan: *plan,
            rate: Rate::new(1).unwrap(),
            first: 0,
        }
    }
}

impl Engine {
    // An engine that holds nothing yet.
    fn begin(terms: Terms, reading: u64) -> Engine
        requires time { reading ≤ last_reading }
        requires near { terms.first ≤ slot_limit (frames_of terms.rate) }
        ensures { state_of result ≡ fresh terms reading }
    {
        let first = terms.first;
        let reach = terms.rate.last_slot_by(reading + EARLIEST);
        Engine {
            terms,
            latest: reading,
            reach,
            front: first,
            written: 0,
            ticket_out: false,
            judged: 0,
            tally: [0; VERDICTS],
            ring: [Cell::empty(); SLOTS],
        }
    }

    // An engine of the plan under the policy, from the reading on; against a refusal it is shut.
    pub fn open<P: Policy>(plan: &Plan, policy: &P, reading: u64) -> Engine
        ensures shut { (state_of result).shut ≡ open_fault (plan_of plan.now) (P.bound policy.now) reading }
        ensures opens { (state_of result).shut ≡ None → state_of result ≡ begins (P.closing policy.now) plan.now reading }
    {
        match opening_rate(plan, policy.longest_wait(), reading) {
            Err(fault) => Engine::begin(Terms::refused(plan, fault), 0),
            Ok(rate) => {
                let terms = Terms {
                    shut: None,
                    plan: *plan,
                    rate,
                    first: rate.first_slot(reading),
                };
                let mut engine = Engine::begin(terms, reading);
                engine.settle(policy);
                engine
            }
        }
    }
}
