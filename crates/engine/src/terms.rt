use common::Fault;
use plan::Plan;
use slots::Rate;

// What an engine is opened with: why it is shut, if it is, its plan, its rate and its first slot.
// No `Result` around what is open: it would stand around every field of `Engine`, and in each proof of it.
#[derive(Clone, Copy)]
pub struct Terms {
    // Why it is shut, if it is. The plan is then the refused one, and the rate 1 and the first slot 0 are fillers:
    // no call reads any of them.
    pub(crate) shut: Option<Fault>,
    pub(crate) plan: Plan,
    pub(crate) rate: Rate,
    pub(crate) first: u64,
}
