use crate::answer::Answer;
use crate::call::Call;
use crate::draft::Draft;
use crate::source::Source;
use crate::trouble::Trouble;
use choice::{AnyFeed, AnyPolicy};
use common::Fault;
use plan::Plan;
use runs::Host;
use std::alloc::{AllocError, Global};

// What the calls act on: the plan, and the host of the box once one was opened. It is let go by `close`
// alone, as the host is.
pub struct Session<'a> {
    heap: Global,
    draft: Draft,
    opened: Option<Host<AnyFeed<'a>, AnyPolicy>>,
}

impl<'a> Session<'a> {
    // A session without a plan and without a box.
    pub fn new(heap: Global) -> Result<Session<'a>, AllocError> {
        Ok(Session {
            heap,
            draft: Draft::new(heap)?,
            opened: None,
        })
    }

    // Opens the first box. Out of line, as `open` is: a function pays at its entry for all that it keeps on the
    // stack, and here that is two hosts.
    #[inline(never)]
    fn open_first(
        &mut self,
        plan: &Plan,
        lower: &Plan,
        policy: AnyPolicy,
        source: &'a Source,
        reading: u64,
    ) -> Result<(), Fault> {
        let host = Host::open(plan, source.feed(lower), policy, reading);
        let verdict = host.check();
        if let Some(before) = self.opened.replace(host) {
            before.close();
        }
        verdict
    }

    // Opens a box in place of the one before, where that stands: to move both would cost more than all else.
    #[inline(never)]
    fn open(
        &mut self,
        policy: AnyPolicy,
        source: &'a Source,
        reading: u64,
    ) -> Result<Answer<'static>, Trouble> {
        let plan = self.draft.plan()?;
        let lower = self.draft.lower_plan()?;
        match &mut self.opened {
            Some(host) => {
                host.reopen(&plan, source.feed(&lower), policy, reading);
                host.check()?;
            }
            None => self.open_first(&plan, &lower, policy, source, reading)?,
        }
        Ok(Answer::Done)
    }

    // Makes a call on the box, and answers from its entry. A result stands in a result, as `?` would take the
    // outer one alone.
    fn on_box(&mut self, call: runs::Call) -> Result<Result<Answer<'static>, Trouble>, AllocError> {
        let Some(host) = &mut self.opened else {
            return Ok(Err(Trouble::NoBox));
        };
        let entry = host.make(self.heap, call)?;
        Ok(Answer::of(entry).map_err(Trouble::Refused))
    }

    // Makes a call. Without memory for it, nothing is answered.
    pub fn perform(&mut self, call: &'a Call) -> Result<Result<Answer<'_>, Trouble>, AllocError> {
        Ok(match call {
            Call::Plan { id, rate } => Ok(self.draft.begin(*id, *rate)),
            Call::Lower => self.draft.put_aside(),
            Call::Add { frame, room } => self.draft.add(frame.as_slice(), *room),
            Call::Publish { reading, room } => self.draft.publish(*reading, *room),
            Call::Find { id } => self.draft.find(*id),
            Call::Open {
                policy,
                source,
                reading,
            } => self.open(*policy, source, *reading),
            Call::Admit { port, frame } => self.on_box(runs::Call::Admit {
                port: *port,
                frame: frame.as_slice(),
            })?,
            Call::OnBox(call) => self.on_box(*call)?,
        })
    }

    // Ends the session: a ticket that is still out is spent.
    pub fn close(self) {
        let Session {
            heap: _,
            draft: _,
            opened,
        } = self;
        if let Some(host) = opened {
            host.close();
        }
    }
}
