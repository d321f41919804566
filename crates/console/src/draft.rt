use crate::answer::Answer;
use crate::front::front;
use crate::trouble::Trouble;
use common::IdCode;
use plan::Plan;
use std::alloc::{AllocError, Global};

// The length of the configuration buffer, and what it is filled with.
const ROOM: usize = 66_000;

const FILLER: u8 = 0xEE;

// The plan, once there is one, the one that was put aside for lower boxes, and the configuration buffer.
#[derive(Drop)]
pub struct Draft {
    plan: Option<Plan>,
    lower: Option<Plan>,
    buffer: Vec<u8>,
}

impl Draft {
    // No plan yet, and a buffer of filler.
    pub fn new(heap: Global) -> Result<Draft, AllocError> {
        Ok(Draft {
            plan: None,
            lower: None,
            buffer: vec![in heap; FILLER; ROOM]?,
        })
    }

    // The plan, once one was begun.
    pub fn plan(&self) -> Result<Plan, Trouble> {
        self.plan.ok_or(Trouble::NoPlan)
    }

    // The plan of lower boxes: the current one until one is put aside.
    pub fn lower_plan(&self) -> Result<Plan, Trouble> {
        self.lower.or(self.plan).ok_or(Trouble::NoPlan)
    }

    // Puts a copy of the plan aside, as that of lower boxes.
    pub fn put_aside(&mut self) -> Result<Answer<'static>, Trouble> {
        self.lower = Some(self.plan()?);
        Ok(Answer::Done)
    }

    // Begins a new plan, with the buffer renewed.
    pub fn begin(&mut self, id: IdCode, rate: u16) -> Answer<'static> {
        self.plan = Some(Plan::begin(id, rate));
        self.buffer.as_mut_slice().fill(FILLER);
        Answer::Done
    }

    // Adds a port to the plan, with that much of the buffer.
    pub fn add(&mut self, frame: &[u8], room: usize) -> Result<Answer<'static>, Trouble> {
        let plan = self.plan.as_mut().ok_or(Trouble::NoPlan)?;
        let port = plan.add(frame, front(self.buffer.as_mut_slice(), room))?;
        Ok(Answer::Added(port))
    }

    // Publishes the plan in that much of the buffer.
    pub fn publish(&mut self, reading: u64, room: usize) -> Result<Answer<'_>, Trouble> {
        let plan = self.plan()?;
        let buffer = front(self.buffer.as_mut_slice(), room);
        let len = plan.publish(reading, buffer)?;
        Ok(Answer::Published(front(buffer, len)))
    }

    // Looks a station up in the plan.
    pub fn find(&self, id: IdCode) -> Result<Answer<'static>, Trouble> {
        Ok(Answer::Found(self.plan()?.find(id)))
    }
}
