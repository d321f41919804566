use crate::build::{RATE, line};
use common::{Fault, IdCode};
use config::Station;
use plan::Plan;
use std::alloc::{AllocError, Global};
use std::process::Abort;
use std::test::Fail;

// A plan with the code 0102h, and its buffer, which is filled with 55h.
#[derive(Drop)]
pub(crate) struct Bench {
    heap: Global,
    pub(crate) plan: Plan,
    pub(crate) buffer: Vec<u8>,
}

impl Bench {
    pub(crate) fn new(heap: Global, room: usize) -> Result<Bench, AllocError> {
        let plan = Plan::begin(IdCode(0x0102), RATE);
        let buffer = vec![in heap; 0x55; room]?;
        Ok(Bench { heap, plan, buffer })
    }

    // Adds a frame, and checks what comes of it: the number of its port, or that of a refusal, which changes no
    // byte, and 100 more. As a `Result` the tables would give other values.
    pub(crate) fn check_frame(
        &mut self,
        rt: &impl Abort,
        frame: &[u8],
        outcome: u8,
    ) -> Result<(), Fail> {
        let before = self.buffer.clone()?;
        match self.plan.add(frame, self.buffer.as_mut_slice()) {
            Ok(port) => assert_eq!(rt; port.0, outcome),
            Err(fault) => {
                assert_eq!(rt; fault.number().saturating_add(100), outcome);
                assert!(rt; self.buffer.as_slice() == before.as_slice());
            }
        }
        Ok(())
    }

    // The same for the sound frame of a sender and its stations.
    pub(crate) fn check_add(
        &mut self,
        rt: &impl Abort,
        id: u16,
        stations: &[Station],
        outcome: u8,
    ) -> Result<(), Fail> {
        let frame = line(self.heap, id, stations)?;
        self.check_frame(rt, frame.as_slice(), outcome)
    }

    pub(crate) fn publish(&mut self, reading: u64) -> Result<usize, Fault> {
        self.plan.publish(reading, self.buffer.as_mut_slice())
    }

    // Publishes at this reading, and checks the length of the configuration.
    pub(crate) fn check_publish(
        &mut self,
        rt: &impl Abort,
        reading: u64,
        len: usize,
    ) -> Result<(), Fail> {
        assert_eq!(rt; self.publish(reading)?, len);
        Ok(())
    }

    // Cuts the buffer, or makes it longer.
    pub(crate) fn resize(&mut self, room: usize) -> Result<(), AllocError> {
        self.buffer.resize(room, 0x55)
    }
}
