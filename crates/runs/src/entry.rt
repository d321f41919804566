use common::{Fault, Port};
use concentrator::Counts;

// A frame that was pulled: its line, its bytes, and what became of it. With the bytes, where `Pulled` has
// their number in a lent buffer.
#[derive(Drop)]
pub struct PulledFrame {
    pub port: Port,
    pub frame: Vec<u8>,
    pub verdict: Result<(), Fault>,
}

// A line of a journal: a call with what it answered. A frame that the call left in its buffer stands
// in the answer, in full. Each case has its call's fields: a struct of call and answer could have another
// call's answer.
#[derive(Drop)]
pub enum Entry<'a> {
    Tick {
        reading: u64,
        room: usize,
        answer: Result<(), Fault>,
    },
    Admit {
        port: Port,
        frame: &'a [u8],
        answer: Result<(), Fault>,
    },
    Pull {
        room: usize,
        answer: Result<PulledFrame, Fault>,
    },
    Take {
        answer: Result<u64, Fault>,
    },
    Write {
        ticket: u64,
        room: usize,
        answer: Result<Vec<u8>, Fault>,
    },
    Counts {
        answer: Result<Counts, Fault>,
    },
}
