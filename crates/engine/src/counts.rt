ghost use Rattle.std.specs.Prelude.{◌≡◌, length, sum};

use crate::admit::VERDICTS;
use common::Fault;

// What a frame can be refused with, by rising number.
pub const REFUSALS: [Fault; 14] = [
    Fault::Short,
    Fault::Sync,
    Fault::FrameSize,
    Fault::CheckWord,
    Fault::FrameType,
    Fault::IdCode,
    Fault::Count,
    Fault::NoSlot,
    Fault::Length,
    Fault::TooEarly,
    Fault::Port,
    Fault::Closed,
    Fault::Repeated,
    Fault::TooFarAhead,
];

// How many slots were written so far, how many frames were judged, and how many of these were given
// each number, 0 for those accepted.
// An array, since no call may allocate.
#[derive(Clone, Copy)]
pub struct Counts {
    pub written: u64,
    pub judged: u64,
    pub(crate) given: [u64; VERDICTS],
    ghost numbers: { length given ≡ 31 },
    ghost counted: { sum given ≡ judged },
}
