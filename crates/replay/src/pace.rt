use choice::Simple;
use concentrator::LONGEST_STEP;
use listing::Waits;

// The least step for a pile, in microseconds.
const LEAST_STEP: u64 = 1_000;

// When slots close, and how the clock goes.
#[derive(Clone, Copy)]
pub struct Pace {
    pub policy: Simple,
    // the reading at which the concentrator is opened
    pub first: u64,
    // the longest step from a reading to the next
    pub step: u64,
}

impl Pace {
    // That of one concentrator.
    pub fn single(waits: Waits, first: u64) -> Pace {
        Pace {
            policy: waits.policy(),
            first,
            step: LONGEST_STEP,
        }
    }

    // That of a box above others that wait so long. At a tick it closes slots before it asks the lower
    // ones: with the same wait it would close each slot at the very tick at which the lower ones do, so
    // it waits twice as long. And no step is longer than a lower wait, so that between the two closings
    // there is a tick at which it asks.
    pub fn upper(waits: Waits, first: u64) -> Pace {
        Pace {
            policy: waits.doubled().policy(),
            first,
            step: waits.shortest().max(LEAST_STEP),
        }
    }
}
