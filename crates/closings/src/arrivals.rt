ghost use Rattle.closings.specs.Arrivals.{FirstKept, first_in};
ghost use Rattle.std.specs.Prelude.{◌≡◌, ℕ, IfOk, None, OnErr, OnOk, unwrap_or};

use std::alloc::{AllocError, Global};
use std::collections::BTreeMap;

// The reading at which the first frame of each slot came.
#[derive(Drop)]
pub struct Arrivals {
    by_slot: BTreeMap<u64, u64>,
}

impl Arrivals {
    // Of no frames yet.
    pub fn new(heap: Global) -> Arrivals
        ensures { (slot : ℕ) → first_in result slot ≡ None }
    {
        Arrivals {
            by_slot: BTreeMap::new(heap),
        }
    }

    // Takes a frame that came for a slot, and answers when the first one came. Without memory nothing
    // is taken.
    pub fn take(&mut self, slot: u64, reading: u64) -> Result<u64, AllocError>
        ensures first { IfOk result (λ first. first ≡ unwrap_or (first_in self.old slot) reading) }
        ensures kept { OnOk result (FirstKept self.old self.new slot reading) }
        ensures err { OnErr result ((other : ℕ) → first_in self.new other ≡ first_in self.old other) }
    {
        Ok(*self.by_slot.entry(slot)?.or_insert(reading))
    }
}
