ghost use Rattle.feed.specs.Joined.{both};
ghost use Rattle.feed.specs.Sides.{BothWait};
ghost use Rattle.std.specs.Prelude.{◌≡◌};

use crate::feed::{Feed, Taken};
use common::Fault;

// What waits at the first feed, then what waits at the second.
#[derive(Clone, Copy, Drop)]
pub struct Joined<A, B> {
    pub first: A,
    pub second: B,
}

impl<A, B> Joined<A, B> {
    // The two feeds as one. Each part has every tick, and the first is taken from before the second.
    pub fn new(first: A, second: B) -> Joined<A, B>
        ensures first { result.first ≡ first }
        ensures second { result.second ≡ second }
        ensures law { BothWait }
    {
        Joined { first, second }
    }
}

impl<A: Feed, B: Feed> Feed for Joined<A, B> {
    ghost meaning = { λ s. both (A.Feed.meaning s.first) (B.Feed.meaning s.second) };

    fn tick(&mut self, reading: u64, scratch: &mut [u8]) -> Result<(), Fault> {
        self.first.tick(reading, scratch)?;
        self.second.tick(reading, scratch)
    }

    fn next(&mut self, buffer: &mut [u8]) -> Result<Taken, Fault> {
        match self.first.next(buffer) {
            Err(Fault::NothingWaits) => self.second.next(buffer),
            answer => answer,
        }
    }
}
