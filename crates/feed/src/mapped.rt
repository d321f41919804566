ghost use Rattle.feed.specs.Maps.{Map, through};
ghost use Rattle.std.specs.Prelude.{◌≡◌};

use crate::feed::{Feed, Taken};
use common::{Fault, Port};

// A change that is made to every frame by itself, and that keeps its line and its length.
pub trait FrameMap {
    ghost map: { Self → Map };

    fn apply(&self, port: Port, frame: &mut [u8])
        ensures { frame.new ≡ (map self.now).on port.0 frame.old };
}

// What waits at a feed, with each frame changed.
#[derive(Clone, Copy, Drop)]
pub struct Mapped<F, M> {
    pub feed: F,
    pub map: M,
}

impl<F: Feed, M: FrameMap> Feed for Mapped<F, M> {
    ghost meaning = { λ s. through (M.FrameMap.map s.map) (F.Feed.meaning s.feed) };

    fn tick(&mut self, reading: u64, scratch: &mut [u8]) -> Result<(), Fault> {
        self.feed.tick(reading, scratch)
    }

    fn next(&mut self, buffer: &mut [u8]) -> Result<Taken, Fault> {
        let taken = self.feed.next(buffer)?;
        self.map.apply(taken.port, &mut buffer[..taken.len]);
        Ok(taken)
    }
}
