ghost use Rattle.replay.specs.Wires.{port_at, wired};
ghost use Rattle.std.specs.Prelude.{◌≡◌};

use common::{Fault, Port};
use feed::{Feed, Taken};
use listing::Outcome;

// The highest number that a line or a port can have.
const HIGHEST: u8 = 15;

// The port that a line is led to: the one that it fills, and else the highest number, which is then no
// port of the plan, so that the line's frames are refused. `Taken` has a port and no Option, so a line
// that fills none needs a number of no port.
fn port_of(lines: &[Outcome], line: Port) -> Port
    ensures { result.0 ≡ port_at lines.now line.0 }
{
    match lines.get(usize::from(line.0)) {
        Some(Outcome::Filled(port)) => Port(port.0.min(HIGHEST)),
        _ => Port(HIGHEST),
    }
}

// What waits at a feed, with each frame at the port that its line is led to. A plan numbers its
// ports 0, 1, 2 .. in the order in which they are filled, and a capture numbers its lines as it
// likes: without this, frames could be judged for the port of another sender. A `FrameMap` of the
// feeds keeps each frame's line, so this layer stands beside `Mapped`.
#[derive(Clone, Copy, Drop)]
pub struct Wired<'a, F> {
    pub feed: F,
    pub lines: &'a [Outcome],
}

impl<'a, F: Feed> Feed for Wired<'a, F> {
    ghost meaning = { λ s. wired s.lines.now (F.Feed.meaning s.feed) };

    fn tick(&mut self, reading: u64, scratch: &mut [u8]) -> Result<(), Fault> {
        self.feed.tick(reading, scratch)
    }

    fn next(&mut self, buffer: &mut [u8]) -> Result<Taken, Fault> {
        let taken = self.feed.next(buffer)?;
        Ok(Taken {
            port: port_of(self.lines, taken.port),
            len: taken.len,
        })
    }
}
