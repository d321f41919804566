ghost use Rattle.shift.specs.Laws.{SoundMoves, UnsoundStays, ZeroLayer, ZeroStays};
ghost use Rattle.shift.specs.Lines.{by_line};
ghost use Rattle.shift.specs.Shifts.{held as held_to};
ghost use Rattle.std.specs.Prelude.{◌≡◌, map, pos, slice_index_or};

use crate::frame::shift;
use common::Port;
use feed::FrameMap;

// The most seconds that a line is shifted by, either way.
const LIMIT: i32 = 60;

// The seconds that the frames of each of the sixteen lines are shifted by.
#[derive(Clone, Copy)]
pub struct Shifts {
    seconds: [i32; 16],
}

// A shift held to the limit.
fn held(seconds: i32) -> i32
    ensures { result ≡ held_to seconds }
{
    seconds.clamp(-LIMIT, LIMIT)
}

impl Shifts {
    // The shifts of the lines 0 to 15, each held to the limit.
    pub fn new(seconds: [i32; 16]) -> Shifts
        ensures value { result.seconds ≡ map held_to seconds }
        ensures moves { SoundMoves }
        ensures unsound { UnsoundStays }
        ensures zero { ZeroStays × ZeroLayer }
    {
        Shifts {
            seconds: seconds.map(held),
        }
    }

    // The shift of a line; a number over 15 has none.
    fn of(&self, port: Port) -> i32
        ensures { result ≡ slice_index_or self.now.seconds port.0 (pos 0) }
    {
        let shift = self.seconds.get(usize::from(port.0));
        shift.copied().unwrap_or(0)
    }
}

impl FrameMap for Shifts {
    ghost map = { λ s. by_line s.seconds };

    fn apply(&self, port: Port, frame: &mut [u8]) {
        shift(frame, self.of(port));
    }
}
