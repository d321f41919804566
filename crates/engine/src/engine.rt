ghost use Rattle.std.specs.Prelude.{◌≡◌, ◌+◌, ◌≤◌, cond, length, sum};
ghost use Rattle.common.specs.Readings.{last_reading};
ghost use Rattle.engine.specs.Limits.{earliest, most_frames, slot_limit, window};
ghost use Rattle.slots.specs.Slots.{frames_of, last_slot_at};

use crate::admit::VERDICTS;
use crate::ring::SLOTS;
use crate::terms::Terms;
use cells::Cell;

// The state of a concentrator besides its feed and its policy: the latest reading, the last slot that a
// frame may have by then, the lowest open slot, the number of slots written, whether a ticket is out,
// how many frames were judged and given each number, and the cells of the 32 slots from the oldest
// unwritten one on. A ticket that is out needs no number of its own: it is of the oldest unwritten slot.
// No model: its value would be the state of `specs/States.antt`, which holds functions, and these have no code.
#[derive(Clone, Copy)]
pub struct Engine {
    pub(crate) terms: Terms,
    pub(crate) latest: u64,
    // Kept, since each frame is held against it, and only a tick moves it.
    pub(crate) reach: u64,
    pub(crate) front: u64,
    pub(crate) written: u64,
    pub(crate) ticket_out: bool,
    pub(crate) judged: u64,
    // Arrays, since no call may allocate.
    pub(crate) tally: [u64; VERDICTS],
    pub(crate) ring: [Cell; SLOTS],
    ghost time: { latest ≤ last_reading },
    ghost reached: { reach ≡ last_slot_at (frames_of terms.rate) (latest + earliest) },
    ghost order: { terms.first + written + cond ticket_out 1 0 ≤ front },
    ghost near: { front ≤ slot_limit (frames_of terms.rate) },
    ghost numbers: { length tally ≡ 31 },
    ghost counted: { sum tally ≡ judged },
    ghost few: { judged ≤ most_frames },
    ghost cells: { length ring ≡ window },
}
