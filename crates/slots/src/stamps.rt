ghost use Rattle.std.specs.Prelude.{◌≡◌, ◌+◌, ◌-◌, ◌*◌, ◌/◌, ◌^◌, ◌<◌, min};
ghost use Rattle.slots.specs.Laws.{FirstSlot, LastSlot, OwnSecond, StampsRise};
ghost use Rattle.slots.specs.Slots.{count_of, first_slot, frames_of, last_slot_at, soc_of, stamp_of};

use crate::rate::Rate;

// The units of a stamp in a second.
const SECOND: u64 = 1_000_000;

impl Rate {
    // The stamp of a slot. One that is too large for the answer's type is answered as the largest.
    pub fn stamp(self, slot: u64) -> u64
        ensures answer { result ≡ min (stamp_of (frames_of self) slot) (2 ^ 64 - 1) }
        ensures whole { slot < 4294967296 * frames_of self → result ≡ stamp_of (frames_of self) slot }
        ensures laws { StampsRise × OwnSecond }
    {
        (slot / self.frames)
            .saturating_mul(SECOND)
            .saturating_add(u64::from(self.slot_count(slot)))
    }

    // The second of a slot. One that is too large for a SOC is answered as the largest.
    pub fn slot_soc(self, slot: u64) -> u32
        ensures answer { result ≡ min (soc_of (frames_of self) slot) (2 ^ 32 - 1) }
        ensures whole { slot < 4294967296 * frames_of self → result ≡ soc_of (frames_of self) slot }
    {
        u32::try_from(slot / self.frames).unwrap_or(u32::MAX)
    }

    // The count of a slot within its second, in millionths.
    pub fn slot_count(self, slot: u64) -> u32
        ensures { result ≡ count_of (frames_of self) slot }
    {
        // By `as`, which is itself proved to lose nothing, and is shorter than a proved `unwrap`.
        (slot % self.frames * SECOND / self.frames) as u32
    }

    // The whole slots in the time, with so many millionths of a slot more: seconds and the rest apart, so that no product is too large.
    fn slots_in(self, time: u64, more: u64) -> u64
        requires { more < 1000000 }
        ensures { result ≡ (time * frames_of self + more) / 1000000 }
    {
        time / SECOND * self.frames + (time % SECOND * self.frames + more) / SECOND
    }

    // The lowest slot whose stamp is not before the reading.
    pub fn first_slot(self, reading: u64) -> u64
        ensures answer { result ≡ first_slot (frames_of self) reading }
        ensures laws { FirstSlot }
    {
        self.slots_in(reading, SECOND - 1)
    }

    // The highest slot whose stamp is not after the reading.
    pub fn last_slot_by(self, reading: u64) -> u64
        ensures answer { result ≡ last_slot_at (frames_of self) reading }
        ensures laws { LastSlot }
    {
        self.slots_in(reading, self.frames - 1)
    }
}
