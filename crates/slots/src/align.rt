ghost use Rattle.slots.specs.Laws.{BelongsAligns, AlignedBelongs, OwnTime, UniquePlace, WorkedSlots};
ghost use Rattle.slots.specs.Slots.{frames_of, nearest as nearest_of, place_of, slot_due, slot_of};
ghost use Rattle.std.specs.Prelude.{◌≡◌};

use crate::rate::Rate;
use common::Fault;

// The multiple of the time base that is less than `frames` away, by its number. The last step is an
// `if`, as `then` with a closure says no more.
fn nearest(scaled: u64, time_base: u64, frames: u64) -> Option<u64>
    ensures { result ≡ nearest_of scaled time_base frames }
{
    let below = scaled.checked_div(time_base)?;
    let past = scaled % time_base;
    if past < frames {
        Some(below)
    } else if time_base - past < frames {
        Some(below + 1)
    } else {
        None
    }
}

impl Rate {
    // The place among the slots of its second of a frame with the count.
    fn place(self, time_base: u32, count: u32) -> Option<u64>
        ensures { result ≡ place_of (frames_of self) time_base count }
    {
        let scaled = u64::from(count) * self.frames;
        nearest(scaled, u64::from(time_base), self.frames).filter(|k| *k < self.frames)
    }

    // The slot of a frame with the SOC and the count, from a sender with the time base; none if the count is of no slot.
    // Three numbers, as this crate does without `wire`, whose time tags have the SOC and the count.
    pub fn slot_of(self, time_base: u32, soc: u32, count: u32) -> Option<u64>
        ensures answer { result ≡ slot_of (frames_of self) time_base soc count }
        ensures laws { AlignedBelongs × BelongsAligns × UniquePlace }
        ensures own { OwnTime × WorkedSlots }
    {
        let k = self.place(time_base, count)?;
        Some(u64::from(soc) * self.frames + k)
    }

    // The slot of such a frame, or why it has none: its count is not below the time base, or of no slot.
    pub fn slot_due(self, time_base: u32, soc: u32, count: u32) -> Result<u64, Fault>
        ensures { result ≡ slot_due (frames_of self) time_base soc count }
    {
        if count >= time_base {
            return Err(Fault::Count);
        }
        self.slot_of(time_base, soc, count).ok_or(Fault::NoSlot)
    }
}
