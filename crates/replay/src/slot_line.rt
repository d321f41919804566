use crate::whose::Whose;
use crate::written::WrittenSlot;
use common::Fault;
use fields::u16_at;
use listing::{Seconds, Utc, judge};
use std::fmt;
use wire::TimeTag;

// A written slot as it is printed.
#[derive(Clone, Copy)]
pub struct SlotLine {
    pub slot: u64,
    time: TimeTag,
    reading: u64,
    len: usize,
    check: u16,
    pub whose: Whose,
}

// The stamp of a combined frame in microseconds: its count is in millionths of a second.
fn stamp_of(time: TimeTag) -> u64 {
    u64::from(time.soc) * 1_000_000 + u64::from(time.count)
}

impl SlotLine {
    // Reads the written frame like any other.
    pub fn read(written: WrittenSlot, whose: Whose) -> Result<SlotLine, Fault> {
        let header = judge(written.frame)?;
        let len = written.frame.len();
        let check = u16_at(written.frame, len.saturating_sub(2)).ok_or(Fault::Short)?;
        Ok(SlotLine {
            slot: written.slot,
            time: header.time,
            reading: written.reading,
            len,
            check,
            whose,
        })
    }

    // How long after its stamp the slot was written, in microseconds: less than 0 if it was written before.
    fn after_stamp(&self) -> i128 {
        i128::from(self.reading) - i128::from(stamp_of(self.time))
    }
}

impl fmt::Display for SlotLine {
    fn fmt<W: fmt::Write>(&self, f: &mut fmt::Formatter<W>) -> fmt::Result {
        let slot = self.slot;
        let time = Utc(self.time.soc);
        let micros = self.time.count;
        let written = Seconds(self.reading);
        let after = self.after_stamp();
        let quality = self.time.quality;
        let len = self.len;
        let check = self.check;
        let whose = self.whose;
        write!(
            f,
            "{slot:>12}  {time}.{micros:06}  {written}  {after:>+10}      {quality:02x}h  {len:>5}  {check:04x}h  {whose}"
        )
    }
}
