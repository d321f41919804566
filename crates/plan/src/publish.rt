ghost use Rattle.common.specs.Readings.{last_reading};
ghost use Rattle.std.specs.Prelude.{◌≡◌, ◌+◌, ◌≤◌, length};
ghost use Rattle.fields.specs.Fields.{over, left_by};
ghost use Rattle.plan.specs.Laws.{ReadsBack};
ghost use Rattle.plan.specs.Publish.{published_frame, published_length, publishes};
ghost use Rattle.plan.specs.Views.{plan_of};

use crate::plan::{BEHIND_PARTS, PARTS_AT, Plan};
use common::{Fault, LAST_READING};
use wire::{FrameType, HEADER_LEN, Header, TimeTag, Version, seal};

// The time base of the combined stream: microseconds.
const TIME_BASE: u32 = 1_000_000;

impl Plan {
    // The length of the combined configuration.
    pub(crate) fn published_len(&self) -> usize
        ensures length { result ≡ published_length (plan_of self.now) }
        ensures parts { result ≡ 24 + self.now.parts }
    {
        PARTS_AT + self.parts + BEHIND_PARTS
    }

    // Writes the frame around the station parts that the buffer holds.
    fn wrap(&self, reading: u64, buffer: &mut [u8])
        requires room { 24 + self.now.parts ≤ length buffer.old }
        requires reading { reading ≤ last_reading }
        ensures { buffer.new ≡ over (published_frame (plan_of self.now) reading buffer.old) buffer.old }
    {
        let size = self.published_len();
        // By `as`, which is itself proved to lose nothing, and is shorter than a proved `unwrap`.
        let header = Header {
            kind: FrameType::Config2,
            version: Version::Y2011,
            size: size as u16,
            id: self.id,
            time: TimeTag {
                soc: (reading / 1_000_000) as u32,
                quality: 0,
                count: (reading % 1_000_000) as u32,
            },
        };
        let stations = self.stations as u16;
        buffer[0..HEADER_LEN].copy_from_slice(&header.to_bytes());
        buffer[HEADER_LEN..18].copy_from_slice(&TIME_BASE.to_be_bytes());
        buffer[18..20].copy_from_slice(&stations.to_be_bytes());
        buffer[size - 4..size - 2].copy_from_slice(&self.rate.to_be_bytes());
        seal(&mut buffer[0..size]);
    }

    // Writes the combined configuration to the front of the buffer that holds the station parts, with
    // `reading` as its time, and answers its length. A refusal leaves the buffer as it was.
    pub fn publish(&self, reading: u64, buffer: &mut [u8]) -> Result<usize, Fault>
        ensures answer { result ≡ publishes (plan_of self.now) reading (length buffer.old) }
        ensures after { buffer.new ≡ left_by result (published_frame (plan_of self.now) reading buffer.old) buffer.old }
        ensures reads_back { ReadsBack }
    {
        let size = self.published_len();
        if buffer.len() < size {
            return Err(Fault::Buffer);
        }
        if reading > LAST_READING {
            return Err(Fault::Reading);
        }
        if self.table.is_empty() {
            return Err(Fault::EmptyPlan);
        }
        self.wrap(reading, buffer);
        Ok(size)
    }
}
