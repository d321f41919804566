ghost use Rattle.std.specs.Prelude.{◌≡◌, true, []};
ghost use Rattle.capture.specs.Records.{entry_of};
ghost use Rattle.feed.specs.Calls.{next_buffer, next_left, next_said, short, tick_left, tick_said};
ghost use Rattle.feed.specs.Feeds.{Next};
ghost use Rattle.recorded.specs.Queues.{first, step};
ghost use Rattle.recorded.specs.Recordings.{meaning_of, queue_of, sound_of};
ghost use Rattle.std.specs.Option.{option_map};

use crate::recorded::Recorded;
use capture::Record;
use common::Fault;
use feed::{Feed, Taken, check_room};

impl<'a> Recorded<'a> {
    // Takes the first record that waits.
    fn take_first(&mut self) -> Option<Record<'a>>
        ensures answer { option_map entry_of result ≡ first (queue_of self.old).waiting }
        ensures left { queue_of self.new ≡ step (queue_of self.old) Next }
        ensures sound { sound_of self.new ≡ sound_of self.old }
    {
        let mut records = self.records?;
        let record = records.next_record()?;
        if self.latest < Some(record.reading) {
            return None;
        }
        self.records = Some(records);
        Some(record)
    }
}

// No call changes whether the capture is sound: `check` answers it at any time, and so each call says that
// it stays. A method with a clause of its own repeats those of its trait.
impl<'a> Feed for Recorded<'a> {
    ghost meaning = { λ s. meaning_of s };

    fn tick(&mut self, reading: u64, scratch: &mut [u8]) -> Result<(), Fault>
        ensures answer { result ≡ tick_said scratch.old }
        ensures left { (meaning_of self.new).waits ≡ tick_left (meaning_of self.old).waits reading scratch.old }
        ensures refused { short scratch.old ≡ true → scratch.new ≡ scratch.old }
        ensures sound { sound_of self.new ≡ sound_of self.old }
    {
        check_room(scratch)?;
        self.latest = self.latest.max(Some(reading));
        Ok(())
    }

    fn next(&mut self, buffer: &mut [u8]) -> Result<Taken, Fault>
        ensures answer { result ≡ next_said ((meaning_of self.old).waits []) buffer.old }
        ensures frame { buffer.new ≡ next_buffer ((meaning_of self.old).waits []) buffer.old }
        ensures left { (meaning_of self.new).waits ≡ next_left (meaning_of self.old).waits buffer.old }
        ensures sound { sound_of self.new ≡ sound_of self.old }
    {
        check_room(buffer)?;
        let record = self.take_first().ok_or(Fault::NothingWaits)?;
        let len = record.frame.len();
        buffer[..len].copy_from_slice(record.frame);
        Ok(Taken {
            port: record.port,
            len,
        })
    }
}
