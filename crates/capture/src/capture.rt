ghost use Rattle.capture.specs.Captures.{Gives, to_come, told};
ghost use Rattle.capture.specs.Laws.{ReadWasWritten, WrittenReadsBack};
ghost use Rattle.capture.specs.Records.{headless, records_of};
ghost use Rattle.std.specs.Option.{option_map};
ghost use Rattle.std.specs.Prelude.{◌≡◌, [], length};
ghost use Rattle.std.specs.Iterator.{at_most};

use crate::record::{Record, split_first};
use common::Fault;

// What every capture begins with: its mark, and version 1.
const HEADER: [u8; 5] = [b'P', b'H', b'C', 0, 1];

// The bytes behind the header.
fn without_header(bytes: &[u8]) -> Option<&[u8]>
    ensures { option_map (λ x. x.now) result ≡ headless bytes.now }
{
    bytes.strip_prefix(&HEADER)
}

// The records of a sound capture that are still to come.
#[derive(Clone, Copy)]
pub struct Capture<'a> {
    rest: &'a [u8],
}

impl<'a> Capture<'a> {
    // Goes through the records once, and answers the capture at its first record if all are sound.
    pub fn open(bytes: &'a [u8]) -> Result<Capture<'a>, Fault>
        ensures answer { told result ≡ records_of bytes.now }
        ensures laws { WrittenReadsBack × ReadWasWritten }
    {
        let records = without_header(bytes).ok_or(Fault::Unsound)?;
        let mut rest = records;
        let mut low = 0;
        // where a record ends stands in its own bytes, so an iterator would need this loop too
        while !rest.is_empty() {
            let (record, behind) = split_first(rest, low).ok_or(Fault::Unsound)?;
            low = record.reading;
            rest = behind;
        }
        Ok(Capture { rest: records })
    }

    // A capture with no records.
    pub fn none() -> Capture<'a>
        ensures { result.rest.now ≡ [] }
    {
        Capture { rest: &[] }
    }

    // The next record, or none at the end.
    pub fn next_record(&mut self) -> Option<Record<'a>>
        ensures { Gives self.old result self.new }
    {
        let (record, rest) = split_first(self.rest, 0)?;
        self.rest = rest;
        Some(record)
    }
}

// The records one by one, as `next_record` gives them.
impl<'a> Iterator for Capture<'a> {
    type Item = Record<'a>;

    ghost next_gives = { Gives };

    ghost remaining = { λ s. at_most (length (to_come s)) };

    fn next(&mut self) -> Option<Record<'a>> {
        self.next_record()
    }
}
