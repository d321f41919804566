ghost use Rattle.capture.specs.Records.{first_record, frame_split, parts_of, split_of};
ghost use Rattle.std.specs.Prelude.{◌≡◌};

use crate::limits::within_limits;
use common::Port;
use fields::{u8_at, u16_at, u64_at};

// How many bytes of a record stand before its frame.
const RECORD_HEAD: usize = 11;

// A frame, the reading of the clock in microseconds when it came, and the line that it came in by.
#[derive(Clone, Copy)]
pub struct Record<'a> {
    pub reading: u64,
    pub port: Port,
    pub frame: &'a [u8],
}

// The frame of `len` bytes in the record that begins the bytes, and the bytes behind the record.
fn split_frame(bytes: &[u8], len: u16) -> Option<(&[u8], &[u8])>
    ensures { parts_of result ≡ frame_split len bytes.now }
{
    let (_, body) = bytes.split_at_checked(RECORD_HEAD)?;
    body.split_at_checked(usize::from(len))
}

// The record that begins the bytes, if it is sound behind one with the reading `low`, and the bytes behind it.
pub(crate) fn split_first(bytes: &[u8], low: u64) -> Option<(Record<'_>, &[u8])>
    ensures { split_of result ≡ first_record low bytes.now }
{
    let reading = u64_at(bytes, 0)?;
    let port = u8_at(bytes, 8)?;
    let len = u16_at(bytes, 9)?;
    if !within_limits(low, reading, port, len) {
        return None;
    }
    let (frame, behind) = split_frame(bytes, len)?;
    let record = Record {
        reading,
        port: Port(port),
        frame,
    };
    Some((record, behind))
}
