ghost use Rattle.listing.specs.Lines.{first_config as first_config_of, first_rate as rate_of, is_config2, is_used as used, rate_in as rate_of_frame};
ghost use Rattle.std.specs.Prelude.{◌≡◌};
ghost use Rattle.wire.specs.Frames.{classified};

use capture::Record;
use common::Port;
use fields::u16_at;
use wire::Frame;

// How many lines a capture can have.
pub(crate) const LINES: u8 = 16;

// Whether a frame is a sound configuration 2.
fn is_config(frame: &[u8]) -> bool
    ensures { result ≡ is_config2 (classified frame.now) }
{
    matches!(Frame::read(frame), Ok(Frame::Config2(_)))
}

// The first configuration that came by a line.
pub(crate) fn first_config<'a>(records: &[Record<'a>], line: Port) -> Option<Record<'a>>
    ensures { result ≡ first_config_of records.now line.0 }
{
    records
        .iter()
        .find(|record| record.port == line && is_config(record.frame))
        .copied()
}

// Whether any record came by a line.
pub(crate) fn is_used(records: &[Record], line: Port) -> bool
    ensures { result ≡ used records.now line.0 }
{
    records.iter().any(|record| record.port == line)
}

// DATA_RATE, the last field of a configuration.
fn rate_in(frame: &[u8]) -> Option<u16>
    ensures { result ≡ rate_of_frame frame.now }
{
    u16_at(frame, frame.len().saturating_sub(4))
}

// The rate of the first configuration of the lowest line that has one.
pub(crate) fn first_rate(records: &[Record]) -> Option<u16>
    ensures { result ≡ rate_of records.now }
{
    // a loop: the proof of a `find_map` over the lines did not find which line each of its calls was made with
    let mut lowest = None;
    for line in 0..LINES {
        lowest = lowest.or(first_config(records, Port(line)));
    }
    rate_in(lowest?.frame)
}
