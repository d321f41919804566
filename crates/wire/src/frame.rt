ghost use Rattle.wire.specs.Frames.{answered, answered_behind, body_seen, checks, classified, config_body_of, data_body_of, seen};
ghost use Rattle.std.specs.Prelude.{◌≡◌, ◌≤◌, IfOk, Ok, length};
ghost use Rattle.wire.specs.Headers.{header_of};

use crate::header::{HEADER_LEN, Header};
use crate::kind::FrameType;
use common::Fault;
use crc::check_word;

// A sound frame, told apart by its type. The body is borrowed from the frame's own bytes.
#[derive(Clone, Copy, PartialEq, Eq, Hash, Debug)]
pub enum Frame<'a> {
    Data(&'a [u8]),
    Config2(&'a [u8]),
    Other(&'a [u8]),
}

// Whether the last two bytes hold the check word of those before.
fn is_checked(bytes: &[u8]) -> bool
    requires { 16 ≤ length bytes.now }
    ensures { result ≡ checks bytes.now }
{
    bytes.split_last_chunk().is_some_and(|(rest, check)| {
        check_word(rest) == u16::from_be_bytes(*check)
    })
}

impl<'a> Frame<'a> {
    // Tells a frame apart after the four checks: long enough, SYNC, FRAMESIZE, check word.
    pub fn read(bytes: &'a [u8]) -> Result<Frame<'a>, Fault>
        ensures { answered result ≡ classified bytes.now }
    {
        let (_, frame) = Frame::read_headed(bytes)?;
        Ok(frame)
    }

    // The same, with the frame's header. Inlined, so that what a caller takes of both need not be put
    // together first.
    #[inline(always)]
    pub fn read_headed(bytes: &'a [u8]) -> Result<(Header, Frame<'a>), Fault>
        ensures frame { answered_behind result ≡ classified bytes.now }
        ensures header { IfOk result (λ x. header_of bytes.now ≡ Ok x.0) }
    {
        let header = Header::read(bytes)?;
        if usize::from(header.size) != bytes.len() {
            return Err(Fault::FrameSize);
        }
        if !is_checked(bytes) {
            return Err(Fault::CheckWord);
        }
        let body = &bytes[HEADER_LEN..bytes.len() - 2];
        let frame = match header.kind {
            FrameType::Data => Frame::Data(body),
            FrameType::Config2 => Frame::Config2(body),
            _ => Frame::Other(body),
        };
        Ok((header, frame))
    }

    // The body of a data frame; any other frame is of a type that is not due.
    pub fn data(self) -> Result<&'a [u8], Fault>
        ensures { body_seen result ≡ data_body_of (Ok (seen self.entry)) }
    {
        match self {
            Frame::Data(body) => Ok(body),
            Frame::Config2(_) | Frame::Other(_) => Err(Fault::FrameType),
        }
    }

    // The body of a configuration 2; any other frame is of a type that is not due.
    pub fn config2(self) -> Result<&'a [u8], Fault>
        ensures { body_seen result ≡ config_body_of (Ok (seen self.entry)) }
    {
        match self {
            Frame::Config2(body) => Ok(body),
            Frame::Data(_) | Frame::Other(_) => Err(Fault::FrameType),
        }
    }
}
