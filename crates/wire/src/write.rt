ghost use Rattle.fields.specs.Fields.{left_by};
ghost use Rattle.wire.specs.Frames.{frame_bytes, header_for, resealed, write_frame_said};
ghost use Rattle.wire.specs.Laws.{ToldAgain};
ghost use Rattle.std.specs.Prelude.{◌≡◌, length};

use crate::header::{HEADER_LEN, Header, TimeTag};
use crate::kind::{FrameType, Version};
use common::{Fault, IdCode};
use crc::check_word;

// Bytes of a frame besides its body.
pub const OVERHEAD: usize = 16;

// Makes the last two bytes of a frame the check word of those before; fewer than two stay as they are.
pub fn seal(frame: &mut [u8])
    ensures { frame.new ≡ resealed frame.old }
{
    if let Some((rest, check)) = frame.split_last_chunk_mut() {
        *check = check_word(rest).to_be_bytes();
    }
}

// Writes a whole frame to the front of `out` and answers its length. A body too long for FRAMESIZE
// and a buffer too short for the frame are refused, and `out` stays as it was.
pub fn write_frame(
    out: &mut [u8],
    kind: FrameType,
    id: IdCode,
    time: TimeTag,
    body: &[u8],
) -> Result<usize, Fault>
    ensures answer { result ≡ write_frame_said out.old body.now }
    ensures after { out.new ≡ left_by result (frame_bytes (header_for kind id time (length body.now)) body.now) out.old }
    ensures told_again { ToldAgain }
{
    let end = OVERHEAD + body.len();
    let size = u16::try_from(end).map_err(|_| Fault::FrameSize)?;
    if out.len() < end {
        return Err(Fault::Buffer);
    }
    let header = Header {
        kind,
        version: Version::Y2011,
        size,
        id,
        time,
    };
    out[..HEADER_LEN].copy_from_slice(&header.to_bytes());
    out[HEADER_LEN..end - 2].copy_from_slice(body);
    seal(&mut out[..end]);
    Ok(end)
}
