ghost use Rattle.wire.specs.Headers.{header_bytes, header_of, timed};
ghost use Rattle.wire.specs.Laws.{HeaderAgain};
ghost use Rattle.std.specs.Prelude.{◌≡◌};

use crate::kind::{FrameType, Version, read_sync, sync_bytes};
use crate::write::OVERHEAD;
use common::{Fault, IdCode};
use fields::{u8_at, u16_at, u24_at, u32_at};

// Bytes of a header.
pub const HEADER_LEN: usize = 14;

// When a frame was sampled: seconds since 1970 UTC, the time quality byte, and the 24-bit count of
// the sender's time base.
#[derive(Clone, Copy, PartialEq, Eq, Hash, Debug)]
pub struct TimeTag {
    pub soc: u32,
    pub quality: u8,
    pub count: u32,
}

// What the 14 bytes say that begin every frame.
#[derive(Clone, Copy, PartialEq, Eq, Hash, Debug)]
pub struct Header {
    pub kind: FrameType,
    pub version: Version,
    pub size: u16,
    pub id: IdCode,
    pub time: TimeTag,
}

impl Header {
    // The header of a frame that has the least length and a SYNC word of a known type and version.
    pub fn read(bytes: &[u8]) -> Result<Header, Fault>
        ensures { result ≡ header_of bytes.now }
    {
        if bytes.len() < OVERHEAD {
            return Err(Fault::Short);
        }
        let (kind, version) = read_sync(bytes[0], bytes[1])?;
        let size = u16_at(bytes, 2).ok_or(Fault::Short)?;
        let id = u16_at(bytes, 4).ok_or(Fault::Short)?;
        let time = TimeTag::read(bytes)?;
        Ok(Header {
            kind,
            version,
            size,
            id: IdCode(id),
            time,
        })
    }

    // The 14 bytes of the header. Of the count its low 24 bits are written.
    pub fn to_bytes(&self) -> [u8; HEADER_LEN]
        ensures value { result ≡ header_bytes self.now }
        ensures header_again { HeaderAgain }
    {
        let [mark, sync] = sync_bytes(self.kind, self.version);
        let [z1, z0] = self.size.to_be_bytes();
        let [i1, i0] = self.id.0.to_be_bytes();
        let [s3, s2, s1, s0] = self.time.soc.to_be_bytes();
        let [_, c2, c1, c0] = self.time.count.to_be_bytes();
        [
            mark,
            sync,
            z1,
            z0,
            i1,
            i0,
            s3,
            s2,
            s1,
            s0,
            self.time.quality,
            c2,
            c1,
            c0,
        ]
    }
}

impl TimeTag {
    // SOC and FRACSEC, where they stand in a frame.
    fn read(bytes: &[u8]) -> Result<TimeTag, Fault>
        ensures { result ≡ timed bytes.now }
    {
        let soc = u32_at(bytes, 6).ok_or(Fault::Short)?;
        let quality = u8_at(bytes, 10).ok_or(Fault::Short)?;
        let count = u24_at(bytes, 11).ok_or(Fault::Short)?;
        Ok(TimeTag {
            soc,
            quality,
            count,
        })
    }
}
