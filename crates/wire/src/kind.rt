ghost use Rattle.wire.specs.Kinds.{TellsType, TellsVersion, name_of, sync as sync_of, synced};
ghost use Rattle.std.specs.Fmt.{styled_text};
ghost use Rattle.std.specs.Prelude.{◌≡◌, Some};

use common::Fault;
use std::fmt;

// The six types of frame that the standard has, by their codes.
#[derive(Clone, Copy, PartialEq, Eq, Hash, Debug)]
pub enum FrameType {
    Data = 0,
    Header = 1,
    Config1 = 2,
    Config2 = 3,
    Command = 4,
    Config3 = 5,
}

// The edition of the standard that a frame follows, by its version number.
#[derive(Clone, Copy, PartialEq, Eq, Hash, PartialOrd, Ord, Debug)]
pub enum Version {
    Y2005 = 1,
    Y2011 = 2,
}

// The first byte of every frame.
const MARK: u8 = 0xaa;

impl TryFrom<u8> for FrameType {
    type Error = Fault;

    ghost try_from_gives = { TellsType };

    fn try_from(code: u8) -> Result<FrameType, Fault> {
        match code {
            0 => Ok(FrameType::Data),
            1 => Ok(FrameType::Header),
            2 => Ok(FrameType::Config1),
            3 => Ok(FrameType::Config2),
            4 => Ok(FrameType::Command),
            5 => Ok(FrameType::Config3),
            _ => Err(Fault::Sync),
        }
    }
}

impl TryFrom<u8> for Version {
    type Error = Fault;

    ghost try_from_gives = { TellsVersion };

    fn try_from(code: u8) -> Result<Version, Fault> {
        match code {
            1 => Ok(Version::Y2005),
            2 => Ok(Version::Y2011),
            _ => Err(Fault::Sync),
        }
    }
}

// The standard's names, padded as text is.
impl fmt::Display for FrameType {
    ghost output = { λ kind. Some (name_of kind) };

    ghost styled_output = { λ kind style. Some (styled_text style (name_of kind)) };

    fn fmt<W: fmt::Write>(&self, f: &mut fmt::Formatter<W>) -> fmt::Result {
        f.pad(match self {
            FrameType::Data => "data",
            FrameType::Header => "header",
            FrameType::Config1 => "configuration 1",
            FrameType::Config2 => "configuration 2",
            FrameType::Command => "command",
            FrameType::Config3 => "configuration 3",
        })
    }
}

// The type and version that the two bytes of a SYNC word tell.
pub(crate) fn read_sync(first: u8, second: u8) -> Result<(FrameType, Version), Fault>
    ensures { result ≡ sync_of first second }
{
    if first != MARK {
        return Err(Fault::Sync);
    }
    let kind = FrameType::try_from(second / 16)?;
    let version = Version::try_from(second % 16)?;
    Ok((kind, version))
}

// The two bytes of the SYNC word of a type and version.
pub(crate) fn sync_bytes(kind: FrameType, version: Version) -> [u8; 2]
    ensures { result ≡ synced kind version }
{
    [MARK, kind as u8 * 16 + version as u8]
}
