use hex::FromHexError;
use std::alloc::AllocError;
use std::num::{IntErrorKind, ParseIntError, TryFromIntError};
use std::str::Utf8Error;
use thiserror::Error;

// Why a line is no call.
#[derive(Clone, Copy, Debug, Error)]
pub enum Reason {
    #[error("not a call: not UTF-8 text")]
    NoText(#[from] Utf8Error),
    #[error("not a call: no such call")]
    UnknownCall,
    #[error("not a call: no such policy")]
    UnknownPolicy,
    #[error("not a call: no such feed")]
    UnknownFeed,
    #[error("not a call: too few words")]
    TooFewWords,
    #[error("not a call: too many words")]
    TooManyWords,
    #[error("not a call: a number is not decimal")]
    NoNumber,
    #[error("not a call: a number is out of range")]
    OutOfRange,
    #[error("not a call: bytes are not pairs of lowercase hex digits")]
    NoHex,
    #[error("not a call: not sixteen shifts")]
    NoShifts,
    #[error("not a call: no memory for it")]
    NoMemory(#[from(alloc)] AllocError),
}

// These three stand by hand, since `#[from]` gives each error a case of its own: a number out of range
// comes of two errors, and a number or a hex text fails for two reasons.
impl From<TryFromIntError> for Reason {
    fn from(_error: TryFromIntError) -> Reason {
        Reason::OutOfRange
    }
}

impl From<ParseIntError> for Reason {
    fn from(error: ParseIntError) -> Reason {
        match error.kind() {
            IntErrorKind::PosOverflow => Reason::OutOfRange,
            _ => Reason::NoNumber,
        }
    }
}

impl From<FromHexError> for Reason {
    fn from(error: FromHexError) -> Reason {
        match error {
            FromHexError::OutOfMemory => Reason::NoMemory(AllocError),
            _ => Reason::NoHex,
        }
    }
}
