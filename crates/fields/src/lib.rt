// Big-endian fields of borrowed bytes, read and written at any place.
#![tactic(auto)]

mod read;
mod write;

pub use read::{u8_at, u16_at, u24_at, u32_at, u64_at};
pub use write::{put_bytes, put_u16, put_u32};
