use fixtures::Recording;
use std::alloc::{AllocError, Global};

// A command frame of 18 bytes with a given SOC. The check word is given too, as worked out elsewhere.
pub(crate) fn command(soc: u32, check_word: u16) -> [u8; 18] {
    frame(0x42, soc, check_word)
}

// The same for any second byte of SYNC.
pub(crate) fn frame(sync: u8, soc: u32, check_word: u16) -> [u8; 18] {
    let [s3, s2, s1, s0] = soc.to_be_bytes();
    let [high, low] = check_word.to_be_bytes();
    [
        0xaa, sync, 0, 18, 0x1e, 0x36, s3, s2, s1, s0, 0x0f, 0, 0x41, 0xb1, 0, 2, high, low,
    ]
}

// A capture of frames of one byte: the reading, the port and the byte of each.
pub(crate) fn recording(heap: Global, records: &[(u64, u8, u8)]) -> Result<Recording, AllocError> {
    let mut built = Recording::new(heap)?;
    for (reading, port, byte) in records {
        built.record(*reading, *port, &[*byte])?;
    }
    Ok(built)
}
