use capture::Record;
use std::alloc::{AllocError, Global};

// The bytes of a capture with these records. The library has no heap, and so no writer of captures; that of
// `fixtures` is for tests, and for captures that are not sound.
pub fn capture_bytes(heap: Global, records: &[Record]) -> Result<Vec<u8>, AllocError> {
    let mut bytes = Vec::from_slice(heap, b"PHC\x00\x01")?;
    for record in records {
        let [.., high, low] = record.frame.len().to_be_bytes();
        bytes.extend_from_slice(&record.reading.to_be_bytes())?;
        bytes.push(record.port.0)?;
        bytes.extend_from_slice(&[high, low])?;
        bytes.extend_from_slice(record.frame)?;
    }
    Ok(bytes)
}
