use crate::reason::Reason;
use std::alloc::Global;
use std::fmt;

// The bytes that a word of lowercase hex digits gives, two a byte; `-` gives none.
pub fn bytes_of(heap: Global, word: &str) -> Result<Vec<u8>, Reason> {
    if word == "-" {
        return Ok(Vec::new(heap));
    }
    if word.is_empty() || word.bytes().any(|digit| digit.is_ascii_uppercase()) {
        return Err(Reason::NoHex);
    }
    Ok(hex::decode(heap, word)?)
}

// Bytes, shown as such a word. `hex::encode` needs the heap, which `fmt` is not lent.
#[derive(Clone, Copy)]
pub struct Hex<'a>(pub &'a [u8]);

impl fmt::Display for Hex<'_> {
    fn fmt<W: fmt::Write>(&self, f: &mut fmt::Formatter<W>) -> fmt::Result {
        if self.0.is_empty() {
            return f.write_str("-");
        }
        for byte in self.0 {
            write!(f, "{byte:02x}")?;
        }
        Ok(())
    }
}
