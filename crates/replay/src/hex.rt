use anyhow::Context;
use listing::Build;
use std::fmt;

// A frame as one line of a hex dump: the offset of its first byte, and then all its bytes, with a
// space before each, which an encoder of a whole text does not set.
#[derive(Clone, Copy)]
pub struct HexLine<'a>(pub &'a [u8]);

impl fmt::Display for HexLine<'_> {
    fn fmt<W: fmt::Write>(&self, f: &mut fmt::Formatter<W>) -> fmt::Result {
        f.write_str("0000")?;
        for byte in self.0 {
            write!(f, " {byte:02x}")?;
        }
        Ok(())
    }
}

// Prints the combined configuration in full.
pub fn print_combined(rt: &impl Print, build: &Build) -> anyhow::Result<()> {
    // by a `match`: `as_deref` lends the refusal too, which has to be copied in a closure
    match &build.combined {
        Ok(frame) => {
            let hex = HexLine(frame.as_slice());
            println!(rt; "{hex}")?;
            Ok(())
        }
        Err(fault) => Err(*fault).context("refused"),
    }
}
