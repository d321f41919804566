ghost use Rattle.fields.specs.Fields.{bytes16, bytes32, put_said, written};
ghost use Rattle.std.specs.Prelude.{◌≡◌};

use common::Fault;

// Copies `bs` to the place from `at` on; a buffer that is too short stays as it was.
pub fn put_bytes(out: &mut [u8], at: usize, bs: &[u8]) -> Result<(), Fault>
    ensures answer { result ≡ put_said out.old at bs.now }
    ensures after { out.new ≡ written out.old at bs.now }
{
    match at.checked_add(bs.len()) {
        Some(end) if end <= out.len() => {
            out[at..end].copy_from_slice(bs);
            Ok(())
        }
        _ => Err(Fault::Buffer),
    }
}

// Writes a number to the two bytes from `at` on.
pub fn put_u16(out: &mut [u8], at: usize, word: u16) -> Result<(), Fault>
    ensures answer { result ≡ put_said out.old at (bytes16 word) }
    ensures after { out.new ≡ written out.old at (bytes16 word) }
{
    put_bytes(out, at, &word.to_be_bytes())
}

// Writes a number to the four bytes from `at` on. One generic form of both would need a trait of its own.
pub fn put_u32(out: &mut [u8], at: usize, long: u32) -> Result<(), Fault>
    ensures answer { result ≡ put_said out.old at (bytes32 long) }
    ensures after { out.new ≡ written out.old at (bytes32 long) }
{
    put_bytes(out, at, &long.to_be_bytes())
}
