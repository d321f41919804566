// The sum over the bytes so far, by the 64-bit rule of Fowler, Noll and Vo (FNV-1a).
#[derive(Clone, Copy)]
pub struct Sum(pub u64);

impl Sum {
    // The sum over no bytes.
    pub const NONE: Sum = Sum(0xcbf29ce484222325);

    // The sum with a byte more.
    pub fn with(self, byte: u8) -> Sum {
        Sum((self.0 ^ u64::from(byte)).wrapping_mul(0x100000001b3))
    }

    // The sum with so many bytes more.
    pub fn with_all(self, bytes: &[u8]) -> Sum {
        bytes.iter().fold(self, |sum, byte| sum.with(*byte))
    }
}
