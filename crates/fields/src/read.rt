ghost use Rattle.std.specs.Prelude.{◌≡◌, ◌+◌, ◌≤◌, length, cond, take, drop, Some, None};
ghost use Rattle.fields.specs.Fields.{be8, be16, be24, be32, be64, field, fits};

// The `N` bytes from `at` on, or none where the bytes end before they do.
fn bytes_at<const N: usize>(s: &[u8], at: usize) -> Option<[u8; N]>
    ensures { result ≡ cond (fits s.now at N) (Some (take N (drop at s.now))) None }
{
    s.get(at..)?.first_chunk::<N>().copied()
}

// The byte at `at`, or none where the bytes end before it.
pub fn u8_at(s: &[u8], at: usize) -> Option<u8>
    ensures { result ≡ field s.now at 1 (be8 s.now at) }
{
    s.get(at).copied()
}

// The number in the two bytes from `at` on.
pub fn u16_at(s: &[u8], at: usize) -> Option<u16>
    ensures { result ≡ field s.now at 2 (be16 s.now at) }
{
    bytes_at(s, at).map(u16::from_be_bytes)
}

// The number in the three bytes from `at` on.
pub fn u24_at(s: &[u8], at: usize) -> Option<u32>
    ensures { result ≡ field s.now at 3 (be24 s.now at) }
{
    let [high, middle, low] = bytes_at::<3>(s, at)?;
    Some(u32::from_be_bytes([0, high, middle, low]))
}

// The number in the four bytes from `at` on.
pub fn u32_at(s: &[u8], at: usize) -> Option<u32>
    ensures { result ≡ field s.now at 4 (be32 s.now at) }
{
    bytes_at(s, at).map(u32::from_be_bytes)
}

// The number in the eight bytes from `at` on.
pub fn u64_at(s: &[u8], at: usize) -> Option<u64>
    ensures { result ≡ field s.now at 8 (be64 s.now at) }
{
    bytes_at(s, at).map(u64::from_be_bytes)
}
