// Fields at the ends of the bytes, and past them.
use fields::{put_bytes, put_u16, put_u32, u8_at, u16_at, u24_at, u32_at, u64_at};
use std::test::Fail;

const BYTES: [u8; 8] = [0x01, 0x23, 0x45, 0x67, 0x89, 0xab, 0xcd, 0xef];

#[test]
fn the_last_field_that_fits(rt: HostRuntime) {
    assert_eq!(rt; u8_at(&BYTES, 7), Some(0xef));
    assert_eq!(rt; u16_at(&BYTES, 6), Some(0xcdef));
    assert_eq!(rt; u24_at(&BYTES, 5), Some(0xab_cdef));
    assert_eq!(rt; u32_at(&BYTES, 4), Some(0x89ab_cdef));
    assert_eq!(rt; u64_at(&BYTES, 0), Some(0x0123_4567_89ab_cdef));
}

#[test]
fn the_first_that_does_not(rt: HostRuntime) {
    assert_eq!(rt; u8_at(&BYTES, 8), None);
    assert_eq!(rt; u16_at(&BYTES, 7), None);
    assert_eq!(rt; u24_at(&BYTES, 6), None);
    assert_eq!(rt; u32_at(&BYTES, 5), None);
    assert_eq!(rt; u64_at(&BYTES, 1), None);
}

#[test]
fn places_far_past_the_end(rt: HostRuntime) {
    assert_eq!(rt; u8_at(&BYTES, usize::MAX), None);
    assert_eq!(rt; u16_at(&BYTES, usize::MAX), None);
    assert_eq!(rt; u64_at(&BYTES, usize::MAX - 7), None);
}

#[test]
fn writes_at_the_end_and_past_it(rt: HostRuntime) -> Result<(), Fail> {
    let mut out = [0; 6];
    put_u32(&mut out, 2, 0x0102_0304)?;
    put_u16(&mut out, 0, 0xfffe)?;
    assert!(rt; out == [0xff, 0xfe, 1, 2, 3, 4]);
    assert!(rt; put_u16(&mut out, 5, 0).is_err());
    assert!(rt; put_u32(&mut out, usize::MAX, 0).is_err());
    assert!(rt; put_bytes(&mut out, 7, b"").is_err());
    put_bytes(&mut out, 6, b"")?;
    assert!(rt; out == [0xff, 0xfe, 1, 2, 3, 4]);
    Ok(())
}
