use crate::count::count_records;
use capture::Capture;
use fixtures::Recording;
use std::alloc::{AllocError, Global};
use std::test::Fail;

// Stated here again, as a test gives its own values.
const LAST: u64 = 4_000_000_000_000_000;

// The number of records. A refusal's number and 100 more: as a `Result` the tables would give other values.
fn outcome(bytes: &[u8]) -> usize {
    match Capture::open(bytes) {
        Ok(capture) => count_records(capture),
        Err(fault) => usize::from(fault.number()) + 100,
    }
}

fn one_record(heap: Global, reading: u64, port: u8, len: usize) -> Result<usize, AllocError> {
    let frame = vec![in heap; 0xaa; len]?;
    let mut capture = Recording::new(heap)?;
    capture.record(reading, port, frame.as_slice())?;
    Ok(outcome(capture.bytes()))
}

#[test]
fn marks_and_versions(rt: HostRuntime) {
    assert_eq!(rt; outcome(b"PHC\x00\x01"), 0);
    for bytes in [
        b"PHD\x00\x01",
        b"phc\x00\x01",
        b"XHC\x00\x01",
        b"PHC\x00\x02",
        b"PHC\x00\x00",
        b"PHC\x01\x01",
    ] {
        assert_eq!(rt; outcome(bytes), 113);
    }
    assert_eq!(rt; outcome(b""), 113);
    assert_eq!(rt; outcome(b"PHC\x00"), 113);
}

#[test]
fn one_record_at_its_limits(rt: HostRuntime) -> Result<(), Fail> {
    let heap = rt.alloc();
    // reading, port, length, outcome
    let cases = [
        (0, 0, 1, 1),
        (LAST, 15, 1_040, 1),
        (LAST + 1, 0, 1, 113),
        (u64::MAX, 0, 1, 113),
        (0, 16, 1, 113),
        (0, 255, 1, 113),
        (0, 0, 0, 113),
        (0, 0, 1_041, 113),
    ];
    for (reading, port, len, expected) in cases {
        assert_eq!(rt; one_record(heap, reading, port, len)?, expected);
    }
    Ok(())
}

#[test]
fn a_cut_anywhere_is_unsound(rt: HostRuntime) -> Result<(), Fail> {
    let mut capture = Recording::new(rt.alloc())?;
    capture.record(7, 1, &[0x11; 3])?;
    capture.record(7, 2, &[0x22; 2])?;
    let bytes = capture.bytes();
    // 5 bytes of header, then records of 14 and 13 bytes
    assert_eq!(rt; bytes.len(), 32);
    for end in 0..bytes.len() {
        let expected = match end {
            5 => 0,
            19 => 1,
            _ => 113,
        };
        assert_eq!(rt; outcome(&bytes[0..end]), expected);
    }
    assert_eq!(rt; outcome(bytes), 2);
    Ok(())
}
