use crate::count::count_records;
use capture::Capture;
use common::Port;
use fixtures::Recording;
use std::test::Fail;

#[test]
fn equal_readings_are_sound_and_falling_ones_not(rt: HostRuntime) -> Result<(), Fail> {
    let mut capture = Recording::new(rt.alloc())?;
    capture.record(1_000, 3, &[0xaa])?;
    capture.record(1_000, 0, &[0xbb])?;
    capture.record(1_001, 3, &[0xcc])?;
    assert!(rt; Capture::open(capture.bytes()).is_ok());
    capture.record(1_000, 3, &[0xdd])?;
    assert!(rt; Capture::open(capture.bytes()).is_err());
    Ok(())
}

#[test]
fn one_bad_record_at_the_end_spoils_all(rt: HostRuntime) -> Result<(), Fail> {
    let mut capture = Recording::new(rt.alloc())?;
    capture.record(5, 0, &[0xaa])?;
    capture.head(6, 0, 1)?;
    assert!(rt; Capture::open(capture.bytes()).is_err());
    Ok(())
}

#[test]
fn records_come_in_their_order(rt: HostRuntime) -> Result<(), Fail> {
    let mut built = Recording::new(rt.alloc())?;
    built.record(10, 4, &[0xa0; 2])?;
    built.record(10, 5, &[0xa1])?;
    built.record(12, 4, &[0xa2; 3])?;
    let mut capture = Capture::open(built.bytes())?;
    // reading, port, length, and the byte that fills the frame
    for (reading, port, len, fill) in [(10, 4, 2, 0xa0), (10, 5, 1, 0xa1), (12, 4, 3, 0xa2)] {
        let record = capture.next_record().ok_or("a record is missing")?;
        assert_eq!(rt; record.reading, reading);
        assert_eq!(rt; record.port, Port(port));
        assert_eq!(rt; record.frame.len(), len);
        assert!(rt; record.frame.iter().all(|byte| *byte == fill));
    }
    // the end is lasting
    assert!(rt; capture.next_record().is_none());
    assert!(rt; capture.next_record().is_none());
    Ok(())
}

#[test]
fn a_copy_goes_on_by_itself(rt: HostRuntime) -> Result<(), Fail> {
    let mut built = Recording::new(rt.alloc())?;
    built.record(1, 0, &[0xaa])?;
    built.record(2, 0, &[0xbb])?;
    let mut capture = Capture::open(built.bytes())?;
    let ahead = capture;
    assert!(rt; capture.next_record().is_some());
    assert_eq!(rt; count_records(capture), 1);
    assert_eq!(rt; count_records(ahead), 2);
    Ok(())
}
