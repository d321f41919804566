// Frames that are cut short or too long, and sealed again.
use crate::build::{BARE, Builder, RATE, station};
use crate::checks::{TAKEN, check_answer};
use common::IdCode;
use fields::put_u16;
use plan::Plan;
use std::alloc::{AllocError, Global};
use std::test::Fail;
use wire::seal;

// A frame of `n` bytes, made from one with two parts of 50 bytes.
fn cut_or_padded(heap: Global, n: usize) -> Result<Vec<u8>, AllocError> {
    let mut frame = Builder::new(heap, 7, 2)?;
    frame.part(station(1, 0, (1, 0, 0)))?;
    frame.part(station(2, 0, (1, 0, 0)))?;
    frame.resize(n.saturating_sub(4))?;
    frame.end()
}

#[test]
fn every_length_but_one_is_refused(rt: HostRuntime) -> Result<(), Fail> {
    let heap = rt.alloc();
    let mut buffer = vec![in heap; 0; 200]?;
    for n in 4..160 {
        let frame = cut_or_padded(heap, n)?;
        let mut plan = Plan::begin(IdCode(1), RATE);
        let answer = plan.add(frame.as_slice(), buffer.as_mut_slice());
        let expected = match n {
            124 => TAKEN,
            0..=15 => (1, None),
            // the parts end at 70 and 120, with 4 bytes behind
            16..=73 => (9, Some(0)),
            74..=123 => (9, Some(1)),
            _ => (9, Some(2)),
        };
        check_answer(&rt, answer, expected);
    }
    Ok(())
}

// Where the part that begins at 20 ends, a field, its word, the number, and the station.
const PARTS: [(usize, usize, u16, u8, Option<u16>); 11] = [
    (20, 18, 1, 9, Some(0)),
    (20, 18, 0, 11, Some(0)),
    (20, 16, 999, 11, Some(0)),
    (45, 40, 33, 9, Some(0)),
    (46, 40, 33, 11, Some(0)),
    (46, 44, 5, 11, Some(0)),
    (45, 36, 0, 9, Some(0)),
    (46, 36, 0, 6, None),
    (46, 36, 1, 9, Some(0)),
    (49, 36, 1, 9, Some(0)),
    (51, 36, 1, 9, Some(1)),
];

#[test]
fn a_part_is_judged_by_its_first_26_bytes(rt: HostRuntime) -> Result<(), Fail> {
    let heap = rt.alloc();
    for (end, at, word, number, station) in PARTS {
        let mut frame = Builder::new(heap, 7, 1)?;
        frame.part(BARE)?;
        frame.resize(end)?;
        let mut bytes = frame.end()?;
        put_u16(bytes.as_mut_slice(), at, word)?;
        seal(bytes.as_mut_slice());
        let mut plan = Plan::begin(IdCode(1), RATE);
        let answer = plan.add(bytes.as_slice(), &mut [0; 60]);
        check_answer(&rt, answer, (number, station));
    }
    Ok(())
}
