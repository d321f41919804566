// Frames that a plan refuses, and the order of its checks.
use crate::bench::Bench;
use crate::build::{BARE, RATE, line, station};
use crate::checks::{Answer, TAKEN, check_answer};
use common::IdCode;
use fields::put_u16;
use plan::Plan;
use std::alloc::{AllocError, Global};
use std::process::Abort;
use std::test::Fail;
use wire::seal;

// A frame of 234 bytes, with three parts of 70 bytes at 20, 90 and 160, and DATA_RATE at 230.
fn three_stations(heap: Global) -> Result<Vec<u8>, AllocError> {
    let stations = [
        station(1, 0, (1, 1, 0)),
        station(2, 0, (1, 1, 0)),
        station(3, 0, (1, 1, 0)),
    ];
    line(heap, 7, &stations)
}

// The place of a field, its word, and the number and the station of the refusal.
type Change = (usize, u16, u8, Option<u16>);

// Writes a field's word into a frame, seals it, and checks the answer to it.
fn check_change(
    rt: &impl Abort,
    plan: &mut Plan,
    frame: &mut [u8],
    buffer: &mut [u8],
    change: Change,
) -> Result<(), Fail> {
    let (at, word, number, station) = change;
    put_u16(frame, at, word)?;
    seal(frame);
    check_answer(rt, plan.add(frame, buffer), (number, station));
    Ok(())
}

// Code, rate, and number; those in range go on to the first check of the frame.
const CODES_AND_RATES: [(u16, u16, u8); 8] = [
    (0, 30, 6),
    (65_535, 30, 6),
    (0, 0, 6),
    (1, 0, 12),
    (1, 121, 12),
    (65_534, 65_535, 12),
    (1, 1, 1),
    (65_534, 120, 1),
];

#[test]
fn own_code_and_rate_come_first(rt: HostRuntime) -> Result<(), Fail> {
    for (id, rate, number) in CODES_AND_RATES {
        let mut plan = Plan::begin(IdCode(id), rate);
        check_answer(&rt, plan.add(&[], &mut []), (number, None));
    }
    let mut frame = line(rt.alloc(), 7, &[BARE])?;
    for rate in [1, 120] {
        put_u16(frame.as_mut_slice(), 50, rate)?;
        seal(frame.as_mut_slice());
        let mut plan = Plan::begin(IdCode(65_534), rate);
        check_answer(&rt, plan.add(frame.as_slice(), &mut [0; 54]), TAKEN);
    }
    Ok(())
}

// Faults in SYNC, FRAMESIZE, IDCODE, TIME_BASE, NUM_PMU, fields of each station, and DATA_RATE.
const FAULTS: [(usize, u16); 13] = [
    (0, 0xab02),
    (2, 233),
    (4, 0),
    (16, 999),
    (18, 0),
    (36, 0),
    (40, 33),
    (42, 17),
    (44, 5),
    (106, 65_535),
    (110, 33),
    (184, 5),
    (230, 31),
];

// The field that is put right each time, and the fault that is next.
const REPAIRS: [Change; 14] = [
    (0, 0xaa02, 5, None),
    (0, 0xaa32, 6, None),
    (4, 7, 11, Some(0)),
    (16, 1_000, 11, Some(0)),
    (18, 3, 11, Some(0)),
    (40, 1, 11, Some(0)),
    (42, 1, 11, Some(0)),
    (44, 0, 6, None),
    (36, 1, 11, Some(1)),
    (110, 1, 6, None),
    (106, 2, 11, Some(2)),
    // four digital words are allowed, and make the part too long
    (184, 4, 9, Some(2)),
    (184, 0, 12, None),
    (230, 30, 17, None),
];

#[test]
fn one_fault_after_another(rt: HostRuntime) -> Result<(), Fail> {
    let heap = rt.alloc();
    let mut frame = three_stations(heap)?;
    let mut plan = Plan::begin(IdCode(1), RATE);
    let mut buffer = vec![in heap; 0x55; 233]?;
    for (at, word) in FAULTS {
        put_u16(frame.as_mut_slice(), at, word)?;
    }
    // the check word is the old one
    for (at, word, number) in [(0, 0xab02, 2), (0, 0xaa02, 3), (2, 234, 4)] {
        put_u16(frame.as_mut_slice(), at, word)?;
        let answer = plan.add(frame.as_slice(), buffer.as_mut_slice());
        check_answer(&rt, answer, (number, None));
    }
    for change in REPAIRS {
        let room = buffer.as_mut_slice();
        check_change(&rt, &mut plan, frame.as_mut_slice(), room, change)?;
    }
    buffer.push(0)?;
    let answer = plan.add(frame.as_slice(), buffer.as_mut_slice());
    check_answer(&rt, answer, TAKEN);
    Ok(())
}

// Faults of one word each.
const ONE_WORD: [Change; 26] = [
    (0, 0x0032, 2, None),
    (0, 0xaa33, 2, None),
    (2, 235, 3, None),
    // a data frame, and configurations 1 and 3
    (0, 0xaa02, 5, None),
    (0, 0xaa22, 5, None),
    (0, 0xaa52, 5, None),
    (4, 0, 6, None),
    (4, 65_535, 6, None),
    (18, 0, 11, Some(0)),
    (18, 9, 11, Some(0)),
    (18, 65_535, 11, Some(0)),
    // one part is left over, and one is missing
    (18, 2, 9, Some(2)),
    (18, 4, 9, Some(3)),
    // codes
    (36, 0, 6, None),
    (106, 65_535, 6, None),
    (176, 0, 6, None),
    // phasors, analogs and digital words
    (40, 33, 11, Some(0)),
    (112, 17, 11, Some(1)),
    (184, 5, 11, Some(2)),
    (180, 65_535, 11, Some(2)),
    // a phasor more and a phasor less in the last part
    (180, 2, 9, Some(2)),
    (180, 0, 9, Some(3)),
    (230, 0, 12, None),
    (230, 29, 12, None),
    (230, 31, 12, None),
    // -30
    (230, 0xffe2, 12, None),
];

#[test]
fn a_refusal_changes_nothing(rt: HostRuntime) -> Result<(), Fail> {
    let heap = rt.alloc();
    let sound = three_stations(heap)?;
    let mut bench = Bench::new(heap, 444)?;
    bench.check_frame(&rt, sound.as_slice(), 0)?;
    let before = bench.buffer.clone()?;
    for change in ONE_WORD {
        let mut frame = three_stations(heap)?;
        let room = bench.buffer.as_mut_slice();
        check_change(&rt, &mut bench.plan, frame.as_mut_slice(), room, change)?;
        assert!(rt; bench.buffer.as_slice() == before.as_slice());
        assert_eq!(rt; bench.plan.ports().len(), 1);
    }
    // the next port is still free
    bench.check_frame(&rt, sound.as_slice(), 1)?;
    bench.check_publish(&rt, 0, 444)?;
    Ok(())
}

// The time base of a plan's only port.
fn time_base(plan: &Plan) -> Option<u32> {
    match plan.ports() {
        [record] => Some(record.time_base),
        _ => None,
    }
}

// The halves of TIME_BASE, the answer, and the time base; the top eight bits do not count.
const TIME_BASES: [(u16, u16, Answer, Option<u32>); 8] = [
    (0, 1_000, TAKEN, Some(1_000)),
    (0xff00, 1_000, TAKEN, Some(1_000)),
    (1, 0, TAKEN, Some(65_536)),
    (0x0f, 0x4240, TAKEN, Some(1_000_000)),
    (0xffff, 0xffff, TAKEN, Some(16_777_215)),
    (0, 999, (11, Some(0)), None),
    (0, 0, (11, Some(0)), None),
    (0xff00, 999, (11, Some(0)), None),
];

#[test]
fn time_bases(rt: HostRuntime) -> Result<(), Fail> {
    let mut frame = line(rt.alloc(), 7, &[BARE])?;
    for (high, low, answer, expected) in TIME_BASES {
        put_u16(frame.as_mut_slice(), 14, high)?;
        put_u16(frame.as_mut_slice(), 16, low)?;
        seal(frame.as_mut_slice());
        let mut plan = Plan::begin(IdCode(1), RATE);
        check_answer(&rt, plan.add(frame.as_slice(), &mut [0; 54]), answer);
        assert_eq!(rt; time_base(&plan), expected);
    }
    Ok(())
}
