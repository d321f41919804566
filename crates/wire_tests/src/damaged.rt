// Frames with one thing wrong, and the refusal that each gets.
use common::Fault;
use fixtures::{DATA, from_hex, number};
use hex::FromHexError;
use std::alloc::Global;
use std::test::Fail;
use wire::{Frame, seal};

// The number that the bytes are refused with, 0 if they are told apart.
fn verdict(bytes: &[u8]) -> u8 {
    number(Frame::read(bytes))
}

// The standard's data frame with the byte at `at` made `byte`, and the old check word.
fn changed(heap: Global, at: usize, byte: u8) -> Result<Vec<u8>, FromHexError> {
    let mut bytes = from_hex(heap, DATA)?;
    if let Some(place) = bytes.get_mut(at) {
        *place = byte;
    }
    Ok(bytes)
}

// The verdict on such a frame.
fn unsealed(heap: Global, at: usize, byte: u8) -> Result<u8, FromHexError> {
    Ok(verdict(changed(heap, at, byte)?.as_slice()))
}

// The verdict on such a frame, with a check word that fits it again.
fn resealed(heap: Global, at: usize, byte: u8) -> Result<u8, FromHexError> {
    let mut bytes = changed(heap, at, byte)?;
    seal(bytes.as_mut_slice());
    Ok(verdict(bytes.as_slice()))
}

#[test]
fn too_short(rt: HostRuntime) -> Result<(), Fail> {
    let bytes = from_hex(rt.alloc(), DATA)?;
    // with 16 bytes the next check decides
    for (len, number) in [(0, 1), (1, 1), (15, 1), (16, 3)] {
        assert_eq!(rt; bytes.get(..len).map(verdict), Some(number));
    }
    // too short comes before SYNC
    assert_eq!(rt; verdict(&[0; 15]), 1);
    assert_eq!(rt; verdict(&[0; 16]), 2);
    Ok(())
}

#[test]
fn sync(rt: HostRuntime) -> Result<(), Fail> {
    let heap = rt.alloc();
    // the place, the byte there, and the number
    let cases = [
        (0, 0xab, 2),
        (0, 0x2a, 2),
        (0, 0x00, 2),
        // versions 0, 3 and 15
        (1, 0x00, 2),
        (1, 0x03, 2),
        (1, 0x0f, 2),
        // types 6 and 7, and bit 7
        (1, 0x61, 2),
        (1, 0x72, 2),
        (1, 0x81, 2),
        // each type, in either version
        (1, 0x01, 0),
        (1, 0x02, 0),
        (1, 0x11, 0),
        (1, 0x21, 0),
        (1, 0x31, 0),
        (1, 0x32, 0),
        (1, 0x41, 0),
        (1, 0x52, 0),
    ];
    for (at, byte, number) in cases {
        assert_eq!(rt; resealed(heap, at, byte)?, number);
    }
    // SYNC comes before FRAMESIZE and the check word
    assert_eq!(rt; unsealed(heap, 0, 0)?, 2);
    Ok(())
}

#[test]
fn frame_size(rt: HostRuntime) -> Result<(), Fail> {
    let heap = rt.alloc();
    for (at, byte, number) in [(3, 51, 3), (3, 53, 3), (2, 1, 3), (3, 52, 0)] {
        assert_eq!(rt; resealed(heap, at, byte)?, number);
    }
    // FRAMESIZE comes before the check word
    assert_eq!(rt; unsealed(heap, 3, 51)?, 3);
    Ok(())
}

#[test]
fn one_byte_more_or_fewer(rt: HostRuntime) -> Result<(), Fail> {
    let mut bytes = from_hex(rt.alloc(), DATA)?;
    assert!(rt; bytes.len() == 52);
    assert_eq!(rt; verdict(&bytes.as_slice()[0..51]), 3);
    bytes.push(0)?;
    assert_eq!(rt; verdict(bytes.as_slice()), 3);
    Ok(())
}

#[test]
fn check_word(rt: HostRuntime) -> Result<(), Fail> {
    let heap = rt.alloc();
    // the type, the ID code, the count, the body's ends, and the check word's two bytes
    for (at, byte) in [
        (1, 0x02),
        (4, 0x1f),
        (13, 0xb0),
        (14, 0x80),
        (49, 0x13),
        (50, 0xd5),
        (51, 0x3e),
    ] {
        assert_eq!(rt; unsealed(heap, at, byte)?, 4);
    }
    Ok(())
}

#[test]
fn refusals_are_told_in_words(rt: HostRuntime) -> Result<(), Fail> {
    let heap = rt.alloc();
    let plain = format!(in heap; "{}", Fault::CheckWord)?;
    assert!(rt; plain.as_str() == "4 the check word does not match");
    let station = Fault::StationLimit { station: 3 };
    assert_eq!(rt; station.number(), 11);
    assert_eq!(rt; station.station(), Some(3));
    let text = format!(in heap; "{station}")?;
    assert!(rt; text.as_str() == "11 the configuration passes a limit (station 3)");
    assert_eq!(rt; Fault::Length.number(), 9);
    assert_eq!(rt; Fault::Length.station(), None);
    Ok(())
}
