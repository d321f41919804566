// The frames that the standard works out, field by field.
use common::IdCode;
use crc::check_word;
use fields::{u16_at, u32_at};
use fixtures::{CONFIG, DATA, from_hex};
use std::test::Fail;
use wire::{Frame, FrameType, Header, TimeTag, Version};

#[test]
fn the_digits_have_their_check_word(rt: HostRuntime) {
    assert_eq!(rt; check_word(b"123456789"), 0x29b1);
    assert_eq!(rt; check_word(b""), 0xffff);
}

#[test]
fn data_header(rt: HostRuntime) -> Result<(), Fail> {
    let bytes = from_hex(rt.alloc(), DATA)?;
    let expected = Header {
        kind: FrameType::Data,
        version: Version::Y2005,
        size: 52,
        id: IdCode(7734),
        time: TimeTag {
            soc: 1_149_580_800,
            quality: 0,
            count: 16_817,
        },
    };
    assert_eq!(rt; Header::read(bytes.as_slice())?, expected);
    Ok(())
}

#[test]
fn data_body(rt: HostRuntime) -> Result<(), Fail> {
    let bytes = from_hex(rt.alloc(), DATA)?;
    let body = Frame::read(bytes.as_slice())?.data()?;
    assert_eq!(rt; body.len(), 36);
    // STAT, the first phasor's real part, and the digital word
    for (at, word) in [(0, 0), (2, 0x392b), (34, 0x3c12)] {
        assert_eq!(rt; u16_at(body, at), Some(word));
    }
    Ok(())
}

#[test]
fn config_header(rt: HostRuntime) -> Result<(), Fail> {
    let bytes = from_hex(rt.alloc(), CONFIG)?;
    let expected = Header {
        kind: FrameType::Config2,
        version: Version::Y2005,
        size: 454,
        id: IdCode(7734),
        time: TimeTag {
            soc: 1_149_577_200,
            quality: 0x56,
            count: 463_000,
        },
    };
    assert_eq!(rt; Header::read(bytes.as_slice())?, expected);
    Ok(())
}

#[test]
fn config_body(rt: HostRuntime) -> Result<(), Fail> {
    let bytes = from_hex(rt.alloc(), CONFIG)?;
    let body = Frame::read(bytes.as_slice())?.config2()?;
    assert_eq!(rt; body.len(), 438);
    assert_eq!(rt; u32_at(body, 0), Some(1_000_000));
    // behind TIME_BASE: NUM_PMU, the station's ID and DATA_RATE
    for (at, word) in [(4, 1), (22, 7734), (436, 30)] {
        assert_eq!(rt; u16_at(body, at), Some(word));
    }
    Ok(())
}
