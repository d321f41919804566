// Whole frames written, and read again.
use common::IdCode;
use fixtures::number;
use std::test::Fail;
use wire::{Frame, FrameType, Header, TimeTag, Version, seal, write_frame};

const TIME: TimeTag = TimeTag {
    soc: 0x4485_3600,
    quality: 0x0f,
    count: 16_817,
};

#[test]
fn a_small_frame_byte_by_byte(rt: HostRuntime) -> Result<(), Fail> {
    let mut out = [0xee; 20];
    assert_eq!(rt;
        write_frame(&mut out, FrameType::Command, IdCode(7734), TIME, &[0, 2])?,
        18
    );
    // the standard's command frame, in version 2, that starts the data stream; the rest stays as it was
    let head = [
        0xaa, 0x42, 0, 18, 0x1e, 0x36, 0x44, 0x85, 0x36, 0, 0x0f, 0, 0x41, 0xb1, 0, 2,
    ];
    assert!(rt; &out[0..16] == &head[0..16]);
    assert_eq!(rt;
        crc::check_word(&head),
        u16::from_be_bytes([out[16], out[17]])
    );
    assert_eq!(rt; out[18], 0xee);
    assert_eq!(rt; out[19], 0xee);
    Ok(())
}

#[test]
fn every_type_comes_back(rt: HostRuntime) -> Result<(), Fail> {
    let kinds = [
        FrameType::Data,
        FrameType::Header,
        FrameType::Config1,
        FrameType::Config2,
        FrameType::Command,
        FrameType::Config3,
    ];
    for kind in kinds {
        let mut out = [0; 19];
        assert_eq!(rt;
            write_frame(&mut out, kind, IdCode(65_535), TIME, b"abc")?,
            19
        );
        let header = Header {
            kind,
            version: Version::Y2011,
            size: 19,
            id: IdCode(65_535),
            time: TIME,
        };
        assert_eq!(rt; Header::read(&out)?, header);
        let frame = match kind {
            FrameType::Data => Frame::Data(b"abc"),
            FrameType::Config2 => Frame::Config2(b"abc"),
            _ => Frame::Other(b"abc"),
        };
        assert!(rt; Frame::read(&out)? == frame);
    }
    Ok(())
}

#[test]
fn a_short_buffer_stays_as_it_was(rt: HostRuntime) {
    let mut out = [0x55; 18];
    assert_eq!(rt;
        number(write_frame(&mut out, FrameType::Data, IdCode(1), TIME, b"abc")),
        17
    );
    assert!(rt; out == [0x55; 18]);
}

#[test]
fn the_longest_frame(rt: HostRuntime) -> Result<(), Fail> {
    let heap = rt.alloc();
    let body = vec![in heap; 7; 65_520]?;
    let mut out = vec![in heap; 0; 65_536]?;
    assert!(rt; body.len() == 65_520);
    assert_eq!(rt;
        number(write_frame(
            out.as_mut_slice(),
            FrameType::Data,
            IdCode(1),
            TIME,
            body.as_slice(),
        )),
        3
    );
    let longest = &body.as_slice()[0..65_519];
    assert_eq!(rt;
        write_frame(
            out.as_mut_slice(),
            FrameType::Data,
            IdCode(1),
            TIME,
            longest,
        )?,
        65_535
    );
    assert!(rt; out.len() == 65_536);
    let told = Frame::read(&out.as_slice()[0..65_535])?;
    assert_eq!(rt; told.data()?.len(), 65_519);
    Ok(())
}

#[test]
fn seals_of_few_bytes(rt: HostRuntime) {
    let mut none: [u8; 0] = [];
    seal(&mut none);
    let mut one = [9];
    seal(&mut one);
    assert!(rt; one == [9]);
    // the check word of no bytes
    let mut two = [1, 2];
    seal(&mut two);
    assert!(rt; two == [0xff, 0xff]);
}
