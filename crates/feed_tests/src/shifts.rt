use crate::build::{command, frame};
use common::Port;
use feed::FrameMap;
use shift::Shifts;

#[test]
fn soc_moves_if_it_stays_in_range(rt: HostRuntime) {
    // seconds, SOC and check word, and both as they are to be
    let cases = [
        (0, 1_149_580_800, 0x42b4, 1_149_580_800, 0x42b4),
        (1, 1_149_580_800, 0x42b4, 1_149_580_801, 0xfad5),
        (60, 1_149_580_800, 0x42b4, 1_149_580_860, 0x4952),
        (-60, 1_149_580_800, 0x42b4, 1_149_580_740, 0x3d12),
        (1, 255, 0x3683, 256, 0xd421),
        (-1, 65_536, 0x78d1, 65_535, 0xa2cc),
        // more than a minute counts as a minute
        (61, 1_149_580_800, 0x42b4, 1_149_580_860, 0x4952),
        (-61, 1_149_580_800, 0x42b4, 1_149_580_740, 0x3d12),
        (i32::MAX, 1_149_580_800, 0x42b4, 1_149_580_860, 0x4952),
        (i32::MIN, 1_149_580_800, 0x42b4, 1_149_580_740, 0x3d12),
        // the ends of the range
        (-60, 60, 0x9814, 0, 0x93f2),
        (-60, 59, 0x8150, 59, 0x8150),
        (-1, 0, 0x93f2, 0, 0x93f2),
        (60, 0, 0x93f2, 60, 0x9814),
        (60, 4_294_967_235, 0x4813, 4_294_967_295, 0x43f5),
        (60, 4_294_967_236, 0x5157, 4_294_967_236, 0x5157),
        (1, 4_294_967_295, 0x43f5, 4_294_967_295, 0x43f5),
        (-1, 4_294_967_295, 0x43f5, 4_294_967_294, 0xfb94),
    ];
    for (seconds, soc, check_word, target, fresh) in cases {
        let mut bytes = command(soc, check_word);
        Shifts::new([seconds; 16]).apply(Port(3), &mut bytes);
        assert!(rt; bytes == command(target, fresh));
    }
}

#[test]
fn every_type_is_shifted(rt: HostRuntime) {
    // the second byte of SYNC, and the check words before and after
    let cases = [
        (0x02, 0xcb27, 0x41ce),
        (0x12, 0x85ad, 0x0f44),
        (0x22, 0x5633, 0xdcda),
        (0x32, 0x18b9, 0x9250),
        (0x52, 0xafa4, 0x254d),
        (0x01, 0x2802, 0xa2eb),
    ];
    for (sync, check_word, fresh) in cases {
        let mut bytes = frame(sync, 100, check_word);
        Shifts::new([7; 16]).apply(Port(0), &mut bytes);
        assert!(rt; bytes == frame(sync, 107, fresh));
    }
}

#[test]
fn a_damaged_frame_stays_as_it_is(rt: HostRuntime) {
    let shifts = Shifts::new([60; 16]);
    // SYNC, FRAMESIZE, IDCODE, SOC, FRACSEC, the body and the check word
    for at in [0, 1, 2, 3, 4, 9, 13, 15, 16, 17] {
        let mut bytes = command(0, 0x93f2);
        bytes[at] ^= 1;
        let before = bytes;
        shifts.apply(Port(0), &mut bytes);
        assert!(rt; bytes == before);
    }
    for end in 0..18 {
        let mut bytes = command(0, 0x93f2);
        shifts.apply(Port(0), &mut bytes[0..end]);
        assert!(rt; bytes == command(0, 0x93f2));
    }
}

#[test]
fn each_line_has_its_own_shift(rt: HostRuntime) {
    let shifts = Shifts::new([7, 0, 0, 0, 0, 0, 0, 0, 0, 0, 0, 0, 0, 0, -60, -7]);
    // port, SOC and check word as they are to be; there are sixteen lines
    let cases = [
        (0, 107, 0x6bc7),
        (1, 100, 0xe12e),
        (13, 100, 0xe12e),
        (14, 40, 0x6ea9),
        (15, 93, 0x936f),
        (16, 100, 0xe12e),
        (255, 100, 0xe12e),
    ];
    for (port, soc, check_word) in cases {
        let mut bytes = command(100, 0xe12e);
        shifts.apply(Port(port), &mut bytes);
        assert!(rt; bytes == command(soc, check_word));
    }
}
