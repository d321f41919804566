// What is written for stations whose data did not come.
use crate::build::{line, station};
use crate::checks::read_config;
use fixtures::{from_hex, number};
use layout::{block_len, fill_absent};
use std::test::Fail;

// FORMAT, the channels, and the block: STAT, phasors, frequencies, analogs, digital words.
const BLOCKS: [(u16, (u16, u16, u16), &str); 10] = [
    // rectangular integers
    (0, (2, 1, 1), "8000 80008000 80008000 80008000 8000 0000"),
    // polar integers
    (1, (2, 1, 0), "8000 00008000 00008000 80008000 8000"),
    // floats, rectangular and polar
    (2, (1, 1, 0), "8000 7FC000007FC00000 80008000 8000"),
    (3, (1, 0, 1), "8000 7FC000007FC00000 80008000 0000"),
    // float analogs, float frequencies, and both
    (4, (1, 2, 0), "8000 80008000 80008000 7FC00000 7FC00000"),
    (9, (1, 1, 0), "8000 00008000 7FC000007FC00000 8000"),
    (12, (0, 1, 0), "8000 7FC000007FC00000 7FC00000"),
    // all of them
    (
        15,
        (1, 1, 1),
        "8000 7FC000007FC00000 7FC000007FC00000 7FC00000 0000",
    ),
    // digital words
    (0, (0, 0, 4), "8000 80008000 0000 0000 0000 0000"),
    // the upper bits of FORMAT do not count
    (0xfff0, (1, 1, 0), "8000 80008000 80008000 8000"),
];

#[test]
fn blocks_byte_by_byte(rt: HostRuntime) -> Result<(), Fail> {
    let heap = rt.alloc();
    for (format, channels, text) in BLOCKS {
        let expected = from_hex(heap, text)?;
        let station = station(5, format, channels);
        let config = read_config(line(heap, 7, &[station])?.as_slice(), 8)?;
        let mut out = vec![in heap; 0x55; expected.len()]?;
        let len = fill_absent(&config.stations, out.as_mut_slice())?;
        assert_eq!(rt;
            (block_len(&station), len),
            (expected.len(), expected.len())
        );
        assert!(rt; out.as_slice() == expected.as_slice());
    }
    Ok(())
}

// The room, the length, the number of the refusal, and what is in the buffer after.
const BUFFERS: [(usize, usize, u8, &str); 4] = [
    (0, 0, 17, ""),
    (17, 0, 17, "5555555555555555555555555555555555"),
    (18, 18, 0, "8000 80008000 0000 8000 00008000 80008000"),
    (20, 18, 0, "8000 80008000 0000 8000 00008000 80008000 5555"),
];

#[test]
fn blocks_in_a_buffer(rt: HostRuntime) -> Result<(), Fail> {
    let heap = rt.alloc();
    let stations = [station(1, 0, (0, 0, 1)), station(2, 1, (1, 0, 0))];
    let config = read_config(line(heap, 7, &stations)?.as_slice(), 8)?;
    for (room, len, refusal, text) in BUFFERS {
        let mut out = vec![in heap; 0x55; room]?;
        let filled = fill_absent(&config.stations, out.as_mut_slice());
        assert_eq!(rt; (filled.unwrap_or(0), number(filled)), (len, refusal));
        assert!(rt; out.as_slice() == from_hex(heap, text)?.as_slice());
    }
    Ok(())
}
