// The configuration that the standard works out.
use crate::bench::Bench;
use crate::build::station;
use crate::checks::{check_published, check_record};
use fields::put_u16;
use fixtures::{CONFIG, from_hex};
use std::test::Fail;
use wire::seal;

#[test]
fn its_record(rt: HostRuntime) -> Result<(), Fail> {
    let heap = rt.alloc();
    let frame = from_hex(heap, CONFIG)?;
    let mut bench = Bench::new(heap, 454)?;
    bench.check_frame(&rt, frame.as_slice(), 0)?;
    let [record] = bench.plan.ports() else {
        return Err(Fail::new("not one port"));
    };
    // the worked data frame has 52 bytes, 16 of them around its body
    let stations = [station(7734, 4, (4, 3, 1))];
    check_record(&rt, record, (7734, 1_000_000), &stations, 36);
    Ok(())
}

#[test]
fn it_is_published_again(rt: HostRuntime) -> Result<(), Fail> {
    let heap = rt.alloc();
    let mut frame = from_hex(heap, CONFIG)?;
    let mut bench = Bench::new(heap, 454)?;
    bench.check_frame(&rt, frame.as_slice(), 0)?;
    bench.check_publish(&rt, 1_149_577_200_463_000, 454)?;
    // the version, the sender, the quality and the check word become others
    for (at, word) in [(0, 0xaa32), (4, 0x0102), (10, 0x0007)] {
        put_u16(frame.as_mut_slice(), at, word)?;
    }
    seal(frame.as_mut_slice());
    assert!(rt; bench.buffer.as_slice() == frame.as_slice());
    let stations = [station(7734, 4, (4, 3, 1))];
    check_published(&rt, bench.buffer.as_slice(), &stations, 36)
}
