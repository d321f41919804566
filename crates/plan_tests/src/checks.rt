use common::{Fault, IdCode, Port};
use config::{Config, Station};
use layout::data_len;
use plan::Record;
use std::process::Abort;
use std::test::Fail;
use wire::Frame;

// What a plan answers to a frame: the number and the station of its refusal.
pub(crate) type Answer = (u8, Option<u16>);

// The answer to a frame that is taken.
pub(crate) const TAKEN: Answer = (0, None);

pub(crate) fn answer_of(added: Result<Port, Fault>) -> Answer {
    match added {
        Ok(_) => TAKEN,
        Err(fault) => (fault.number(), fault.station()),
    }
}

// That a plan answered this to a frame.
pub(crate) fn check_answer(rt: &impl Abort, added: Result<Port, Fault>, expected: Answer) {
    assert_eq!(rt; answer_of(added), expected);
}

// That two frames have the same `n` bytes from 20 on.
pub(crate) fn check_parts(rt: &impl Abort, a: &[u8], b: &[u8], n: usize) -> Result<(), Fail> {
    let end = n.saturating_add(20);
    let ours = a.get(20..end).ok_or("too few bytes")?;
    let theirs = b.get(20..end).ok_or("too few bytes")?;
    assert!(rt; ours == theirs);
    Ok(())
}

// What a configuration frame says.
pub(crate) fn read_config(bytes: &[u8], most: u16) -> Result<Config, Fault> {
    Config::read(Frame::read(bytes)?.config2()?, most)
}

// That a port's record has this sender, this time base, and these stations, in this order, whose data have this
// many bytes.
pub(crate) fn check_record(
    rt: &impl Abort,
    record: &Record,
    sender: (u16, u32),
    stations: &[Station],
    data: usize,
) {
    let (id, time_base) = sender;
    let said = (record.id, record.time_base, data_len(&record.stations));
    assert_eq!(rt; said, (IdCode(id), time_base, data));
    assert!(rt; record.stations.as_slice() == stations);
}

// That a published configuration has the time base and the rate that all have, and these stations, in this order,
// whose data have this many bytes.
pub(crate) fn check_published(
    rt: &impl Abort,
    bytes: &[u8],
    stations: &[Station],
    data: usize,
) -> Result<(), Fail> {
    let config = read_config(bytes, 32)?;
    let said = (config.time_base, config.rate, data_len(&config.stations));
    assert_eq!(rt; said, (1_000_000, 30, data));
    assert!(rt; config.stations.as_slice() == stations);
    Ok(())
}
