use crate::build::Build;
use common::Fault;
use config::Config;
use fields::u16_at;
use std::io;
use wire::Frame;

// What a published configuration says when it is read like any other, with up to 32 stations, and its
// check word.
fn read_back(frame: &[u8]) -> Result<(Config, u16), Fault> {
    let config = Config::read(Frame::read(frame)?.config2()?, 32)?;
    let check = u16_at(frame, frame.len().saturating_sub(2)).ok_or(Fault::Short)?;
    Ok((config, check))
}

// Length, stations and check word of a published configuration, and what reads back from it.
fn show_frame(rt: &impl Print, frame: &[u8]) -> io::Result<()> {
    let (config, check) = match read_back(frame) {
        Ok(read) => read,
        Err(fault) => {
            return println!(rt; "combined configuration does not read back: {fault}");
        }
    };
    let size = frame.len();
    let stations = config.stations.len();
    println!(rt;
        "combined configuration: {size} bytes, {stations} stations, check word {check:04x}h"
    )?;
    let base = config.time_base;
    let rate = config.rate;
    print!(rt; "read back: time base {base}, {rate} frames a second, stations")?;
    for station in config.stations.as_slice() {
        let id = station.id;
        print!(rt; " {id}")?;
    }
    println!(rt)
}

// Tells of the combined configuration.
pub fn show_combined(rt: &impl Print, build: &Build) -> io::Result<()> {
    match &build.combined {
        Ok(frame) => show_frame(rt, frame.as_slice()),
        Err(fault) => println!(rt; "no combined configuration: {fault}"),
    }
}
