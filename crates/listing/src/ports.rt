use crate::build::{Build, Outcome};
use config::{Encoding, Station};
use layout::{block_len, data_len};
use plan::{Plan, Record};
use std::io;

// One line of the capture, and the port that it fills.
fn show_line(rt: &impl Print, plan: &Plan, line: usize, outcome: Outcome) -> io::Result<()> {
    match outcome {
        Outcome::Unused => Ok(()),
        Outcome::NoConfiguration => println!(rt;
            "{line:>5}  {:>4}  no configuration: left out",
            "-"
        ),
        Outcome::Refused(fault) => println!(rt;
            "{line:>5}  {:>4}  refused: {fault}: left out",
            "-"
        ),
        Outcome::Filled(port) => {
            print!(rt; "{line:>5}  {port:>4}")?;
            match plan.port(port) {
                Some(record) => show_port(rt, record),
                None => println!(rt),
            }
        }
    }
}

// What a port's configuration says.
fn show_port(rt: &impl Print, port: &Record) -> io::Result<()> {
    let id = port.id;
    let base = port.time_base;
    let stations = port.stations.len();
    let bytes = data_len(&port.stations);
    println!(rt; "  {id:>6}  {base:>9}  {stations:>8}  {bytes:>10}")
}

// Which line of the capture fills which port of the plan.
pub(crate) fn show_ports(rt: &impl Print, build: &Build) -> io::Result<()> {
    let rate = build.plan.rate();
    println!(rt)?;
    println!(rt; "plan: {rate} frames a second, by the first configuration of each line")?;
    println!(rt; " line  port      ID  time base  stations  data bytes")?;
    for (line, outcome) in build.lines.iter().enumerate() {
        show_line(rt, &build.plan, line, *outcome)?;
    }
    Ok(())
}

// These two stay functions of a `bool`, since each is a word of a table's cell and of nothing else.
fn encoding(float: bool) -> &'static str {
    if float { "float" } else { "integer" }
}

fn shape(polar: bool) -> &'static str {
    if polar { "polar" } else { "rectangular" }
}

// A station's channels, and how they are encoded.
fn show_station(rt: &impl Print, place: usize, station: &Station) -> io::Result<()> {
    let id = station.id;
    let phasors = station.phasors;
    let analogs = station.analogs;
    let digitals = station.digitals;
    let phasor = encoding(station.format.has(Encoding::FloatPhasors));
    let polar = shape(station.format.has(Encoding::PolarPhasors));
    let analog = encoding(station.format.has(Encoding::FloatAnalogs));
    let freq = encoding(station.format.has(Encoding::FloatFreqs));
    let bytes = block_len(station);
    println!(rt;
        "  {place:>7}  {id:>6}  {phasors:>3} {phasor:<7} {polar:<11}  {analogs:>3} {analog:<7}  {freq:<7}  {digitals:>8}  {bytes:>5}"
    )
}

// All stations, port by port.
pub(crate) fn show_stations(rt: &impl Print, plan: &Plan) -> io::Result<()> {
    println!(rt)?;
    println!(rt;
        " port  station      ID  phasors                  analogs      FREQ     digitals  bytes"
    )?;
    for (port, record) in plan.ports().iter().enumerate() {
        for (place, station) in record.stations.as_slice().iter().enumerate() {
            print!(rt; "{port:>5}")?;
            show_station(rt, place, station)?;
        }
    }
    Ok(())
}
