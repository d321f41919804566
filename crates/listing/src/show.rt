use crate::build::Build;
use crate::ports::{show_ports, show_stations};
use crate::records::show_records;
use capture::Record;
use std::io;

// Prints the records of a capture, and the ports and stations of the plan that they make.
pub fn show_capture(rt: &impl Print, records: &[Record], build: &Build) -> io::Result<()> {
    show_records(rt, records)?;
    show_ports(rt, build)?;
    show_stations(rt, &build.plan)
}
