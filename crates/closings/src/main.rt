// Goes through a capture from standard input: prints its records, builds a plan from their
// configurations, publishes the combined configuration, and tells the slot of each data frame and when
// that slot would close by its first arrival.
#![tactic(auto)]

mod arrivals;
mod closing;
mod options;
mod placing;
mod table;

use anyhow::Context;
use capture::{Capture, Record};
use common::IdCode;
use listing::{Build, Waits, exit_code, read_capture, show_capture, show_combined};
use options::read_waits;
use std::process::ExitCode;
use table::show_slots;

// The code that the combined stream is sent under.
const COMBINED: IdCode = IdCode(1);

fn show(rt: &HostRuntime, waits: Waits, capture: Capture) -> anyhow::Result<()> {
    let records: Vec<Record> = capture.collect(rt.alloc())?;
    let records = records.as_slice();
    let build = Build::of(rt.alloc(), records, COMBINED)?;
    show_capture(rt, records, &build)?;
    println!(rt)?;
    show_combined(rt, &build)?;
    show_slots(rt, records, &build, waits.policy())
}

fn run(rt: &HostRuntime) -> anyhow::Result<()> {
    let waits = read_waits(rt)?;
    let bytes = read_capture(rt.alloc(), rt.stdin())?;
    let capture = Capture::open(bytes.as_slice()).context("refused")?;
    show(rt, waits, capture)
}

fn main(rt: HostRuntime) -> ExitCode {
    exit_code(&rt, "closings", run(&rt))
}
