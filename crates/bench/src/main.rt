// Makes the calls of a load on a concentrator, and prints a sum over all answers and written frames, or
// the written frames themselves, or how long the calls took.
#![tactic(auto)]

mod call;
mod calls;
mod load;
mod meter;
mod output;
mod sum;

use load::{Load, read_input};
use output::Output;
use std::process::ExitCode;

// Reads the load, makes its calls, and prints what the arguments ask for.
fn run(rt: &HostRuntime) -> anyhow::Result<()> {
    let output = Output::read(rt)?;
    let bytes = read_input(rt)?;
    let load = Load::read(bytes.as_slice())?;
    let mut hub = load.open()?;
    output.show(rt, &mut hub, load.calls)
}

// As `listing` has it: a crate for one function of six lines would be no plainer.
fn main(rt: HostRuntime) -> ExitCode {
    let Err(trouble) = run(&rt) else {
        return ExitCode::SUCCESS;
    };
    // Where the message cannot be written either, the status alone tells.
    let _ = eprintln!(rt; "bench: {trouble}");
    ExitCode::FAILURE
}
