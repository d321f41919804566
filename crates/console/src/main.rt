// Makes the calls that standard input lists, one a line, and prints the answer of each.
#![tactic(auto)]

mod answer;
mod bytes;
mod call;
mod draft;
mod front;
mod input;
mod line;
mod number;
mod reason;
mod run;
mod session;
mod source;
mod tally;
mod trouble;
mod words;

use input::read_lines;
use run::run;
use std::process::ExitCode;

// Reads all lines, and then answers them.
fn console(rt: &HostRuntime) -> anyhow::Result<()> {
    let lines = read_lines(rt)?;
    run(rt, lines.as_slice())
}

// As `listing` has it: a crate for one function of six lines would be no plainer.
fn main(rt: HostRuntime) -> ExitCode {
    let Err(trouble) = console(&rt) else {
        return ExitCode::SUCCESS;
    };
    // Where the message cannot be written either, the status alone tells.
    let _ = eprintln!(rt; "console: {trouble}");
    ExitCode::FAILURE
}
