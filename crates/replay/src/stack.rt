use crate::hex::print_combined;
use crate::lower::Lower;
use crate::options::{COMBINED, Options, Output};
use crate::pace::Pace;
use crate::pile::Pile;
use crate::player::Player;
use crate::report::{Report, Source};
use capture::Record;
use common::Port;
use listing::{Build, show_capture, show_combined};
use policy::Policy;
use std::io;

// Which lines a lower box has, how long it waits, and its combined configuration.
fn show_lower(rt: &impl Print, port: Port, lower: &Lower, wait: u64) -> io::Result<()> {
    let id = lower.build.plan.id();
    println!(rt)?;
    print!(rt; "box {port}: ID {id}, lines")?;
    for line in lower.lines.as_slice() {
        print!(rt; " {line}")?;
    }
    println!(rt; ", slots due at most {wait} microseconds after their stamps")?;
    show_combined(rt, &lower.build)
}

// The combined configurations of the boxes, from below.
fn show_boxes(rt: &impl Print, pile: &Pile, wait: u64) -> io::Result<()> {
    show_lower(rt, Port(0), &pile.first, wait)?;
    show_lower(rt, Port(1), &pile.second, wait)?;
    let id = pile.upper.plan.id();
    println!(rt)?;
    println!(rt; "upper box: ID {id}, boxes 0 1")?;
    show_combined(rt, &pile.upper)
}

// Shows what the records make, and plays them through two boxes under a third. Apart from the play through
// one box: plan, feed, pace and what is shown differ.
pub fn play_stack(
    rt: &HostRuntime,
    options: Options,
    first: u64,
    records: &[Record],
) -> anyhow::Result<()> {
    let build = Build::of(rt.alloc(), records, COMBINED)?;
    let lower = options.waits.policy();
    let pile = Pile::of(rt.alloc(), records, &build)?;
    match options.output {
        Output::Table => {
            show_capture(rt, records, &build)?;
            show_boxes(rt, &pile, lower.longest_wait())?;
        }
        Output::Hex => print_combined(rt, &pile.upper)?,
    }
    let feed = pile.feed(lower, first);
    let plan = &pile.upper.plan;
    let report = Report::new(rt.alloc(), options.output, Source::Boxes, plan);
    let pace = Pace::upper(options.waits, first);
    Player::open(rt.alloc(), plan, feed, pace, report).play(rt, records)
}
