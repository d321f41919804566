use crate::hex::print_combined;
use crate::options::{COMBINED, Options, Output};
use crate::pace::Pace;
use crate::player::Player;
use crate::report::{Report, Source};
use crate::wired::Wired;
use capture::Record;
use listing::{Build, show_capture, show_combined};
use recorded::Recorded;

// Shows what the records make, and plays them through one concentrator. Apart from the play through a stack:
// plan, feed, pace and what is shown differ.
pub fn play_single(
    rt: &HostRuntime,
    options: Options,
    first: u64,
    bytes: &[u8],
    records: &[Record],
) -> anyhow::Result<()> {
    let build = Build::of(rt.alloc(), records, COMBINED)?;
    match options.output {
        Output::Table => {
            show_capture(rt, records, &build)?;
            println!(rt)?;
            show_combined(rt, &build)?;
        }
        Output::Hex => print_combined(rt, &build)?,
    }
    let feed = Wired {
        feed: Recorded::over(bytes),
        lines: build.lines.as_slice(),
    };
    let source = Source::Records(records);
    let report = Report::new(rt.alloc(), options.output, source, &build.plan);
    let pace = Pace::single(options.waits, first);
    Player::open(rt.alloc(), &build.plan, feed, pace, report).play(rt, records)
}
