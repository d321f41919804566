use crate::line::Line;
use std::io::{BufRead, BufReader};

// All lines of standard input.
pub fn read_lines(rt: &HostRuntime) -> anyhow::Result<Vec<Line>> {
    let heap = rt.alloc();
    BufReader::new(heap, rt.stdin())?
        .split(heap, b'\n')
        .map(|bytes| -> anyhow::Result<Line> { Ok(Line::read(heap, bytes?)) })
        .try_collect(heap)
}
