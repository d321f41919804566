use crate::calls::Hub;
use anyhow::{Context, ensure};
use capture::Capture;
use common::IdCode;
use concentrator::Concentrator;
use fields::{u16_at, u32_at, u64_at};
use plan::Plan;
use policy::Absolute;
use recorded::Recorded;
use std::io::Read;

// The code that the combined stream is sent under.
const COMBINED: IdCode = IdCode(1);

// The bytes of a load before its captures.
const HEAD: usize = 18;

// Room for the combined configuration of any plan.
const ROOM: usize = 66_000;

// What a concentrator is opened with, and the calls that are made on it: the rate, the wait, and three
// captures, of the configurations of the lines, of the calls, and of the frames of the feed.
#[derive(Clone, Copy)]
pub struct Load<'a> {
    rate: u16,
    wait: u64,
    lines: Capture<'a>,
    pub calls: Capture<'a>,
    feed: &'a [u8],
}

// All bytes of standard input.
pub fn read_input(rt: &HostRuntime) -> anyhow::Result<Vec<u8>> {
    let mut bytes = Vec::new(rt.alloc());
    rt.stdin().read_to_end(&mut bytes)?;
    Ok(bytes)
}

// The `len` bytes that begin the bytes, as a capture, and the bytes behind them.
fn split_capture(bytes: &[u8], len: u32) -> anyhow::Result<(Capture<'_>, &[u8])> {
    let (front, rest) = bytes
        .split_at_checked(len as usize)
        .context("the load ends within a capture")?;
    Ok((Capture::open(front)?, rest))
}

impl<'a> Load<'a> {
    // The load that the bytes are: the rate, the wait, the lengths of the first two captures, and the
    // captures.
    pub fn read(bytes: &'a [u8]) -> anyhow::Result<Load<'a>> {
        let short = "the load ends within its head";
        let rate = u16_at(bytes, 0).context(short)?;
        let wait = u64_at(bytes, 2).context(short)?;
        let lines = u32_at(bytes, 10).context(short)?;
        let calls = u32_at(bytes, 14).context(short)?;
        let (_, rest) = bytes.split_at_checked(HEAD).context(short)?;
        let (lines, rest) = split_capture(rest, lines)?;
        let (calls, feed) = split_capture(rest, calls)?;
        Ok(Load {
            rate,
            wait,
            lines,
            calls,
            feed,
        })
    }

    // The plan of the lines, each in its turn the next port.
    fn plan(&self) -> anyhow::Result<Plan> {
        let mut plan = Plan::begin(COMBINED, self.rate);
        let mut buffer = [0; ROOM];
        for line in self.lines {
            plan.add(line.frame, &mut buffer)?;
        }
        Ok(plan)
    }

    // The concentrator of the plan, from the reading of the first call on.
    pub fn open(&self) -> anyhow::Result<Hub<'a>> {
        let mut calls = self.calls;
        let first = calls.next_record().context("the load has no call")?;
        let feed = Recorded::over(self.feed);
        let hub = Concentrator::open(&self.plan()?, feed, Absolute::new(self.wait), first.reading);
        hub.check()?;
        Ok(hub)
    }
}
