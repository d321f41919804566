use crate::call::Kind;
use std::io;
use std::time::{Duration, Instant};

// How many kinds of calls there are.
const KINDS: usize = 4;

// How many calls of a kind were made, and how long they took together.
#[derive(Clone, Copy)]
struct Cost {
    calls: u64,
    spent: Duration,
}

// What the calls of each kind cost.
#[derive(Clone, Copy)]
pub struct Meter {
    kind: Kind,
    since: Instant,
    // by the kind's number: an array needs no heap
    costs: [Cost; KINDS],
}

impl Meter {
    // A meter that starts now, with nothing counted.
    pub fn start(rt: &HostRuntime) -> io::Result<Meter> {
        let none = Cost {
            calls: 0,
            spent: Duration::ZERO,
        };
        Ok(Meter {
            kind: Kind::Tick,
            since: Instant::now(rt)?,
            costs: [none; KINDS],
        })
    }

    // Adds the time since the last change to the kind of the calls that were made in it.
    pub fn stop(&mut self, rt: &HostRuntime) -> io::Result<()> {
        let now = Instant::now(rt)?;
        let cost = &mut self.costs[self.kind as usize];
        cost.spent = cost.spent.saturating_add(now.duration_since(self.since));
        self.since = now;
        Ok(())
    }

    // Counts a call of the kind. The clock is read only where the kind changes.
    pub fn count(&mut self, rt: &HostRuntime, kind: Kind) -> io::Result<()> {
        if kind != self.kind {
            self.stop(rt)?;
            self.kind = kind;
        }
        let cost = &mut self.costs[kind as usize];
        cost.calls = cost.calls.saturating_add(1);
        Ok(())
    }

    // Prints a line for each kind: how many calls, and how many nanoseconds they took.
    pub fn print(&self, rt: &HostRuntime) -> io::Result<()> {
        // no derive lists the cases of an enum, so they stand once, with their names
        for (kind, name) in [
            (Kind::Tick, "tick"),
            (Kind::Admit, "admit"),
            (Kind::Pull, "pull"),
            (Kind::Write, "write"),
        ] {
            let cost = self.costs[kind as usize];
            println!(rt; "{name} {} {}", cost.calls, cost.spent.as_nanos())?;
        }
        Ok(())
    }
}
