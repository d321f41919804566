use crate::reason::Reason;
use crate::words::Words;
use choice::{AnyFeed, AnyPolicy, Simple};
use common::Port;
use plan::Plan;
use policy::{Absolute, Relative, Sooner};
use recorded::Recorded;
use shift::Shifts;
use stacked::Stacked;

// Where a box gets its frames from: the bytes of captures, if any, and what is done with them. `Stacked`
// is a lower box over a capture.
#[derive(Drop)]
pub enum Source {
    Silent,
    Capture(Vec<u8>),
    Joined(Vec<u8>, Vec<u8>),
    Shifted([i32; 16], Vec<u8>),
    Stacked {
        port: Port,
        policy: AnyPolicy,
        bytes: Vec<u8>,
        reading: u64,
    },
}

// A lower box over a capture, as a feed. Out of line: a function pays at its entry for all that it keeps on the
// stack, and here that is two boxes.
#[inline(never)]
fn lower_box<'a>(
    port: Port,
    plan: &Plan,
    bytes: &'a [u8],
    policy: AnyPolicy,
    reading: u64,
) -> AnyFeed<'a> {
    AnyFeed::stacked(Stacked::open(port, plan, Recorded::over(bytes), policy, reading))
}

impl Source {
    // The feed that the next words name.
    pub fn read(words: &mut Words) -> Result<Source, Reason> {
        match words.next()? {
            "silent" => Ok(Source::Silent),
            "capture" => Ok(Source::Capture(words.bytes()?)),
            "joined" => Ok(Source::Joined(words.bytes()?, words.bytes()?)),
            "shifted" => Ok(Source::Shifted(words.shifts()?, words.bytes()?)),
            "stacked" => Ok(Source::Stacked {
                port: words.port()?,
                policy: read_policy(words)?,
                bytes: words.bytes()?,
                reading: words.number()?,
            }),
            _ => Err(Reason::UnknownFeed),
        }
    }

    // The feed, over the bytes that stand here. A lower box is opened with its plan.
    pub fn feed(&self, lower: &Plan) -> AnyFeed<'_> {
        match self {
            Source::Silent => AnyFeed::silent(),
            Source::Capture(bytes) => AnyFeed::recorded(Recorded::over(bytes.as_slice())),
            Source::Joined(first, second) => AnyFeed::joined(
                Recorded::over(first.as_slice()),
                Recorded::over(second.as_slice()),
            ),
            Source::Shifted(shifts, bytes) => {
                AnyFeed::shifted(Recorded::over(bytes.as_slice()), Shifts::new(*shifts))
            }
            Source::Stacked {
                port,
                policy,
                bytes,
                reading,
            } => lower_box(*port, lower, bytes.as_slice(), *policy, *reading),
        }
    }
}

// A policy that is no combination, whose first word is `kind`.
fn simple(kind: &str, words: &mut Words) -> Result<Simple, Reason> {
    match kind {
        "abs" => Ok(Simple::One(Absolute::new(words.number()?))),
        "rel" => Ok(Simple::Other(Relative::new(words.number()?, words.number()?))),
        _ => Err(Reason::UnknownPolicy),
    }
}

// The policy that the next words name.
pub fn read_policy(words: &mut Words) -> Result<AnyPolicy, Reason> {
    match words.next()? {
        "soon" => Ok(AnyPolicy::Other(Sooner::new(
            simple(words.next()?, words)?,
            simple(words.next()?, words)?,
        ))),
        kind => Ok(AnyPolicy::One(simple(kind, words)?)),
    }
}
