use crate::reason::Reason;
use crate::source::{Source, read_policy};
use crate::words::Words;
use choice::AnyPolicy;
use common::{IdCode, Port};
use std::alloc::Global;

// A call on the plan, the opening of a box, or a call on the box.
#[derive(Drop)]
pub enum Call {
    Plan {
        id: IdCode,
        rate: u16,
    },
    Lower,
    Add {
        frame: Vec<u8>,
        room: usize,
    },
    Publish {
        reading: u64,
        room: usize,
    },
    Find {
        id: IdCode,
    },
    Open {
        policy: AnyPolicy,
        source: Source,
        reading: u64,
    },
    // Apart from those below, which have no bytes to keep.
    Admit {
        port: Port,
        frame: Vec<u8>,
    },
    OnBox(runs::Call<'static>),
}

// The call on a box of that name.
fn read_box_call(name: &str, words: &mut Words) -> Result<runs::Call<'static>, Reason> {
    match name {
        "tick" => Ok(runs::Call::Tick {
            reading: words.number()?,
            room: words.room()?,
        }),
        "pull" => Ok(runs::Call::Pull {
            room: words.room()?,
        }),
        "take" => Ok(runs::Call::Take),
        "write" => Ok(runs::Call::Write {
            ticket: words.number()?,
            room: words.room()?,
        }),
        "counts" => Ok(runs::Call::Counts),
        _ => Err(Reason::UnknownCall),
    }
}

// The call at the front of the words.
fn read_call(words: &mut Words) -> Result<Call, Reason> {
    match words.next()? {
        "plan" => Ok(Call::Plan {
            id: words.id()?,
            rate: words.rate()?,
        }),
        "lower" => Ok(Call::Lower),
        "add" => Ok(Call::Add {
            frame: words.bytes()?,
            room: words.room()?,
        }),
        "publish" => Ok(Call::Publish {
            reading: words.number()?,
            room: words.room()?,
        }),
        "find" => Ok(Call::Find { id: words.id()? }),
        "open" => Ok(Call::Open {
            policy: read_policy(words)?,
            source: Source::read(words)?,
            reading: words.number()?,
        }),
        "admit" => Ok(Call::Admit {
            port: words.port()?,
            frame: words.bytes()?,
        }),
        name => Ok(Call::OnBox(read_box_call(name, words)?)),
    }
}

impl Call {
    // The call that a whole line gives.
    pub fn read(heap: Global, line: &str) -> Result<Call, Reason> {
        let mut words = Words::of(heap, line);
        let call = read_call(&mut words)?;
        words.end()?;
        Ok(call)
    }
}
