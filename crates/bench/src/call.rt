use capture::Record;
use common::Port;

// A call on a concentrator. A write takes the ticket first. Not `runs::Call`: a call of a load has no
// room and no ticket's number.
#[derive(Clone, Copy)]
pub enum Call<'a> {
    Tick(u64),
    Admit(Port, &'a [u8]),
    Pull,
    Write,
}

// The kinds of calls, in the order in which their times are shown.
#[derive(Clone, Copy, PartialEq, Eq, Debug)]
pub enum Kind {
    Tick = 0,
    Admit = 1,
    Pull = 2,
    Write = 3,
}

// The call that a record stands for: one letter for a tick with its reading, a pull or a write;
// and any other frame is admitted.
impl<'a> From<Record<'a>> for Call<'a> {
    fn from(record: Record<'a>) -> Call<'a> {
        match record.frame {
            b"t" => Call::Tick(record.reading),
            b"p" => Call::Pull,
            b"w" => Call::Write,
            frame => Call::Admit(record.port, frame),
        }
    }
}

impl Call<'_> {
    // The kind that its cost is counted under.
    pub fn kind(self) -> Kind {
        match self {
            Call::Tick(_) => Kind::Tick,
            Call::Admit(..) => Kind::Admit,
            Call::Pull => Kind::Pull,
            Call::Write => Kind::Write,
        }
    }
}
