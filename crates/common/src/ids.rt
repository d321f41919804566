ghost use Rattle.common.specs.Ids.{reserved};
ghost use Rattle.std.specs.Fmt.{decimal, styled_decimal};
ghost use Rattle.std.specs.Prelude.{◌≡◌, Some};

use std::fmt;

// The number of the line that a frame came in by. No `From<Port>` for numbers: `port.0` is one already.
#[derive(Clone, Copy, PartialEq, Eq, Hash, PartialOrd, Ord, Debug)]
pub struct Port(pub u8);

// The code by which a sender names itself in its frames.
#[derive(Clone, Copy, PartialEq, Eq, Hash, PartialOrd, Ord, Debug)]
pub struct IdCode(pub u16);

impl IdCode {
    // Whether the code names no sender.
    pub fn is_reserved(self) -> bool
        ensures { result ≡ reserved self.0 }
    {
        self.0 == 0 || self.0 == 65_535
    }
}

// A line is printed as its bare number, with the width and fill that are asked for.
impl fmt::Display for Port {
    ghost output = { λ line. Some (decimal line.0) };

    ghost styled_output = { λ line style. Some (styled_decimal style line.0) };

    fn fmt<W: fmt::Write>(&self, f: &mut fmt::Formatter<W>) -> fmt::Result {
        let Port(line) = self;
        fmt::Display::fmt(line, f)
    }
}

// A code is printed as its bare number, with the width and fill that are asked for.
impl fmt::Display for IdCode {
    ghost output = { λ code. Some (decimal code.0) };

    ghost styled_output = { λ code style. Some (styled_decimal style code.0) };

    fn fmt<W: fmt::Write>(&self, f: &mut fmt::Formatter<W>) -> fmt::Result {
        let IdCode(code) = self;
        fmt::Display::fmt(code, f)
    }
}
