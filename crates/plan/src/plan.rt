ghost use Rattle.std.specs.Prelude.{◌≡◌, ◌+◌, ◌*◌, ◌≤◌};
ghost use Rattle.plan.specs.Ports.{body_length, body_spans, parts_length, station_count};
ghost use Rattle.fixed.specs.FixedList.{items_of};
ghost use Rattle.plan.specs.Tables.{ports_of};

use crate::span::Span;
use crate::table::{MOST_PORTS, Table};
use common::IdCode;
use fixed::FixedList;

// Where the station parts begin in a configuration frame, and how many bytes stand behind them.
pub(crate) const PARTS_AT: usize = 20;

pub(crate) const BEHIND_PARTS: usize = 4;

// The combined code, the rate in frames per second, and the ports with the place and length of each one's
// data body, which are kept so that no frame has to work them out, and three sums over them: of stations,
// of bytes of data body, and of bytes of station parts. The places stand in a list of their own: a record is
// a plain struct that anyone can make of any parts, so it cannot keep a length that has to fit.
// No `impl Model`: a view of the ports forgets the table's filler, and so `Copy` would be lost.
// The three sums have no struct of their own: only `bounded` joins them, and a struct would put a name
// more before each.
#[derive(Clone, Copy)]
pub struct Plan {
    pub(crate) id: IdCode,
    pub(crate) rate: u16,
    pub(crate) table: Table,
    pub(crate) spans: FixedList<Span, MOST_PORTS>,
    pub(crate) stations: usize,
    pub(crate) body: usize,
    pub(crate) parts: usize,
    ghost spanned: { items_of spans ≡ body_spans (ports_of table) },
    ghost counted: { stations ≡ station_count (ports_of table) },
    ghost measured: { body ≡ body_length (ports_of table) },
    ghost filled: { parts ≡ parts_length (ports_of table) },
    ghost few: { stations ≤ 32 },
    ghost narrow: { body ≤ 1024 },
    ghost bounded: { parts ≤ 1070 * stations + 10 * body },
}
