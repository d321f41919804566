ghost use Rattle.std.specs.Prelude.{◌≡◌, ◌+◌, ◌*◌, ◌≤◌, length};
ghost use Rattle.layout.specs.Blocks.{data_length};
ghost use Rattle.plan.specs.Ports.{part_lengths};
ghost use Rattle.plan.specs.Tables.{port_of};

use crate::record::Record;

// What a configuration frame asks for: a port, and room for the parts that describe its stations.
// These are long only where the stations' data are, or by digital words.
#[derive(Clone, Copy)]
pub(crate) struct Request<'a> {
    pub(crate) port: Record,
    pub(crate) parts: &'a [u8],
    ghost measured: { length parts.now ≡ part_lengths (port_of port).stations },
    ghost bounded: { length parts.now ≤ 1070 * length (port_of port).stations + 10 * data_length (port_of port).stations },
}
