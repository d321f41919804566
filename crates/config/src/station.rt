use crate::format::Format;
use common::IdCode;

// What a configuration says of one station: its code, and the shape of its data block.
#[derive(Clone, Copy, PartialEq, Eq, Debug)]
pub struct Station {
    pub id: IdCode,
    pub format: Format,
    pub phasors: u16,
    pub analogs: u16,
    pub digitals: u16,
}
