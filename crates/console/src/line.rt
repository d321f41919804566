use crate::call::Call;
use crate::reason::Reason;
use std::alloc::Global;
use std::str;

// A line of the input.
#[derive(Drop)]
pub enum Line {
    // Empty, or begins with `#`: printed as it stands.
    Remark(Vec<u8>),
    // A call, or why the line is none.
    Call(Result<Call, Reason>),
}

// The call that the bytes of a line give, if they are text.
fn read_call(heap: Global, bytes: &[u8]) -> Result<Call, Reason> {
    Call::read(heap, str::from_utf8(bytes)?)
}

impl Line {
    // The line with these bytes, which are those before its end.
    pub fn read(heap: Global, bytes: Vec<u8>) -> Line {
        if matches!(bytes.as_slice(), [] | [b'#', ..]) {
            return Line::Remark(bytes);
        }
        Line::Call(read_call(heap, bytes.as_slice()))
    }
}
