use capture::Capture;

// The records of a capture that are not yet taken, and the highest reading ticked so far, if any:
// those records wait that lead the others and have come by it. An unsound capture has no records.
#[derive(Clone, Copy)]
pub struct Recorded<'a> {
    pub(crate) records: Option<Capture<'a>>,
    pub(crate) latest: Option<u64>,
}
