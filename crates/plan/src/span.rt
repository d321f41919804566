// Where the body of a port stands among the bodies of all ports in a data frame, and how long it is.
// No `Range`: it is not `Copy`, and a plan is copied.
#[derive(Clone, Copy, PartialEq, Eq, Debug)]
pub struct Span {
    pub at: usize,
    pub len: usize,
}
