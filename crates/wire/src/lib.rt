// Frames of IEEE C37.118.2: their headers, what they are told apart as, and how they are written.
#![tactic(auto)]

mod frame;
mod header;
mod kind;
mod write;

pub use frame::Frame;
pub use header::{HEADER_LEN, Header, TimeTag};
pub use kind::{FrameType, Version};
pub use write::{OVERHEAD, seal, write_frame};
