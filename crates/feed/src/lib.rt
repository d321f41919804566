// Feeds: where a concentrator's frames come from, behind one interface with one meaning.
#![tactic(auto)]

mod feed;
mod joined;
mod mapped;
mod silent;

pub use common::LONGEST_FRAME;
pub use feed::{Feed, Taken, check_room};
pub use joined::Joined;
pub use mapped::{FrameMap, Mapped};
pub use silent::Silent;
