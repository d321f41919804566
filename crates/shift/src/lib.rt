// Shifts of whole seconds, one for each line, applied to the frames of any feed.
#![tactic(auto)]

mod frame;
mod shifts;

use feed::Mapped;
pub use shifts::Shifts;

// A feed with the frames of each line shifted.
pub type Shifted<F> = Mapped<F, Shifts>;
