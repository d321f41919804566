ghost use Rattle.shift.specs.Shifts.{moved as moved_to, shifted, target as target_of};
ghost use Rattle.std.specs.Prelude.{◌≡◌};

use fields::u32_at;
use wire::{Frame, seal};

// Where SOC stands in every frame.
const SOC: usize = 6;

// The second that lies `seconds` after `soc`; none if it is the same or does not fit SOC.
fn moved(soc: u32, seconds: i32) -> Option<u32>
    ensures { result ≡ moved_to seconds soc }
{
    if seconds == 0 {
        return None;
    }
    soc.checked_add_signed(seconds)
}

// The SOC that a sound frame gets, if its SOC moves.
fn target(frame: &[u8], seconds: i32) -> Option<u32>
    ensures { result ≡ target_of seconds frame.now }
{
    Frame::read(frame).ok()?;
    moved(u32_at(frame, SOC)?, seconds)
}

// Moves a sound frame by whole seconds, with a fresh check word.
pub(crate) fn shift(frame: &mut [u8], seconds: i32)
    ensures { frame.new ≡ shifted seconds frame.old }
{
    if let Some(soc) = target(frame, seconds) {
        frame[SOC..SOC + 4].copy_from_slice(&soc.to_be_bytes());
        seal(frame);
    }
}
