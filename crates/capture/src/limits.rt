ghost use Rattle.capture.specs.Records.{limited};
ghost use Rattle.std.specs.Prelude.{◌≡◌};

use common::{LAST_READING, LONGEST_FRAME};

// The highest number of a line.
const LAST_PORT: u8 = 15;

// Whether a record may stand behind one with the reading `low`.
pub(crate) fn within_limits(low: u64, reading: u64, port: u8, len: u16) -> bool
    ensures { result ≡ limited low reading port len }
{
    (low..=LAST_READING).contains(&reading)
        && port <= LAST_PORT
        && (1..=LONGEST_FRAME).contains(&usize::from(len))
}
