ghost use Rattle.listing.specs.Judged.{header_judged};
ghost use Rattle.std.specs.Prelude.{◌≡◌};

use common::Fault;
use wire::{Frame, Header};

// The header of a frame that passes all checks, or the first check that fails.
pub fn judge(bytes: &[u8]) -> Result<Header, Fault>
    ensures { result ≡ header_judged bytes.now }
{
    let (header, _) = Frame::read_headed(bytes)?;
    Ok(header)
}
