use common::{Fault, IdCode};
use concentrator::Concentrator;
use feed::Silent;
use plan::Plan;
use policy::Absolute;

// A box that is fed by hand.
pub(crate) type Hub = Concentrator<Silent, Absolute>;

// A line of the sender 101 at 120 frames a second, whose only station has no channels. Its check
// word was worked out elsewhere.
const LINE: &[u8; 54] =
    b"\xaa\x32\x00\x36\x00\x65\x00\x00\x00\x00\x00\x00\x00\x00\x00\x0f\x42\x40\x00\x01                \x03\xeb\x00\x00\x00\x00\x00\x00\x00\x00\x00\x00\x00\x00\x00\x78\x2b\x15";

// A box of one line, whose first slot, 120,000, is closed on opening. Its frames have 22 bytes.
pub(crate) fn open(id: u16) -> Result<Hub, Fault> {
    let mut plan = Plan::begin(IdCode(id), 120);
    let mut buffer = [0; 54];
    plan.add(LINE, &mut buffer)?;
    Ok(Concentrator::open(&plan, Silent, Absolute::new(0), 1_000_000_000))
}
