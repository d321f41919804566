ghost use Rattle.std.specs.Prelude.{◌≡◌, ◌≤◌, length, IfOk};

use crate::call::Call;
use common::{Fault, Port};
use concentrator::{Concentrator, Pulled, Ticket, Written};
use policy::Absolute;
use recorded::Recorded;

// The concentrator that is measured.
pub type Hub<'a> = Concentrator<Recorded<'a>, Absolute>;

// Each call has a function of its own that is never inlined, so that a profile shows what it costs.
#[inline(never)]
fn tick(hub: &mut Hub, reading: u64, scratch: &mut [u8]) -> Result<(), Fault> {
    hub.tick(reading, scratch)
}

#[inline(never)]
fn admit(hub: &mut Hub, port: Port, frame: &[u8]) -> Result<(), Fault> {
    hub.admit(port, frame)
}

#[inline(never)]
fn pull(hub: &mut Hub, buffer: &mut [u8]) -> Result<Pulled, Fault> {
    hub.pull(buffer)
}

#[inline(never)]
fn take(hub: &mut Hub) -> Result<Ticket, Fault> {
    hub.take()
}

#[inline(never)]
fn write(hub: &mut Hub, ticket: Ticket, out: &mut [u8]) -> Result<Written, Fault>
    ensures { IfOk result (λ w. w.len ≤ length out.old) }
{
    hub.write(ticket, out)
}

// Makes a call, and answers how many bytes it wrote to the buffer's front for a slot. A pulled frame's
// refusal is answered as that of an admitted one.
pub fn make(hub: &mut Hub, call: Call, buffer: &mut [u8]) -> Result<usize, Fault>
    ensures { IfOk result (λ n. n ≤ length buffer.old) }
{
    match call {
        Call::Tick(reading) => tick(hub, reading, buffer)?,
        Call::Admit(port, frame) => admit(hub, port, frame)?,
        Call::Pull => pull(hub, buffer)?.verdict?,
        Call::Write => {
            let ticket = take(hub)?;
            return Ok(write(hub, ticket, buffer)?.len);
        }
    }
    Ok(0)
}
