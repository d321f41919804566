ghost use Rattle.combined.specs.Frames.{slot_length};
ghost use Rattle.concentrator.specs.Calls.{admit_said, admitted, frame_of, length_by, lent, number_by, pull_buffer, pull_said, pulled as pulled_to, take_said, tick_said, ticked, write_said, wrote};
ghost use Rattle.concentrator.specs.Wholes.{whole};
ghost use Rattle.std.specs.Prelude.{◌≡◌, ◌≤◌, length, IfOk, OnErr};
ghost use Rattle.fields.specs.Fields.{left_by};

use crate::concentrator::Concentrator;
use crate::ticket::Ticket;
use common::{Fault, Port};
use feed::{Feed, check_room};
use policy::Policy;

// A frame that was pulled from the feed: its line, its length, and what became of it.
// Its fields side by side, as a host copies them into its journal: with a `Taken` within, it would be no plainer.
#[derive(Clone, Copy)]
pub struct Pulled {
    pub port: Port,
    pub len: usize,
    pub verdict: Result<(), Fault>,
}

// A slot's frame that was written: its length, as that of a `Taken`, since a lent front would keep the buffer.
#[derive(Clone, Copy)]
pub struct Written {
    pub len: usize,
}

impl<F: Feed, P: Policy> Concentrator<F, P> {
    // Takes a reading of the clock: ticks the feed with the latest one, and closes slots. A lent buffer
    // shorter than the longest frame is refused; else it may be used as scratch.
    pub fn tick(&mut self, reading: u64, scratch: &mut [u8]) -> Result<(), Fault>
        ensures answer { result ≡ tick_said (whole self.old) reading scratch.old }
        ensures next { whole self.new ≡ ticked (whole self.old) reading scratch.old }
        ensures refused { OnErr result (scratch.new ≡ scratch.old) }
    {
        self.engine.check()?;
        check_room(scratch)?;
        let latest = self.engine.tick(&self.policy, reading)?;
        self.feed.tick(latest, scratch)
    }

    // Takes one frame for a port: judges it, and keeps it if it is accepted.
    pub fn admit(&mut self, port: Port, frame: &[u8]) -> Result<(), Fault>
        ensures answer { result ≡ admit_said (whole self.old) port.0 frame.now }
        ensures next { whole self.new ≡ admitted (whole self.old) port.0 frame.now }
    {
        self.engine.admit(&self.policy, port, frame)
    }

    // Takes the next frame of the feed, which is left at the buffer's front, and judges it.
    pub fn pull(&mut self, buffer: &mut [u8]) -> Result<Pulled, Fault>
        ensures answer { result ≡ pull_said (whole self.old) buffer.old }
        ensures fits { IfOk result (λ p. p.len ≤ length buffer.old) }
        ensures frame { buffer.new ≡ pull_buffer (whole self.old) buffer.old }
        ensures next { whole self.new ≡ pulled_to (whole self.old) buffer.old }
    {
        self.engine.check()?;
        check_room(buffer)?;
        self.engine.check_count()?;
        let taken = self.feed.next(buffer)?;
        let frame = &buffer[..taken.len];
        let verdict = self.engine.admit(&self.policy, taken.port, frame);
        Ok(Pulled {
            port: taken.port,
            len: taken.len,
            verdict,
        })
    }

    // Hands out the ticket of the oldest closed, unwritten slot.
    pub fn take(&mut self) -> Result<Ticket, Fault>
        ensures answer { number_by result ≡ take_said (whole self.old) }
        ensures next { whole self.new ≡ lent (whole self.old) }
    {
        let number = self.engine.take()?;
        Ok(Ticket { number })
    }

    // The length of each frame that is written: a longer buffer changes nothing.
    pub fn frame_len(&self) -> usize
        ensures length { result ≡ slot_length (whole self.now).setting.ports }
        ensures few { result ≤ 1040 }
    {
        self.engine.frame_len()
    }

    // Writes the slot of the ticket, which is spent in every case, to the buffer's front.
    pub fn write(&mut self, ticket: Ticket, out: &mut [u8]) -> Result<Written, Fault>
        ensures answer { length_by result ≡ write_said (whole self.old) ticket.number (length out.old) }
        ensures fits { IfOk result (λ w. w.len ≤ length out.old) }
        ensures frame { out.new ≡ left_by (length_by result) (frame_of (whole self.old) ticket.number) out.old }
        ensures long { IfOk result (λ w. w.len ≡ length (frame_of (whole self.old) ticket.number)) }
        ensures next { whole self.new ≡ wrote (whole self.old) ticket.number (length out.old) }
    {
        let number = ticket.spend();
        let len = self.engine.write(number, out)?;
        Ok(Written { len })
    }
}
