ghost use Rattle.concentrator.specs.Calls.{frame_of, lent, pull_buffer, pull_said, pulled, take_said, tick_said, ticked, write_said, wrote};
ghost use Rattle.runs.specs.Entries.{due, frame_by, front_by};
ghost use Rattle.laws.specs.Journal.{Journal, ◌▹◌};
ghost use Rattle.runs.specs.Events.{event_of};
ghost use Rattle.runs.specs.Given.{bytes_by, entry_of, pulled_by, request_of, standing, takes_room};
ghost use Rattle.runs.specs.Kept.{Kept};
ghost use Rattle.runs.specs.Standing.{Opening, Reached};
ghost use Rattle.runs.specs.Requests.{leaves};
ghost use Rattle.std.specs.Prelude.{◌≡◌, false, IfOk, IsOk, OnErr, replicate};

use crate::call::Call;
use crate::entry::{Entry, PulledFrame};
use crate::host::Host;
use crate::tickets::ticket_for;
use common::Fault;
use feed::{Feed, LONGEST_FRAME};
use policy::Policy;
use std::alloc::{AllocError, Global};

impl<F: Feed, P: Policy> Host<F, P> {
    // Ticks with a scratch buffer, of which no more than the longest frame is lent. Out of line, since a function
    // pays at its entry for all that it keeps on the stack.
    #[inline(never)]
    fn tick(&mut self, reading: u64, room: usize) -> Result<(), Fault>
        ensures answer { result ≡ tick_said (standing self.old) reading (replicate room 0) }
        ensures next { standing self.new ≡ ticked (standing self.old) reading (replicate room 0) }
    {
        let mut scratch = [0; LONGEST_FRAME];
        self.concentrator
            .tick(reading, &mut scratch[..room.min(LONGEST_FRAME)])
    }

    // Pulls into a new buffer. That without memory nothing changes stands in each: an invariant speaks of one
    // state.
    fn pull(&mut self, heap: Global, room: usize) -> Result<Result<PulledFrame, Fault>, AllocError>
        ensures answer { IfOk result (λ a. pulled_by a ≡ front_by (pull_buffer (standing self.old) (replicate room 0)) (pull_said (standing self.old) (replicate room 0))) }
        ensures next { IfOk result (λ a. standing self.new ≡ pulled (standing self.old) (replicate room 0)) }
        ensures err { OnErr result (standing self.new ≡ standing self.old) }
    {
        let mut frame = vec![in heap; 0; room.min(LONGEST_FRAME)]?;
        let pulled = self.concentrator.pull(&mut frame);
        Ok(pulled.map(|pulled| {
            frame.truncate(pulled.len);
            PulledFrame {
                port: pulled.port,
                frame,
                verdict: pulled.verdict,
            }
        }))
    }

    // Takes a ticket, and holds it.
    fn take(&mut self) -> Result<u64, Fault>
        ensures answer { result ≡ take_said (standing self.old) }
        ensures next { standing self.new ≡ lent (standing self.old) }
    {
        let ticket = self.concentrator.take()?;
        let number = ticket.number();
        match self.ticket.replace(ticket) {
            None => Ok(number),
            // while one is held none is handed out
            Some(before) => {
                let _ = self.concentrator.write(before, &mut []);
                unreachable!()
            }
        }
    }

    // Writes into a new buffer, with the ticket that is held if it has the number, else with a new one. Apart
    // from `pull`: one function for both would take the call as a closure, and promise in terms of the
    // closure's promise.
    fn write(
        &mut self,
        heap: Global,
        number: u64,
        room: usize,
    ) -> Result<Result<Vec<u8>, Fault>, AllocError>
        ensures answer { IfOk result (λ a. bytes_by a ≡ frame_by (frame_of (standing self.old) number) (write_said (standing self.old) number room)) }
        ensures next { IfOk result (λ a. standing self.new ≡ wrote (standing self.old) number room) }
        ensures err { OnErr result (standing self.new ≡ standing self.old) }
    {
        let mut frame = vec![in heap; 0; room.min(self.concentrator.frame_len())]?;
        let ticket = ticket_for(&mut self.ticket, number);
        let written = self.concentrator.write(ticket, &mut frame);
        Ok(written.map(|written| {
            frame.truncate(written.len);
            frame
        }))
    }

    // Makes the call on the concentrator, in a new buffer where it is lent one.
    fn perform<'a>(&mut self, heap: Global, call: Call<'a>) -> Result<Entry<'a>, AllocError>
        ensures entry { IfOk result (λ e. entry_of e ≡ due (standing self.old) (request_of call.entry)) }
        ensures next { IfOk result (λ e. standing self.new ≡ leaves (standing self.old) (request_of call.entry)) }
        ensures err { OnErr result (standing self.new ≡ standing self.old) }
        ensures roomless { takes_room call.entry ≡ false → IsOk result }
    {
        Ok(match call {
            Call::Tick { reading, room } => Entry::Tick {
                reading,
                room,
                answer: self.tick(reading, room),
            },
            Call::Admit { port, frame } => Entry::Admit {
                port,
                frame,
                answer: self.concentrator.admit(port, frame),
            },
            Call::Pull { room } => Entry::Pull {
                room,
                answer: self.pull(heap, room)?,
            },
            Call::Take => Entry::Take {
                answer: self.take(),
            },
            Call::Write { ticket, room } => Entry::Write {
                ticket,
                room,
                answer: self.write(heap, ticket, room)?,
            },
            Call::Counts => Entry::Counts {
                answer: self.concentrator.counts(),
            },
        })
    }

    // Makes one call, and answers the entry of a journal, as with a new buffer of the length that the call says;
    // no more of it is made than the call can use. Without memory for it the call is not made.
    pub fn make<'a>(&mut self, heap: Global, call: Call<'a>) -> Result<Entry<'a>, AllocError>
        ensures entry { IfOk result (λ e. entry_of e ≡ due (standing self.old) (request_of call.entry)) }
        ensures next { IfOk result (λ e. standing self.new ≡ leaves (standing self.old) (request_of call.entry)) }
        ensures law { IfOk result (λ e. (o : Opening) (before : Journal) → Reached o before (standing self.old) → Kept o (before ▹ event_of (entry_of e)) (standing self.new)) }
        ensures goes_on { IfOk result (λ e. (o : Opening) (before : Journal) → Reached o before (standing self.old) → Reached o (before ▹ event_of (entry_of e)) (standing self.new)) }
        ensures err { OnErr result (standing self.new ≡ standing self.old) }
        ensures roomless { takes_room call.entry ≡ false → IsOk result }
    {
        self.perform(heap, call)
    }
}
