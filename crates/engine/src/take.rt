ghost use Rattle.engine.specs.States.{lent, take_said};
ghost use Rattle.engine.specs.Views.{state_of};
ghost use Rattle.std.specs.Prelude.{◌≡◌};

use crate::engine::Engine;
use common::Fault;

impl Engine {
    // Lends the oldest closed, unwritten slot, and answers its number.
    pub fn take(&mut self) -> Result<u64, Fault>
        ensures answer { result ≡ take_said (state_of self.old) }
        ensures next { state_of self.new ≡ lent (state_of self.old) }
    {
        self.check()?;
        if self.ticket_out {
            return Err(Fault::TicketOut);
        }
        let oldest = self.oldest();
        if oldest >= self.front {
            return Err(Fault::NoneClosed);
        }
        self.ticket_out = true;
        Ok(oldest)
    }
}
