ghost use Rattle.concentrator.specs.Wholes.{whole};
ghost use Rattle.runs.specs.Tickets.{number_held, ticket_out};
ghost use Rattle.std.specs.Prelude.{◌≡◌};

use concentrator::{Concentrator, Ticket};
use feed::Feed;
use policy::Policy;

// A concentrator and, while it is out, its ticket. A ticket has to be spent, so a host is let go by
// `close` alone.
pub struct Host<F: Feed, P: Policy> {
    pub(crate) concentrator: Concentrator<F, P>,
    pub(crate) ticket: Option<Ticket>,
    ghost held: { number_held ticket ≡ ticket_out (whole concentrator) },
}
