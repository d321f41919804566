ghost use Rattle.runs.specs.Tickets.{held_after, number_held};
ghost use Rattle.std.specs.Prelude.{◌≡◌};

use concentrator::Ticket;

// The ticket of that number: the one that is held, if it has it, else a new one.
pub(crate) fn ticket_for(held: &mut Option<Ticket>, number: u64) -> Ticket
    ensures number { result.number ≡ number }
    ensures left { number_held held.new ≡ held_after (number_held held.old) number }
{
    held.take_if(|ticket| ticket.number() == number)
        .unwrap_or_else(|| Ticket::of(number))
}
