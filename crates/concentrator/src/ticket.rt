ghost use Rattle.std.specs.Prelude.{◌≡◌};

// The right to write the slot of this number. It has to be spent by a write, if need be to an empty
// buffer: the type has no `Drop`, and only this crate can take one apart, so a program that lets one
// go is refused.
pub struct Ticket {
    pub(crate) number: u64,
}

impl Ticket {
    // The ticket of a number. A ticket is known by its number alone.
    // No `From`: that a number is made a ticket is to be seen where it is done.
    pub fn of(number: u64) -> Ticket
        ensures { result.number ≡ number }
    {
        Ticket { number }
    }

    // The number of the ticket's slot. No `From`: it would take the ticket, which only a write spends.
    pub fn number(&self) -> u64
        ensures { result ≡ self.now.number }
    {
        self.number
    }

    pub(crate) fn spend(self) -> u64
        ensures { result ≡ self.number }
    {
        let Ticket { number } = self;
        number
    }
}
