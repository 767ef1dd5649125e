//! Tickets.
ghost use Rattle.std.specs.Prelude.{◌≡◌};

/// The right to end one job. It is neither copied nor let go: closing the job or giving it up takes it in.
pub struct Ticket {
    number: u64,
}

impl Ticket {
    /// The number by which its job is known: the smallest of its tables.
    pub fn number(&self) -> u64
        ensures { result ≡ self.now.number }
    {
        self.number
    }

    // The ticket of a job that was booked.
    pub(crate) fn of(number: u64) -> Ticket
        ensures { result.number ≡ number }
    {
        Ticket { number }
    }

    // Takes the ticket in. Its number.
    pub(crate) fn spent(self) -> u64
        ensures { result ≡ self.number }
    {
        let Ticket { number } = self;
        number
    }
}
