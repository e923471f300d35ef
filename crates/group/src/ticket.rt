//! What a caller holds of a commit that was queued.
ghost use Rattle.std.specs.Prelude.{◌≡◌};

use std::marker::Model;

/// The right to learn what became of one commit. It is redeemed, or given up; it can't be dropped.
pub struct Ticket {
    mark: u64,
    time: u64,
}

impl Model for Ticket {
    ghost use Rattle.group.specs.Tickets.{TicketValue};

    ghost Value = { TicketValue };

    ghost view = { λ t. record { mark = t.mark; time = t.time } };
}

impl Ticket {
    /// The ticket of the commit of this time, with this store mark.
    pub fn new(mark: u64, time: u64) -> Self
        ensures { result ≡ record { mark = mark; time = time } }
    {
        Ticket { mark, time }
    }

    /// The store mark of the store that gave it out.
    pub fn mark(&self) -> u64
        ensures { result ≡ self.now.mark }
    {
        self.mark
    }

    /// The time of its commit, in microseconds since 1970.
    pub fn time(&self) -> u64
        ensures { result ≡ self.now.time }
    {
        self.time
    }

    /// Spends the ticket. It asks nothing and changes nothing: the commit goes its way.
    pub fn give_up(self) {
        let Ticket { mark: _, time: _ } = self;
    }
}
