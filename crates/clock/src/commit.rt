//! Commit times, each greater than every earlier one.
ghost use Rattle.std.specs.Prelude.{◌≡◌, ℕ, ◌<◌, ◌^◌, ◌↔◌, IfOk, OnErr, IsOk};
ghost use Rattle.clock.specs.Commit.{next_time};

use history::LAST_TIME;
use std::marker::Model;

/// The next commit time would pass `LAST_TIME`.
#[derive(Clone, Copy, Debug, PartialEq, Eq)]
pub struct ClockEnd;

/// Gives commit times, in microseconds since 1970. Its value is the last time given, or that it began with.
#[derive(Drop)]
pub struct CommitClock {
    last: u64,
}

impl Model for CommitClock {
    ghost Value = { ℕ };

    ghost view = { λ c. c.last };
}

impl CommitClock {
    /// A clock whose times are later than `last`; 0 where nothing was committed yet.
    pub fn new(last: u64) -> CommitClock
        ensures { result ≡ last }
    {
        CommitClock { last }
    }

    /// The time that was given last, or that the clock began with.
    pub fn last(&self) -> u64
        ensures { result ≡ self.now }
    {
        self.last
    }

    /// The time of the next commit: `now`, or the one after the last where that is later.
    ///
    /// # Errors
    ///
    /// Where that time would pass `LAST_TIME`. The clock then stays as it was.
    pub fn next(&mut self, now: u64) -> Result<u64, ClockEnd>
        ensures succeeds { IsOk result ↔ (next_time self.old now < 2 ^ 63) }
        ensures time { IfOk result (λ t. t ≡ next_time self.old now) }
        ensures later { IfOk result (λ t. self.old < t) }
        ensures ok { IfOk result (λ t. self.new ≡ t) }
        ensures err { OnErr result (self.new ≡ self.old) }
    {
        if self.last >= LAST_TIME || now > LAST_TIME {
            return Err(ClockEnd);
        }
        let time = now.max(self.last + 1);
        self.last = time;
        Ok(time)
    }
}
