//! A commit that waits.
ghost use Rattle.std.specs.Prelude.{◌≡◌};

use chains::Frozen;
use std::marker::Model;

/// A commit that waits for its group to be written: its time and label, and the versions after it.
#[derive(Drop)]
pub struct Waiting {
    time: u64,
    label: u64,
    after: Frozen,
    // Up to which mark the versions have forgotten what ended, in microseconds since 1970.
    reclaimed: u64,
}

impl Model for Waiting {
    ghost use Rattle.commits.specs.Values.{WaitingValue};

    ghost Value = { WaitingValue };

    ghost view = { λ w. record { time = w.time; label = w.label; after = w.after; reclaimed = w.reclaimed } };
}

impl Waiting {
    /// A commit of this time, in microseconds since 1970, with this label and these versions after it,
    /// which have forgotten what ended by the reclaim mark `reclaimed`.
    pub fn new(time: u64, label: u64, after: Frozen, reclaimed: u64) -> Self
        ensures { result ≡ record { time = time; label = label; after = after; reclaimed = reclaimed } }
    {
        Waiting {
            time,
            label,
            after,
            reclaimed,
        }
    }

    /// Its time, in microseconds since 1970.
    pub fn time(&self) -> u64
        ensures { result ≡ self.now.time }
    {
        self.time
    }

    /// The versions after it.
    pub fn after(&self) -> &Frozen
        ensures { result.now ≡ self.now.after }
    {
        &self.after
    }

    /// The reclaim mark, up to which these versions have forgotten what ended, in microseconds
    /// since 1970.
    pub fn reclaimed(&self) -> u64
        ensures { result ≡ self.now.reclaimed }
    {
        self.reclaimed
    }

    /// The versions after it, where it waits no longer.
    pub fn into_after(self) -> Frozen
        ensures { result ≡ self.after }
    {
        self.after
    }
}
