//! Commits that wait.
ghost use Rattle.std.specs.Prelude.{◌≡◌};

use chains::Frozen;
use deltas::Image;
use extents::Extent;
use std::marker::Model;
use wire::Member;

/// An extent that was taken, with the bytes that are to be written there.
pub struct StoredExtent {
    pub extent: Extent,
    pub image: Image,
}

/// A commit that waits for its group's gate: what its slot is to say of it, the versions after it,
/// and its extents in the order of its chain.
pub struct Queued {
    entry: Member,
    after: Frozen,
    // Up to which mark the versions have forgotten what ended, in microseconds since 1970.
    reclaimed: u64,
    stored: Vec<StoredExtent>,
}

/// The parts of a commit that waits no longer.
pub struct QueuedParts {
    pub entry: Member,
    pub after: Frozen,
    pub stored: Vec<StoredExtent>,
}

impl Model for Queued {
    ghost use Rattle.group.specs.Queued.{QueuedValue};

    ghost Value = { QueuedValue };

    ghost view = { λ q. record { entry = q.entry; after = q.after; reclaimed = q.reclaimed; stored = q.stored.items } };
}

impl Queued {
    /// A commit with these versions after it, which have forgotten what ended by the reclaim mark
    /// `reclaimed` in microseconds since 1970, stored in these extents.
    pub fn new(entry: Member, after: Frozen, reclaimed: u64, stored: Vec<StoredExtent>) -> Self
        ensures { result ≡ record { entry = entry; after = after; reclaimed = reclaimed; stored = stored.items } }
    {
        Queued {
            entry,
            after,
            reclaimed,
            stored,
        }
    }

    /// What its slot is to say of it.
    pub fn entry(&self) -> Member
        ensures { result ≡ self.now.entry }
    {
        self.entry
    }

    /// The versions after it.
    pub fn after(&self) -> &Frozen
        ensures { result.now ≡ self.now.after }
    {
        &self.after
    }

    /// The reclaim mark, up to which these versions have forgotten what ended, in microseconds
    /// since 1970.
    pub fn reclaimed(&self) -> u64
        ensures { result ≡ self.now.reclaimed }
    {
        self.reclaimed
    }

    /// The versions after it are these, which have forgotten what ended by the reclaim mark.
    pub fn forget(&mut self, after: Frozen, mark: u64)
        ensures { self.new ≡ record self.old { after = after; reclaimed = mark } }
    {
        self.after = after;
        self.reclaimed = mark;
    }

    /// Its extents with their bytes, in the order of its chain.
    pub fn stored(&self) -> &[StoredExtent]
        ensures { result.now ≡ self.now.stored }
    {
        self.stored.as_slice()
    }

    /// Its parts.
    pub fn spend(self) -> QueuedParts
        ensures entry { result.entry ≡ self.entry }
        ensures after { result.after ≡ self.after }
        ensures stored { result.stored.items ≡ self.stored }
    {
        let Queued {
            entry,
            after,
            reclaimed: _,
            stored,
        } = self;
        QueuedParts {
            entry,
            after,
            stored,
        }
    }
}
