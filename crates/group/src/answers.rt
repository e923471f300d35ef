//! What the calls of a store answer.
use crate::ticket::Ticket;
use history::Key;

/// What a submit answers where it isn't refused.
pub enum Submitted {
    /// Nothing was written. The number is the time of the snapshot, in microseconds since 1970.
    ReadOnly(u64),
    /// The commit waits.
    Queued(Ticket),
}

/// Why a submit is refused, in the order in which the refusals go before one another but for the
/// last two: `Stranger` goes before all, then `Failed`. The transaction is over after each.
#[derive(Clone, Copy, Debug, PartialEq, Eq)]
pub enum SubmitFault {
    /// The least key of the write set that a commit later than the snapshot wrote too.
    Conflict(Key),
    /// The records need more extents than are free.
    HeapFull,
    /// Too few slots of the status log are left.
    StatusFull,
    /// No commit time is left: the last is 2^63 - 1.
    ClockEnd,
    NoMemory,
    /// A write or sync of the device was refused, in this call or before.
    Failed,
    /// The transaction is not one of this store's.
    Stranger,
}

/// What a step of a group did.
#[derive(Clone, Copy, Debug, PartialEq, Eq)]
pub enum Did {
    /// Nothing: there is no group, and nothing waits.
    Idle,
    WroteExtent,
    HeapSynced,
    BodyWritten,
    BodySynced,
    GateWritten,
    /// That many commits are published.
    Published(u32),
}

/// Why a step of a group is refused.
#[derive(Clone, Copy, Debug, PartialEq, Eq)]
pub enum PumpFault {
    /// A job's slot is in the writing, and the group would begin its own.
    Busy,
    /// Nothing has changed, and the step may be asked for again.
    NoMemory,
    /// A write or sync of the device was refused, in this call or before.
    Failed,
}

/// What becomes of a ticket that is shown.
pub enum Redeemed {
    /// The commit is published, with this time in microseconds since 1970.
    Done(u64),
    /// The commit waits, and the ticket comes back.
    Waiting(Ticket),
    /// The device failed before the commit was published: it may be found after a reopening, or not.
    InDoubt,
    /// The ticket is not one of this store's, or was redeemed before.
    Stranger,
}

/// Why no transaction begins.
#[derive(Clone, Copy, Debug, PartialEq, Eq)]
pub enum BeginFault {
    NoMemory,
    /// A write or sync of the device was refused.
    Failed,
}
