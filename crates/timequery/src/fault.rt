//! Why a query is refused.

ghost use Rattle.std.specs.Prelude.{◌≡◌};

use archive::ArchiveFault;
use std::alloc::{AllocError, AllocFailed};

/// The faults of a query, in the order in which they are tested; a stranger's view comes first.
#[derive(Clone, Copy, Debug, PartialEq, Eq)]
pub enum QueryFault {
    /// A time before the floor of the relation, which is named (microseconds since 1970): history before it may be gone.
    BeforeKept(u64),
    /// A time later than the last commit of the view, whose time is named: a later commit may still change the answer.
    NotYet(u64),
    /// An interval that ends where it begins, or before.
    EmptyInterval,
    /// The disk refused a read.
    Device,
    NoMemory,
    /// A run of the archive is malformed; the place of its start is named, in bytes.
    Damaged(u64),
    /// The answer needs the archive, and so the store.
    NeedsDisk,
    /// The view is another store's.
    Stranger,
}

impl From<ArchiveFault> for QueryFault {
    ghost use Rattle.timequery.specs.Faults.{query_fault};

    ghost from_gives = { λ why fault. fault ≡ query_fault why };

    fn from(why: ArchiveFault) -> Self {
        match why {
            ArchiveFault::Device => QueryFault::Device,
            ArchiveFault::NoMemory => QueryFault::NoMemory,
            ArchiveFault::Damaged(start) => QueryFault::Damaged(start),
        }
    }
}

impl From<AllocError> for QueryFault {
    ghost use Rattle.timequery.specs.declared.fault.QueryFault.{QueryFault};

    ghost from_gives = { λ _ fault. fault ≡ QueryFault.NoMemory };

    fn from(_: AllocError) -> Self {
        QueryFault::NoMemory
    }
}

impl<T: Drop> From<AllocFailed<T>> for QueryFault {
    ghost use Rattle.timequery.specs.declared.fault.QueryFault.{QueryFault};

    ghost from_gives = { λ _ fault. fault ≡ QueryFault.NoMemory };

    fn from(_: AllocFailed<T>) -> Self {
        QueryFault::NoMemory
    }
}
