//! What of a store is archived.
ghost use Rattle.std.specs.Prelude.{◌≡◌, IfOk};
ghost use Rattle.store.specs.Opens.{IsUnread};

use archive::RunEntry;
use std::alloc::{AllocError, Global};
use timequery::StoreArchive;

/// The archive as far as the log names it.
#[derive(Drop)]
pub(crate) struct Archived {
    /// The archive mark, in microseconds since 1970.
    pub(crate) upto: u64,
    /// Where the last run of the log ends, in bytes.
    pub(crate) runs_end: u64,
    pub(crate) archive: StoreArchive,
}

impl Archived {
    /// That of a log with these runs, of which nothing is read.
    pub(crate) fn new(
        alloc: Global,
        upto: u64,
        runs_end: u64,
        runs: Vec<RunEntry>,
    ) -> Result<Self, AllocError>
        ensures upto { IfOk result (λ a. a.upto ≡ upto) }
        ensures end { IfOk result (λ a. a.runs_end ≡ runs_end) }
        ensures unread { IfOk result (λ a. IsUnread runs.items a.archive) }
    {
        Ok(Archived {
            upto,
            runs_end,
            archive: StoreArchive::new(alloc, runs)?,
        })
    }
}
