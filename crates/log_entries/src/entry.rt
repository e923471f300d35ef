//! What a chain of the log says. Times are microseconds since 1970; starts and lengths are bytes of the archive.

use crate::listed::Listed;
use deltas::Record;
use wire::Run;

/// A commit of a group.
#[derive(Drop)]
pub struct Member {
    /// The caller's own number for it.
    pub label: u64,
    pub time: u64,
    /// What it writes, in strictly rising key order: values, deltas and deletions.
    pub records: Listed<Record>,
}

/// A run of the archive.
#[derive(Clone, Copy, Debug, PartialEq, Eq)]
pub struct Archive {
    /// Versions that ended up to this time are archived.
    pub upto: u64,
    pub start: u64,
    pub len: u64,
    pub records: u64,
    /// How many of the last runs before it this run takes the place of.
    pub runs: u16,
}

/// The time from which on the history of one relation is answered.
#[derive(Clone, Copy, Debug, PartialEq, Eq)]
pub struct RelationFloor {
    pub relation: u16,
    pub floor: u64,
}

/// Names of commits in the archive.
#[derive(Clone, Copy, Debug, PartialEq, Eq)]
pub struct Roll {
    pub start: u64,
    pub len: u64,
}

/// The chain of a base's anchors: its first extent, how many it has, and how many records they hold. All three are
/// 0 where there is none.
#[derive(Clone, Copy, Debug, PartialEq, Eq)]
pub struct AnchorName {
    pub first: u32,
    pub extents: u32,
    pub records: u32,
}

/// What a reclaim put in the place of the log's first chains.
#[derive(Drop)]
pub struct Base {
    /// Commits up to this time are in the archive and the anchors alone.
    pub upto: u64,
    pub anchors: AnchorName,
    pub rolls: Listed<Roll>,
    pub archives: Listed<Archive>,
    /// By rising relation.
    pub floors: Listed<RelationFloor>,
}

/// What one chain of the log holds.
#[derive(Drop)]
pub enum Entry {
    /// Commits that one gate opens together.
    Group(Listed<Member>),
    Archived(Archive),
    Floor(RelationFloor),
    Base(Base),
}

ghost use Rattle.std.specs.Prelude.{◌≡◌};
ghost use Rattle.log_entries.specs.Ranges.{run_of};

impl Archive {
    /// The run as a slot of the other profiles says it.
    pub fn run(&self) -> Run
        ensures { result ≡ run_of self.now }
    {
        Run {
            upto: self.upto,
            start: self.start,
            len: self.len,
            records: self.records,
        }
    }
}
