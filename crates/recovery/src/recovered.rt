//! What is read of a store's image.

ghost use Rattle.std.specs.Prelude.{◌≤◌, ◌<◌, ◌^◌};
ghost use Rattle.chains.specs.KeyWrites.{latest};

use archive::RunEntry;
use chains::Frozen;
use extents::Extents;
use floors::Floors;
use status::Header;
use wire::Member;

/// The extents of a commit's chain that the log names, in their order, and the time of the commit.
#[derive(Drop)]
pub struct LiveChain {
    pub time: u64,
    pub extents: Vec<u32>,
}

/// What was read of the heap: which extents are in a chain, the commits' chains in rising time, and the writes of
/// all chains' records.
#[derive(Drop)]
pub struct HeapRead {
    pub extents: Extents,
    pub live: Vec<LiveChain>,
    pub chains: Frozen,
    /// The time of the last commit that was read, or the reclaim mark before the first.
    pub last: u64,
    ghost upto_last: { latest chains ≤ last },
    ghost in_range: { last < 2 ^ 63 },
}

/// What a store's image says.
#[derive(Drop)]
pub struct Recovered {
    pub header: Header,
    /// How many slots the log has.
    pub used: u32,
    /// The commits of the log, in its order, as their slots name them.
    pub commits: Vec<Member>,
    pub floors: Floors,
    /// The archive mark and the reclaim mark of the log, in microseconds since 1970; 0 for none.
    pub archived: u64,
    pub reclaimed: u64,
    /// The runs of the archive, in the log's order, each with the archive mark and the floors before its slot.
    pub runs: Vec<RunEntry>,
    /// The byte of the archive at which the last run ends, 0 for none.
    pub runs_end: u64,
    /// The extents of the live chains are used, and the others are free.
    pub extents: Extents,
    /// The live chains of commits; that of the anchors is none of them.
    pub live: Vec<LiveChain>,
    /// The writes later than the reclaim mark, of each key, and before them that of its anchor.
    pub chains: Frozen,
    /// The time of the last commit, in microseconds since 1970; 0 for none.
    pub last: u64,
}
