//! Opening a store.
ghost use Rattle.std.specs.Prelude.{◌≡◌, ◌<◌, ◌^◌, ◌↔◌, IsTrue, IfOk, IfErr, MatchOption, MatchResult, map};
ghost use Rattle.std.specs.List.{AllByRecursion};
ghost use Rattle.wire.specs.Spelling.{IsRun};
ghost use Rattle.group.specs.CommitOrder.{IsRisingAfter, last_time};
ghost use Rattle.log_store.specs.Opens.{head_as, AreEntriesFrom, AreInOrder, commits_on, IsPartsFault, ArePartsOf, Opens, OpenRefuses};

use crate::live::{Live, are_live};
use crate::named::Named;
use crate::store::LogStore;
use archive::RunEntry;
use commits::Commits;
use disk::{Area, Disk};
use floors::Floors;
use group::CommitHead;
use log_recovery::{CommitName, LogEnd, LogHeap, LogRecovered, MembersRead, read_log};
use log_room::HeapRoom;
use log_roots::Roots;
use recovery::OpenFault;
use std::alloc::{AllocError, Global};
use std::collections::VecDeque;
use timequery::StoreArchive;
use wire::Run;

/// Commit times are less than this, in microseconds since 1970.
const TIME_END: u64 = 1 << 63;

// Whether a commit of this time may come behind one of that time.
fn is_next_time(last: u64, time: u64) -> bool
    ensures { IsTrue result ↔ ((last < time) × (time < 2 ^ 63)) }
{
    last < time && time < TIME_END
}

// The commits of the log as they stand in the commit order, and the time of the last one, 0 for none. None where their times do not rise.
fn heads_of(
    alloc: Global,
    commits: &[CommitName],
) -> Result<Option<(Vec<CommitHead>, u64)>, AllocError>
    ensures { IfOk result (λ o. MatchOption o (¬ IsRisingAfter 0 (map head_as commits.now))
        (λ r. (r.0.items ≡ map head_as commits.now) × IsRisingAfter 0 r.0.items × (r.1 ≡ last_time r.0.items))) }
{
    let mut heads = Vec::with_capacity(alloc, commits.len())?;
    let mut last = 0;
    let mut rest = commits;
    while let Some((commit, after)) = rest.split_first() {
        if !is_next_time(last, commit.time) {
            return Ok(None);
        }
        heads.push(CommitHead {
            time: commit.time,
            label: commit.label,
            awaited: false,
        })?;
        last = commit.time;
        rest = after;
    }
    Ok(Some((heads, last)))
}

// The commits in memory of a store with these members, floors and reclaim mark. None where the members are in no commit order.
fn commits_of(
    alloc: Global,
    mark: u64,
    members: MembersRead,
    floors: Floors,
    reclaimed: u64,
) -> Result<Option<Commits>, AllocError>
    requires in_range { reclaimed < 2 ^ 63 }
    ensures { IfOk result (λ o. MatchOption o (¬ AreInOrder members reclaimed) (λ commits. commits ≡ commits_on mark members floors reclaimed)) }
{
    let Some((heads, last)) = heads_of(alloc, &members.commits)? else {
        return Ok(None);
    };
    if reclaimed.max(last) < members.last {
        return Ok(None);
    }
    Ok(Some(Commits::of_recovered(alloc, mark, heads, members.versions, floors, reclaimed)))
}

// The runs of the log, each with the archive mark before it. A run may have been made of others that are older than a floor, so none is
// said to begin behind one.
fn entries_of(alloc: Global, runs: &[Run]) -> Result<Vec<RunEntry>, AllocError>
    requires in_range { AllByRecursion IsRun runs.now }
    ensures { IfOk result (λ entries. AreEntriesFrom 0 runs.now entries.items) }
{
    let mut entries = Vec::with_capacity(alloc, runs.len())?;
    let mut mark = 0;
    let mut rest = runs;
    while let Some((run, after)) = rest.split_first() {
        entries.push(RunEntry {
            slot: *run,
            mark,
            floors: Floors::none(),
        })?;
        mark = run.upto;
        rest = after;
    }
    Ok(entries)
}

/// What a store has in memory.
#[derive(Drop)]
struct MemoryParts {
    roots: Roots,
    commits: Commits,
    room: HeapRoom,
    live: Live,
    named: Named,
    archive: StoreArchive,
}

// What a store has in memory by what was read of its image. `Damaged` with the root where that has no place in memory: it is not what a
// heap holds.
fn parts_of(alloc: Global, mark: u64, read: LogRecovered) -> Result<MemoryParts, OpenFault>
    requires mark { read.heap.end.mark < 2 ^ 63 }
    requires runs { AllByRecursion IsRun read.heap.end.runs.items }
    ensures { MatchResult result (ArePartsOf mark read) (IsPartsFault read) }
{
    let LogRecovered { roots, heap } = read;
    let LogHeap {
        next,
        space,
        log,
        anchors,
        end,
        live,
        archives,
        members,
        ..
    } = heap;
    let LogEnd {
        mark: reclaimed,
        archived,
        floors,
        runs,
        rolls,
        runs_end,
        rolls_end,
        ..
    } = end;
    // The versions are in the order of their keys.
    let _none = members.versions.is_empty();
    let damaged = OpenFault::Damaged(Area::Heap, u64::from(roots.root()));
    let Some(room) = HeapRoom::opened(space, next, log, members.sizes.len) else {
        return Err(damaged);
    };
    if !are_live(&live, &anchors) {
        return Err(damaged);
    }
    let live = Live::new(live, anchors)?;
    let archive = StoreArchive::new(alloc, entries_of(alloc, &runs)?)?;
    match commits_of(alloc, mark, members, floors, reclaimed)? {
        Some(commits) => Ok(MemoryParts {
            roots,
            commits,
            room,
            live,
            named: Named::new(archives, rolls, archived, runs_end.max(rolls_end)),
            archive,
        }),
        None => Err(damaged),
    }
}

impl<D: Disk> LogStore<D> {
    /// Opens the store that the disk holds. It first syncs the three areas, and then only reads. The store mark is a number of the
    /// caller's, which the store's transactions and tickets carry. A refused opening hands the disk back.
    ///
    /// # Errors
    ///
    /// As those of `read_log`.
    pub fn open(alloc: Global, disk: D, mark: u64) -> Result<LogStore<D>, (OpenFault, D)>
        ensures ok { IfOk result (λ s. Opens D.tells (D.state disk) mark s) }
        ensures err { IfErr result (λ e. OpenRefuses D.tells (D.state disk) e.0 (D.state e.1)) }
    {
        let mut disk = disk;
        let read = match read_log(alloc, &mut disk) {
            Ok(read) => read,
            Err(fault) => return Err((fault, disk)),
        };
        match parts_of(alloc, mark, read) {
            Err(fault) => Err((fault, disk)),
            Ok(parts) => Ok(LogStore {
                alloc,
                roots: parts.roots,
                commits: parts.commits,
                contents: VecDeque::new(alloc),
                room: parts.room,
                live: parts.live,
                turn: None,
                job: None,
                reclaim: None,
                named: parts.named,
                archive: parts.archive,
                disk,
            }),
        }
    }
}
