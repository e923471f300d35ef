//! Opening a store.
ghost use Rattle.std.specs.Prelude.{◌≡◌, IfOk, IfErr, map};
ghost use Rattle.store.specs.Heads.{head_as};
ghost use Rattle.extents.specs.Times.{with_times};
ghost use Rattle.store.specs.Opens.{Opens, OpenRefuses, times_of};

use crate::store::Store;
use crate::store_archive::Archived;
use disk::Disk;
use extents::ChainTimes;
use group::{CommitHead, Transactions};
use recovery::{LiveChain, OpenFault, Recovered, read_image};
use status::StatusLog;
use std::alloc::{AllocError, Global};
use wire::Member;

// The commits of the log as they stand in the commit order.
fn heads_of(alloc: Global, commits: &[Member]) -> Result<Vec<CommitHead>, AllocError>
    ensures { IfOk result (λ heads. heads.items ≡ map head_as commits.now) }
{
    let mut heads = Vec::with_capacity(alloc, commits.len())?;
    let mut rest = commits;
    while let [commit, after @ ..] = rest {
        heads.push(CommitHead {
            time: commit.time,
            label: commit.label,
            awaited: false,
        })?;
        rest = after;
    }
    Ok(heads)
}

// The time of the commit whose chain has each extent, by the live chains.
fn times_of(alloc: Global, live: &[LiveChain]) -> Result<ChainTimes, AllocError>
    ensures { IfOk result (λ times. times ≡ times_of live.now) }
{
    let mut times = ChainTimes::new(alloc)?;
    let mut rest = live;
    while let [chain, after @ ..] = rest {
        set_chain(&mut times, &chain.extents, chain.time);
        rest = after;
    }
    Ok(times)
}

// These extents are in the chain of the commit of this time.
fn set_chain(times: &mut ChainTimes, numbers: &[u32], time: u64)
    ensures { times.new ≡ with_times times.old numbers.now time }
{
    let mut rest = numbers;
    while let [number, after @ ..] = rest {
        times.set(*number, time);
        rest = after;
    }
}

// The commits of the log as they stand in the commit order, and the times of the live chains' extents.
fn commits_of(
    alloc: Global,
    recovered: &Recovered,
) -> Result<(Vec<CommitHead>, ChainTimes), AllocError>
    ensures heads { IfOk result (λ r. r.0.items ≡ map head_as recovered.now.commits.items) }
    ensures times { IfOk result (λ r. r.1 ≡ times_of recovered.now.live.items) }
{
    let heads = heads_of(alloc, &recovered.commits)?;
    let times = times_of(alloc, &recovered.live)?;
    Ok((heads, times))
}

impl<D: Disk> Store<D> {
    /// Opens the store that the disk holds. It first syncs the three areas, and then only reads. The
    /// store mark is a number of the caller's, which the store's transactions, tickets and views
    /// carry. A refused opening hands the disk back.
    pub fn open(alloc: Global, disk: D, mark: u64) -> Result<Store<D>, (OpenFault, D)>
        ensures ok { IfOk result (λ s. Opens D.tells (D.state disk) mark s) }
        ensures err { IfErr result (λ e. OpenRefuses D.tells (D.state disk) e.0 (D.state e.1)) }
    {
        let mut disk = disk;
        let recovered = match read_image(alloc, &mut disk) {
            Ok(recovered) => recovered,
            Err(fault) => return Err((fault, disk)),
        };
        let Ok((heads, times)) = commits_of(alloc, &recovered) else {
            return Err((OpenFault::NoMemory, disk));
        };
        let Recovered {
            header,
            used,
            floors,
            archived,
            reclaimed,
            runs,
            runs_end,
            extents,
            chains,
            ..
        } = recovered;
        let Ok(archived) = Archived::new(alloc, archived, runs_end, runs) else {
            return Err((OpenFault::NoMemory, disk));
        };
        let log = StatusLog::new(&header, used);
        let slots = log.slots();
        // The versions are in the order of their keys.
        let _none = chains.is_empty();
        Ok(Store {
            alloc,
            transactions: Transactions::of_recovered(
                alloc, mark, heads, chains, extents, times, slots, used, floors, reclaimed,
            ),
            log,
            turn: None,
            job: None,
            archived,
            disk,
        })
    }
}
