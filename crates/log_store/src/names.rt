//! The times of a label: those of the rolls in the archive, and those in memory.
ghost use Rattle.std.specs.Prelude.{◌≡◌, ◌↔◌, ◌++◌, nat_lt, nat_le, filter, IsTrue, IfOk, IfSome, MatchOption};
ghost use Rattle.std.specs.List.{AllByRecursion};
ghost use Rattle.log_entries.specs.Ranges.{IsRoll};
ghost use Rattle.log_base.specs.Bases.{mark_of};
ghost use Rattle.log_store.specs.Names.{AnswersTimes};
ghost use Rattle.log_store.specs.Values.{LogStoreValue};

use crate::named::Named;
use crate::store::LogStore;
use commits::Commits;
use disk::Disk;
use log_base::mark_of;
use log_entries::Roll;
use log_names::{NamesReader, UncachedParts};
use std::alloc::{AllocError, Global};
use timequery::QueryFault;
use wire::LAST_PLACE;

/// How many bytes a name has in a roll.
const NAME_LEN: u64 = 16;

// Whether these may be the place and the length of a roll.
fn is_roll(roll: &Roll) -> bool
    ensures { IsTrue result ↔ IsRoll roll.now }
{
    roll.len % NAME_LEN == 0
        && NAME_LEN <= roll.len
        && roll.len <= LAST_PLACE
        && roll.start <= LAST_PLACE - roll.len
}

// The start of the first of these that may be none.
fn first_bad(rolls: &[Roll]) -> Option<u64>
    ensures { MatchOption result (AllByRecursion IsRoll rolls.now) (λ start. AllByRecursion IsRoll rolls.now → ⊥) }
{
    let mut rest = rolls;
    while let [first, after @ ..] = rest {
        if !is_roll(first) {
            return Some(first.start);
        }
        rest = after;
    }
    None
}

// Adds those of these times that are no later than a mark.
fn push_early(times: &mut Vec<u64>, more: &[u64], mark: u64) -> Result<(), AllocError>
    ensures { IfOk result (λ _. times.new.items ≡ times.old.items ++ filter (λ time. nat_le time mark) more.now) }
{
    let mut rest = more;
    while let [first, after @ ..] = rest {
        if *first <= mark {
            times.push(*first)?;
        }
        rest = after;
    }
    Ok(())
}

// Adds those of these times that are later than a mark.
fn push_later(times: &mut Vec<u64>, more: &[u64], mark: u64) -> Result<(), AllocError>
    ensures { IfOk result (λ _. times.new.items ≡ times.old.items ++ filter (nat_lt mark) more.now) }
{
    let mut rest = more;
    while let [first, after @ ..] = rest {
        if mark < *first {
            times.push(*first)?;
        }
        rest = after;
    }
    Ok(())
}

// The times of a label of a log that names these rolls, has this reclaim mark and these commits in memory, and whose archive lies on this disk.
// Memory has the names of all commits later than the time up to which it forgot, so the rolls are asked for the others alone.
fn times_on<D: Disk>(
    alloc: Global,
    disk: &mut D,
    named: &Named,
    mark: u64,
    commits: &Commits,
    label: u64,
) -> Result<Vec<u64>, QueryFault>
    ensures { (v : LogStoreValue) → v.named ≡ named.now → mark_of v.live.chains ≡ mark → v.commits ≡ commits.now → v.disk ≡ D.state disk.old
        → AnswersTimes D.tells v label result (record v { disk = D.state disk.new }) }
{
    let rolls = named.rolls();
    if let Some(start) = first_bad(rolls) {
        return Err(QueryFault::Damaged(start));
    }
    let rolled = NamesReader::new().times_of_rolls(
        alloc,
        &mut UncachedParts,
        disk,
        rolls,
        mark,
        label,
    )?;
    let forgotten = commits.reclaimed();
    let mut times = Vec::new(alloc);
    push_early(&mut times, rolled.as_slice(), forgotten)?;
    let recent = commits.times_of(alloc, label)?;
    push_later(&mut times, recent.as_slice(), forgotten)?;
    Ok(times)
}

impl<D: Disk> LogStore<D> {
    ghost use Rattle.log_store.specs.Names.{has_rolls};

    /// The times of the published commits with a label, rising, in microseconds since 1970. Those whose names have left memory are read in
    /// the rolls of the archive: `Device`, `NoMemory`, and `Damaged` with the roll's start, where they are met.
    pub fn times_of(&mut self, label: u64) -> Result<Vec<u64>, QueryFault>
        ensures { AnswersTimes D.tells self.old label result self.new }
    {
        let mark = mark_of(self.live.chains());
        times_on(
            self.alloc,
            &mut self.disk,
            &self.named,
            mark,
            &self.commits,
            label,
        )
    }

    /// The same where the archive is read on this disk, in place of the store's. What it holds is the caller's to see to.
    pub fn times_over<E: Disk>(&self, disk: &mut E, label: u64) -> Result<Vec<u64>, QueryFault>
        ensures { AnswersTimes E.tells (record self.now { disk = E.state disk.old }) label result (record self.now { disk = E.state disk.new }) }
    {
        let mark = mark_of(self.live.chains());
        times_on(self.alloc, disk, &self.named, mark, &self.commits, label)
    }

    /// Whether names of commits lie in rolls of the archive.
    pub fn has_rolls(&self) -> bool
        ensures { result ≡ has_rolls self.now }
    {
        !self.named.rolls().is_empty()
    }
}
