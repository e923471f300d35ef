//! The rules of the log between its chains.

ghost use Rattle.std.specs.Prelude.{◌≡◌, ◌↔◌, [], ◌++◌, ◌<◌, ◌≤◌, ◌+◌, max, ℕ, map, IsTrue, IfOk, OnOk, MatchOption};
ghost use Rattle.std.specs.List.{AllByRecursion};
ghost use Rattle.law_image.specs.Log.{last_time_after, floors_after, AreRisingAfter};
ghost use Rattle.law_log.specs.Chains.{floor_slot, AreMarksTo};
ghost use Rattle.floors.specs.Floors.{floor_at};
ghost use Rattle.log_extents.specs.Chains.{first_or};
ghost use Rattle.log_entries.specs.declared.entry.Entry.TheVariants as entries;
ghost use Rattle.log_entries.specs.Ranges.{IsMember, AreMembers, IsArchive, IsFloor, IsRoll, IsBase, IsEntry, run_of};
ghost use Rattle.law_log_layout.specs.HeapLog.{AreSpansInRow, floor_told};
ghost use Rattle.log_recovery.specs.Rules.{LogState, roll_part, row_end, no_log, mark_of};
ghost use Rattle.log_recovery.specs.Following.{Says, Answers, HasParts, group_heads, IsNextRun, IsNextFloor, uptos_in, spans_in, AreUpTo, IsNextBase};
ghost use Rattle.log_recovery.specs.Following.{last_upto, AreEnds, AreEntries, IsCheckOf};

use crate::chain::LogChain;
use floors::Floors;
use log_entries::{Archive, Base, Entry, Member, RelationFloor, Roll};
use std::alloc::{AllocError, Global};
use wire::Run;

/// What a log says up to a chain. Times are microseconds since 1970, and ends are bytes of the archive.
#[derive(Drop)]
pub struct LogEnd {
    /// Whether no chain was there yet.
    pub empty: bool,
    /// The reclaim mark of the log, 0 for none.
    pub mark: u64,
    /// The time of the last commit, 0 for none.
    pub last: u64,
    /// The archive mark, 0 for none.
    pub archived: u64,
    pub floors: Floors,
    /// The runs that no other took the place of.
    pub runs: Vec<Run>,
    /// The rolls of the base.
    pub rolls: Vec<Roll>,
    /// Where the last run ends, 0 for none.
    pub runs_end: u64,
    /// Where the last roll ends, 0 for none.
    pub rolls_end: u64,
}

/// How far the runs of a base go, and where its runs and its rolls end.
#[derive(Clone, Copy, Debug, PartialEq, Eq)]
struct BaseEnds {
    archived: u64,
    runs_end: u64,
    rolls_end: u64,
}

/// Whether the chains of a log obey the rules between them.
#[derive(Drop)]
pub enum RuleCheck {
    /// They do, and this is the end of the log.
    Keeps(LogEnd),
    /// The chain whose head is this extent may not follow those before it.
    Breaks(u32),
}

// The time of the last of these commits, or that before them. None where one is no later than the one before it.
fn last_of_rising(last: u64, members: &[Member]) -> Option<u64>
    requires { AllByRecursion IsMember members.now }
    ensures { MatchOption result (¬ AreRisingAfter last (group_heads members.now))
        (λ time. AreRisingAfter last (group_heads members.now) × (time ≡ last_time_after last (group_heads members.now))) }
{
    let mut time = last;
    let mut rest = members;
    while let [first, after @ ..] = rest {
        if first.time <= time {
            return None;
        }
        time = first.time;
        rest = after;
    }
    Some(time)
}

// Up to which time the last of these runs goes, or else the time before them. None where one goes no further than the
// one before it, or further than the end.
fn last_of_marks(end: u64, before: u64, archives: &[Archive]) -> Option<u64>
    ensures { MatchOption result (¬ AreMarksTo end before (uptos_in archives.now))
        (λ mark. AreMarksTo end before (uptos_in archives.now) × (mark ≡ last_upto before (uptos_in archives.now))) }
{
    let mut mark = before;
    let mut rest = archives;
    while let [first, after @ ..] = rest {
        if first.upto <= mark || end < first.upto {
            return None;
        }
        mark = first.upto;
        rest = after;
    }
    Some(mark)
}

// Where the last of these runs ends, or else this place. None where one begins before the end of the one before it.
fn end_of_runs(place: u64, archives: &[Archive]) -> Option<u64>
    requires { AllByRecursion IsArchive archives.now }
    ensures { MatchOption result (¬ AreSpansInRow place (spans_in archives.now))
        (λ end. AreSpansInRow place (spans_in archives.now) × (end ≡ row_end place (spans_in archives.now))) }
{
    let mut end = place;
    let mut rest = archives;
    while let [first, after @ ..] = rest {
        if first.start < end {
            return None;
        }
        end = first.start + first.len;
        rest = after;
    }
    Some(end)
}

// So it is for rolls.
fn end_of_rolls(place: u64, rolls: &[Roll]) -> Option<u64>
    requires { AllByRecursion IsRoll rolls.now }
    ensures { MatchOption result (¬ AreSpansInRow place (map roll_part rolls.now))
        (λ end. AreSpansInRow place (map roll_part rolls.now) × (end ≡ row_end place (map roll_part rolls.now))) }
{
    let mut end = place;
    let mut rest = rolls;
    while let [first, after @ ..] = rest {
        if first.start < end {
            return None;
        }
        end = first.start + first.len;
        rest = after;
    }
    Some(end)
}

// Whether no floor is later than this time.
fn are_upto(time: u64, floors: &[RelationFloor]) -> bool
    ensures { IsTrue result ↔ AreUpTo time floors.now }
{
    let mut rest = floors;
    while let [first, after @ ..] = rest {
        if time < first.floor {
            return false;
        }
        rest = after;
    }
    true
}

// The runs of a base, behind others.
fn push_runs(runs: &mut Vec<Run>, archives: &[Archive]) -> Result<(), AllocError>
    ensures { OnOk result (runs.new.items ≡ runs.old.items ++ map run_of archives.now) }
{
    let mut rest = archives;
    while let [first, after @ ..] = rest {
        runs.push(first.run())?;
        rest = after;
    }
    Ok(())
}

// The floors with these raised, one after the other.
fn with_raised(alloc: Global, floors: &Floors, more: &[RelationFloor]) -> Result<Floors, AllocError>
    ensures { IfOk result
        (λ raised. (relation : ℕ) → floor_at raised relation ≡ floors_after (floor_at floors.now) (map floor_slot (map floor_told more.now)) relation) }
{
    let mut raised = floors.share()?;
    for floor in more {
        raised = raised.raised(alloc, Some(floor.relation), floor.floor)?;
    }
    Ok(raised)
}

// The first extent of a chain.
fn head_of(chain: &LogChain) -> u32
    ensures { result ≡ first_or 0 chain.now.numbers }
{
    match chain.numbers.as_slice() {
        [first, ..] => *first,
        [] => 0,
    }
}

// The reclaim mark of a log, 0 for none.
fn mark_of(chains: &[LogChain]) -> u64
    ensures { result ≡ mark_of chains.now }
{
    let [first, ..] = chains else {
        return 0;
    };
    match &first.entry {
        Entry::Base(base) => base.upto,
        Entry::Group(_) | Entry::Archived(_) | Entry::Floor(_) => 0,
    }
}

impl LogEnd {
    /// The end of a log without chains, whose reclaim mark is this one.
    pub fn new(alloc: Global, mark: u64) -> LogEnd
        ensures says { Says result mark no_log }
        ensures runs { result.runs.items ≡ [] }
        ensures rolls { result.rolls.items ≡ [] }
    {
        LogEnd {
            empty: true,
            mark,
            last: 0,
            archived: 0,
            floors: Floors::none(),
            runs: Vec::new(alloc),
            rolls: Vec::new(alloc),
            runs_end: 0,
            rolls_end: 0,
        }
    }

    /// The last time that was told of: that of the last commit, or the reclaim mark if that is later.
    pub fn told_time(&self) -> u64
        ensures { result ≡ max self.now.mark self.now.last }
    {
        self.mark.max(self.last)
    }

    fn takes_run(&self, archive: &Archive) -> bool
        ensures { IsTrue result ↔ IsNextRun self.now archive.now }
    {
        self.archived < archive.upto
            && archive.upto <= self.told_time()
            && archive.runs as usize <= self.runs.len()
            && self.runs_end <= archive.start
    }

    fn takes_floor(&self, floor: &RelationFloor) -> bool
        ensures { IsTrue result ↔ IsNextFloor self.now floor.now }
    {
        self.floors.at(floor.relation) < floor.floor && floor.floor <= self.told_time()
    }

    // Where runs and rolls of this base end. None where it may not come.
    fn base_ends(&self, base: &Base) -> Option<BaseEnds>
        requires { (most : ℕ) × IsBase most base.now }
        ensures { MatchOption result (¬ IsNextBase self.now base.now) (λ ends. IsNextBase self.now base.now × AreEnds self.now base.now ends) }
    {
        if !self.empty || base.upto != self.mark || !are_upto(base.upto, base.floors.as_slice()) {
            return None;
        }
        let archives = base.archives.as_slice();
        Some(BaseEnds {
            archived: last_of_marks(base.upto, 0, archives)?,
            runs_end: end_of_runs(self.runs_end, archives)?,
            rolls_end: end_of_rolls(self.rolls_end, base.rolls.as_slice())?,
        })
    }

    fn follow_group(&mut self, members: &[Member]) -> bool
        requires { AreMembers members.now }
        ensures answers { Answers result self.old self.new (entries.Group members.now) }
        ensures parts { IsTrue result → HasParts self.old self.new (entries.Group members.now) }
    {
        let Some(last) = last_of_rising(self.last, members) else {
            return false;
        };
        if last <= self.mark {
            return false;
        }
        self.empty = false;
        self.last = last;
        true
    }

    fn follow_run(&mut self, archive: &Archive) -> Result<bool, AllocError>
        requires { IsArchive archive.now }
        ensures answers { IfOk result (λ follows. Answers follows self.old self.new (entries.Archived archive.now)) }
        ensures parts { IfOk result (λ follows. IsTrue follows → HasParts self.old self.new (entries.Archived archive.now)) }
    {
        if !self.takes_run(archive) {
            return Ok(false);
        }
        self.runs.truncate(self.runs.len() - archive.runs as usize);
        self.runs.push(archive.run())?;
        self.empty = false;
        self.archived = archive.upto;
        self.runs_end = archive.start + archive.len;
        Ok(true)
    }

    fn follow_floor(&mut self, alloc: Global, floor: &RelationFloor) -> Result<bool, AllocError>
        ensures answers { IfOk result (λ follows. Answers follows self.old self.new (entries.Floor floor.now)) }
        ensures parts { IfOk result (λ follows. IsTrue follows → HasParts self.old self.new (entries.Floor floor.now)) }
    {
        if !self.takes_floor(floor) {
            return Ok(false);
        }
        self.floors = self
            .floors
            .raised(alloc, Some(floor.relation), floor.floor)?;
        self.empty = false;
        Ok(true)
    }

    fn follow_base(&mut self, alloc: Global, base: &Base) -> Result<bool, AllocError>
        requires { (most : ℕ) × IsBase most base.now }
        ensures answers { IfOk result (λ follows. Answers follows self.old self.new (entries.Base base.now)) }
        ensures parts { IfOk result (λ follows. IsTrue follows → HasParts self.old self.new (entries.Base base.now)) }
    {
        let Some(ends) = self.base_ends(base) else {
            return Ok(false);
        };
        push_runs(&mut self.runs, base.archives.as_slice())?;
        self.rolls.extend_from_slice(base.rolls.as_slice())?;
        self.floors = with_raised(alloc, &self.floors, base.floors.as_slice())?;
        self.empty = false;
        self.archived = ends.archived;
        self.runs_end = ends.runs_end;
        self.rolls_end = ends.rolls_end;
        Ok(true)
    }

    /// Whether the chain that holds this may follow those before it. If so, the end is then that of the log with it;
    /// if not, or without memory, nothing is known of the end.
    pub fn follow(&mut self, alloc: Global, entry: &Entry) -> Result<bool, AllocError>
        requires { (most : ℕ) × IsEntry most entry.now }
        ensures answers { IfOk result (λ follows. Answers follows self.old self.new entry.now) }
        ensures parts { IfOk result (λ follows. IsTrue follows → HasParts self.old self.new entry.now) }
    {
        match entry {
            Entry::Group(members) => Ok(self.follow_group(members.as_slice())),
            Entry::Archived(archive) => self.follow_run(archive),
            Entry::Floor(floor) => self.follow_floor(alloc, floor),
            Entry::Base(base) => self.follow_base(alloc, base),
        }
    }
}

/// The end of a log of these chains, or the head of the first chain that may not follow those before it.
pub fn check_rules(alloc: Global, chains: &[LogChain]) -> Result<RuleCheck, AllocError>
    requires { AreEntries chains.now }
    ensures { IfOk result (IsCheckOf chains.now) }
{
    let mut end = LogEnd::new(alloc, mark_of(chains));
    for chain in chains {
        if !end.follow(alloc, &chain.entry)? {
            return Ok(RuleCheck::Breaks(head_of(chain)));
        }
    }
    Ok(RuleCheck::Keeps(end))
}
