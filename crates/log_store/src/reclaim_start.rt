//! The beginning of a reclaim.
ghost use Rattle.std.specs.Prelude.{◌≡◌, ◌+◌, ◌*◌, ◌/◌, ◌≤◌, ◌<◌, ◌^◌, ◌++◌, ◌↔◌, [], ℕ, List, IfNone, IfOk, OnOk, OnErr, MatchResult, IsTrue, None};
ghost use Rattle.std.specs.Prelude.{length, flat_map, vec_len, vec_capacity, drop, if◌then◌else◌};
ghost use Rattle.deltas.specs.Records.{spelling};
ghost use Rattle.log_entries.specs.Spelling.{base_bytes};
ghost use Rattle.log_extents.specs.Chains.{count_of, first_or};
ghost use Rattle.log_writer.specs.Turns.{open_gate};
ghost use Rattle.log_writer.specs.Whole.{whole_parts};
ghost use Rattle.log_base.specs.Bases.{base_on};
ghost use Rattle.log_base.specs.Names.{AreBytesBetween};
ghost use Rattle.log_store.specs.Live.{AreNumbers};
ghost use Rattle.log_store.specs.Reclaims.{StartsReclaim, reclaim_refusal, IsCountRefusal, IsReclaimBegun, IsPlanOf, AreForAnchors, IsRollOf, head_or};
ghost use Rattle.log_store.specs.Reclaims.{archives_at, archives_in, named_behind, roll_left};
ghost use Rattle.log_store.specs.Reclaims as plans;
ghost use Rattle.log_store.specs.declared.job.StartFault.TheVariants as faults;
ghost use Rattle.log_store.specs.declared.reclaim.ReclaimStage.TheVariants as stages;

use crate::job::StartFault;
use crate::named::Named;
use crate::reclaim::{Reclaim, ReclaimStage};
use crate::store::LogStore;
use deltas::RecordSource;
use disk::Disk;
use log_base::{RollWriter, anchors_of, base_of, front_len, mark_of, names_of};
use log_entries::{AnchorName, Archive, Base, Roll, push_base, push_write};
use log_extents::{OPEN_GATE, count_extents};
use log_recovery::{LiveChain, LivePart};
use log_room::Reserved;
use log_writer::ExtentsWriter;
use std::alloc::{AllocError, Global};
use vacuum::AnchorSource;

/// No roll ends at this byte of the archive, or after it.
const ARCHIVE_END: u64 = 1 << 63;

/// So many bytes of a base are left for one roll more.
const ROLL_LEN: u128 = 17;

/// The bytes of a chain that one extent holds.
const BODY_LEN: u128 = 8168;

/// The records of the anchors that a reclaim makes, spelled.
#[derive(Drop)]
struct MadeAnchors {
    bytes: Vec<u8>,
    records: usize,
}

/// A base, and its bytes.
#[derive(Drop)]
struct SpelledBase {
    base: Base,
    bytes: Vec<u8>,
}

/// What a reclaim is to make.
#[derive(Drop)]
struct BasePlan {
    front: usize,
    makes: bool,
    // The bytes of its roll, and of its anchors.
    names: Vec<u8>,
    anchors: Vec<u8>,
    base: Base,
    bytes: Vec<u8>,
    // What the log then names in the archive.
    named: Named,
}

// All records that are left, spelled.
fn spell_all<S: RecordSource>(alloc: Global, source: &mut S) -> Result<MadeAnchors, AllocError>
    ensures bytes { IfOk result (λ made. made.bytes.items ≡ flat_map spelling (S.left source.old)) }
    ensures records { IfOk result (λ made. made.records ≡ length (S.left source.old)) }
    ensures few { IfOk result (λ made. made.records ≤ length made.bytes.items) }
{
    let mut bytes = Vec::new(alloc);
    let mut records = 0;
    while let Some(record) = source.peek() {
        push_write(&mut bytes, record)?;
        source.advance();
        records += 1;
    }
    Ok(MadeAnchors { bytes, records })
}

// The roll with these names from this place on, if there are some. It may not end past the greatest place.
fn roll_at(start: u64, names: &[u8]) -> Result<Option<Roll>, StartFault>
    ensures { MatchResult result (IsRollOf start names.now) (λ why. (why ≡ faults.ArchiveFull) × (2 ^ 63 ≤ start + length names.now)) }
{
    match start.checked_add(names.len() as u64) {
        Some(end) if end < ARCHIVE_END => {
            if names.is_empty() {
                return Ok(None);
            }
            Ok(Some(Roll {
                start,
                len: names.len() as u64,
            }))
        }
        _ => Err(StartFault::ArchiveFull),
    }
}

// The base in the place of these chains, and its bytes.
fn spell_base(
    alloc: Global,
    front: &[LiveChain],
    upto: u64,
    anchors: AnchorName,
    roll: Option<Roll>,
) -> Result<SpelledBase, AllocError>
    ensures base { IfOk result (λ spelled. spelled.base ≡ base_on front.now upto anchors roll) }
    ensures bytes { IfOk result (λ spelled. spelled.bytes.items ≡ base_bytes spelled.base) }
{
    let base = base_of(alloc, front, upto, anchors, roll)?;
    let mut bytes = Vec::new(alloc);
    push_base(&mut bytes, &base)?;
    Ok(SpelledBase { base, bytes })
}

// The archives that a chain names more.
fn push_named(archives: &mut Vec<Archive>, part: &LivePart) -> Result<(), AllocError>
    ensures { OnOk result (archives.new.items ≡ archives.old.items ++ archives_at part.now) }
{
    match part {
        LivePart::Commits(_) | LivePart::Floor(_) => {}
        LivePart::Archived(archive) => archives.push(*archive)?,
        LivePart::Base(base) => archives.extend_from_slice(base.archives.as_slice())?,
    }
    Ok(())
}

// Those that all of these chains name more.
fn push_archives(archives: &mut Vec<Archive>, chains: &[LiveChain]) -> Result<(), AllocError>
    ensures { OnOk result (archives.new.items ≡ archives.old.items ++ archives_in chains.now) }
{
    let mut rest = chains;
    while let [first, after @ ..] = rest {
        push_named(archives, &first.part)?;
        rest = after;
    }
    Ok(())
}

impl Named {
    // What the log names in the archive once this base stands before these chains, with a roll of so many bytes.
    fn behind(
        &self,
        alloc: Global,
        base: &Base,
        back: &[LiveChain],
        len: usize,
    ) -> Result<Named, AllocError>
        requires { self.now.end + len < 2 ^ 63 }
        ensures { IfOk result (λ named. named ≡ named_behind self.now base.now back.now len) }
    {
        let mut archives = Vec::from_slice(alloc, base.archives.as_slice())?;
        push_archives(&mut archives, back)?;
        let rolls = Vec::from_slice(alloc, base.rolls.as_slice())?;
        Ok(Named::new(archives, rolls, self.upto(), self.end() + len as u64))
    }
}

// The first of these numbers, 0 for none.
fn first_of(numbers: &[u32]) -> u32
    ensures { result ≡ first_or 0 numbers.now }
{
    match numbers {
        [] => 0,
        [first, ..] => *first,
    }
}

// The head of the first of these chains, or where the log ends.
fn head_or(next: u32, chains: &[LiveChain]) -> u32
    ensures { result ≡ head_or next chains.now }
{
    match chains {
        [] => next,
        [first, ..] => first_of(&first.numbers),
    }
}

// These numbers more, in the place that was made for them.
fn filled(place: Vec<u32>, numbers: &[u32]) -> Vec<u32>
    requires { vec_len place + length numbers.now ≤ vec_capacity place }
    ensures { result.items ≡ place.items ++ numbers.now }
{
    let mut all = place;
    match all.extend_from_slice(numbers) {
        Err(AllocError) => unreachable!(),
        Ok(()) => all,
    }
}

// The roll in the writing, if it has names.
fn roll_of(start: u64, names: Vec<u8>) -> Option<RollWriter>
    requires { start + length names.items < 2 ^ 63 }
    ensures { result ≡ roll_left start names.items }
{
    if names.is_empty() {
        None
    } else {
        Some(RollWriter::new(start, names))
    }
}

// The reclaim that makes this, of which nothing is written, in the extents that are taken. Its base links to this extent, and its roll begins at
// this place. Memory for the copies of the extents is made, and has those of the anchors that stand.
fn begun(
    plan: BasePlan,
    taken: Reserved,
    anchors: Vec<u32>,
    numbers: Vec<u32>,
    start: u64,
    link: u32,
) -> Reclaim
    requires made { length taken.anchors.items ≡ count_of (length plan.anchors.items) }
    requires many { length taken.base.items ≡ count_of (length plan.bytes.items) }
    requires in_range { AreNumbers taken.anchors.items × AreNumbers taken.base.items }
    requires fits { start + length plan.names.items < 2 ^ 63 }
    requires anchors { vec_len anchors + length taken.anchors.items ≤ vec_capacity anchors }
    requires none { numbers.items ≡ [] }
    requires numbers { length taken.base.items ≤ vec_capacity numbers }
    ensures { result ≡ record {
      front = plan.front;
      base = plan.base;
      numbers = taken.base.items;
      anchors = anchors.items ++ taken.anchors.items;
      makes = plan.makes;
      named = plan.named;
      roll = roll_left start plan.names.items;
      stage = stages.Writing
          (record { numbers = taken.anchors.items; left = whole_parts 0 0 taken.anchors.items plan.anchors.items })
          (record { numbers = taken.base.items; left = whole_parts open_gate link taken.base.items plan.bytes.items });
    } }
{
    let BasePlan {
        front,
        makes,
        names,
        anchors: old_bytes,
        base,
        bytes,
        named,
    } = plan;
    let anchors = filled(anchors, &taken.anchors);
    let numbers = filled(numbers, &taken.base);
    Reclaim {
        front,
        base,
        numbers,
        anchors,
        makes,
        named,
        roll: roll_of(start, names),
        stage: ReclaimStage::Writing {
            anchors: ExtentsWriter::new(0, 0, taken.anchors, old_bytes),
            base: ExtentsWriter::new(OPEN_GATE, link, taken.base, bytes),
        },
    }
}

impl<D: Disk> LogStore<D> {
    /// Begins to put a base in the place of the log's first chains: the chains before the first that has a commit later than the archive
    /// mark. Its anchors are the versions that are valid at the archive mark, and its roll the names of the commits that were archived
    /// since the last reclaim. `job_pump` writes them, and gives up those chains. No call of the disk is made. Where it is refused nothing
    /// changes.
    pub fn reclaim_start(&mut self) -> Result<(), StartFault>
        ensures { StartsReclaim self.old result self.new }
    {
        if let Some(fault) = self.reclaim_refusal() {
            return Err(fault);
        }
        match self.plan_reclaim() {
            Err(fault) => Err(fault),
            Ok(plan) => match self.begin_reclaim(plan) {
                Err(AllocError) => Err(StartFault::NoMemory),
                Ok(()) => Ok(()),
            },
        }
    }

    // Why no reclaim begins, by what is known before its base is counted.
    fn reclaim_refusal(&self) -> Option<StartFault>
        ensures is { result ≡ reclaim_refusal self.now }
        ensures none { IfNone result ((self.now.job ≡ None) × (self.now.reclaim ≡ None)) }
    {
        if self.commits.has_failed() {
            return Some(StartFault::Failed);
        }
        if self.is_busy() {
            return Some(StartFault::JobBusy);
        }
        let mark = self.named.upto();
        let chains = self.live.chains();
        if mark == 0 || mark_of(chains) == mark && front_len(chains, mark) <= 1 {
            return Some(StartFault::NothingToDo);
        }
        match self.commits.oldest() {
            Some(snapshot) if snapshot < mark => Some(StartFault::InUse(snapshot)),
            _ => None,
        }
    }

    // The anchors that it makes: none where those stay that stand.
    fn made_anchors(&self, makes: bool) -> Result<MadeAnchors, AllocError>
        requires { makes ≡ plans.makes self.now }
        ensures bytes { IfOk result (λ made. made.bytes.items ≡ plans.anchor_bytes self.now) }
        ensures records { IfOk result (λ made. made.records ≡ length (plans.olds self.now)) }
        ensures few { IfOk result (λ made. made.records ≤ length made.bytes.items) }
    {
        if !makes {
            return Ok(MadeAnchors {
                bytes: Vec::new(self.alloc),
                records: 0,
            });
        }
        let versions = self.commits.versions()?;
        let mut source = AnchorSource::new(versions, self.named.upto());
        spell_all(self.alloc, &mut source)
    }

    // The anchors as the base names them, where they keep their share: those that it makes, or those that stand.
    fn name_anchors(&self, makes: bool, made: &MadeAnchors) -> AnchorName
        requires none { self.now.reclaim ≡ None }
        requires makes { makes ≡ plans.makes self.now }
        requires bytes { made.now.bytes.items ≡ plans.anchor_bytes self.now }
        requires records { made.now.records ≡ length (plans.olds self.now) }
        requires few { made.now.records ≤ length made.now.bytes.items }
        requires share { count_of (length made.now.bytes.items) ≤ (3 * length self.now.room.used) / 16 }
        ensures { (numbers : List ℕ) → AreForAnchors self.now numbers → result ≡ plans.anchor_name self.now numbers }
    {
        if !makes {
            return anchors_of(self.live.chains());
        }
        let extents = count_extents(made.bytes.len());
        let first = if extents == 0 {
            0
        } else {
            self.room.least_free()
        };
        AnchorName {
            first,
            extents: extents as u32,
            records: made.records as u32,
        }
    }

    // Whether anchors of so many bytes keep their share of the heap: three sixteenths.
    fn anchors_fit(&self, len: usize) -> bool
        ensures { IsTrue result ↔ (count_of len ≤ (3 * length self.now.room.used) / 16) }
    {
        count_extents(len) <= self.room.len() as usize * 3 / 16
    }

    // Whether a base of so many bytes keeps its share, a sixteenth with one roll more, and a quarter beside anchors of so many extents.
    fn base_fits(&self, len: usize, anchors: usize) -> bool
        ensures { IsTrue result ↔ (count_of (len + 17) ≤ length self.now.room.used / 16) × (anchors + count_of len ≤ length self.now.room.used / 4) }
    {
        let most = self.room.len();
        let with_roll = (len as u128 + ROLL_LEN + BODY_LEN - 1) / BODY_LEN;
        with_roll <= u128::from(most / 16)
            && anchors as u128 + count_extents(len) as u128 <= u128::from(most / 4)
    }

    // What a reclaim is to make, if its anchors, its base and its roll have room.
    fn plan_reclaim(&self) -> Result<BasePlan, StartFault>
        requires { self.now.reclaim ≡ None }
        ensures { MatchResult result (IsPlanOf self.now) (IsCountRefusal self.now) }
    {
        let before = mark_of(self.live.chains());
        let mark = self.named.upto();
        let makes = before < mark;
        let Ok(names) = names_of(self.alloc, self.commits.heads(), before, mark) else {
            return Err(StartFault::NoMemory);
        };
        let roll = match roll_at(self.named.end(), &names) {
            Err(fault) => return Err(fault),
            Ok(roll) => roll,
        };
        let Ok(made) = self.made_anchors(makes) else {
            return Err(StartFault::NoMemory);
        };
        if !self.anchors_fit(made.bytes.len()) {
            return Err(StartFault::HeapFull);
        }
        self.plan_base(names, roll, made)
    }

    // The same, once its roll and its anchors have room.
    fn plan_base(
        &self,
        names: Vec<u8>,
        roll: Option<Roll>,
        made: MadeAnchors,
    ) -> Result<BasePlan, StartFault>
        requires none { self.now.reclaim ≡ None }
        requires names { AreBytesBetween (plans.reclaimed self.now) self.now.named.upto self.now.commits.heads names.items }
        requires roll { IsRollOf self.now.named.end names.items roll }
        requires bytes { made.bytes.items ≡ plans.anchor_bytes self.now }
        requires records { made.records ≡ length (plans.olds self.now) }
        requires few { made.records ≤ length made.bytes.items }
        requires share { count_of (length made.bytes.items) ≤ (3 * length self.now.room.used) / 16 }
        ensures { MatchResult result (IsPlanOf self.now) (IsCountRefusal self.now) }
    {
        let chains = self.live.chains();
        let mark = self.named.upto();
        let front = front_len(chains, mark);
        let makes = mark_of(chains) < mark;
        let anchors = self.name_anchors(makes, &made);
        let Ok(spelled) = spell_base(self.alloc, &chains[..front], mark, anchors, roll) else {
            return Err(StartFault::NoMemory);
        };
        let standing = if makes {
            count_extents(made.bytes.len())
        } else {
            self.live.anchors().len()
        };
        if !self.base_fits(spelled.bytes.len(), standing) {
            return Err(StartFault::HeapFull);
        }
        let Ok(named) = self
            .named
            .behind(self.alloc, &spelled.base, &chains[front..], names.len())
        else {
            return Err(StartFault::NoMemory);
        };
        Ok(BasePlan {
            front,
            makes,
            names,
            anchors: made.bytes,
            base: spelled.base,
            bytes: spelled.bytes,
            named,
        })
    }

    // Memory for the extents of the anchors that the base names: so many that are to be taken, or those that stand.
    fn place_of_anchors(&self, makes: bool, count: usize) -> Result<Vec<u32>, AllocError>
        ensures items { IfOk result (λ place. place.items ≡ (if makes then [] else self.now.live.anchors)) }
        ensures room { IfOk result (λ place. vec_len place + (if makes then count else 0) ≤ vec_capacity place) }
    {
        if makes {
            Vec::with_capacity(self.alloc, count)
        } else {
            Vec::from_slice(self.alloc, self.live.anchors())
        }
    }

    // The reclaim that makes this begins. What may fail comes before any change.
    fn begin_reclaim(&mut self, plan: BasePlan) -> Result<(), AllocError>
        requires none { (self.old.job ≡ None) × (self.old.reclaim ≡ None) }
        requires plan { IsPlanOf self.old plan }
        ensures ok { OnOk result (IsReclaimBegun self.old self.new) }
        ensures err { OnErr result (self.new ≡ self.old) }
    {
        let made = count_extents(plan.anchors.len());
        let count = count_extents(plan.bytes.len());
        let start = self.named.end();
        let link = head_or(self.room.next(), &self.live.chains()[plan.front..]);
        let anchors = self.place_of_anchors(plan.makes, made)?;
        let numbers = Vec::with_capacity(self.alloc, count)?;
        let taken = self.room.reserve(self.alloc, made, count)?;
        self.reclaim = Some(begun(plan, taken, anchors, numbers, start, link));
        Ok(())
    }
}
