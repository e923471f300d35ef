//! The beginning of a job.
ghost use Rattle.std.specs.Prelude.{◌≡◌, ◌<◌, ◌^◌, IfNone, IfOk, None, Some};
ghost use Rattle.deltas.specs.Chains.{first_number};
ghost use Rattle.group.specs.Reclaims.{oldest};
ghost use Rattle.store.specs.Archives.{StartsArchive, refusal_now, since_now};
ghost use Rattle.store.specs.Reclaims.{StartsReclaim, reclaim_refusal, refusal_for_use, below};
ghost use Rattle.store.specs.Floors.{StartsFloor, IsRelation, floor_refusal, is_wrong_profile};
ghost use Rattle.store.specs.Growths.{StartsGrowth, refusal_to_grow};
ghost use Rattle.history.specs.Floors.{covered};

use crate::giving_up::put_in_place;
use crate::job::{Job, JobStage, JobWork, StartFault};
use crate::store::Store;
use archive::RunEntry;
use deltas::count_extents;
use disk::Disk;
use extents::Extent;
use group::ReserveFault;
use std::alloc::AllocError;
use vacuum::{AnchorSource, Since, archive_run};
use wire::{Anchors, Profile};

impl<D: Disk> Store<D> {
    /// Begins an archive of the versions that ended by `upto`, in microseconds since 1970, and that
    /// no run has: it takes a slot, and `job_pump` writes it. No call of the disk is made. Where it is
    /// refused nothing changes.
    pub fn archive_start(&mut self, upto: u64) -> Result<(), StartFault>
        ensures { StartsArchive self.old upto result self.new }
    {
        if let Some(fault) = self.refusal_now(upto) {
            return Err(fault);
        }
        let Ok(versions) = self.transactions.versions() else {
            return Err(StartFault::NoMemory);
        };
        let Ok(since) = self.since() else {
            return Err(StartFault::NoMemory);
        };
        let Ok(floors) = self.transactions.floors().share() else {
            return Err(StartFault::NoMemory);
        };
        match archive_run(versions, since, upto, self.archived.runs_end) {
            None => Err(StartFault::ArchiveFull),
            Some((run, writer)) => {
                let entry = RunEntry {
                    slot: run,
                    mark: self.archived.upto,
                    floors,
                };
                let Ok(()) = self.archived.archive.make_place(self.alloc, entry) else {
                    return Err(StartFault::NoMemory);
                };
                self.transactions.lend_slot();
                let job = Job {
                    work: JobWork::Archive { run, writer },
                    stage: JobStage::Writing,
                };
                put_in_place(&mut self.job, Some(job));
                Ok(())
            }
        }
    }

    // What no run takes: what ended by the archive mark or by the floor of its relation.
    fn since(&self) -> Result<Since, AllocError>
        ensures { IfOk result (λ since. since ≡ since_now self.now) }
    {
        Ok(Since {
            mark: self.archived.upto,
            floors: self.transactions.floors().share()?,
        })
    }

    // Why no archive up to a time begins, by what is known before its run is counted.
    fn refusal_now(&self, upto: u64) -> Option<StartFault>
        ensures is { result ≡ refusal_now self.now upto }
        ensures in_range { IfNone result ((0 < upto) × (upto < 2 ^ 63)) }
    {
        if self.transactions.has_failed() {
            return Some(StartFault::Failed);
        }
        if self.job.is_some() {
            return Some(StartFault::JobBusy);
        }
        if upto <= self.archived.upto {
            return Some(StartFault::NothingToDo);
        }
        let last = self.transactions.last();
        if last < upto {
            return Some(StartFault::NotYet(last));
        }
        if self.transactions.spare() == 0 {
            return Some(StartFault::StatusFull);
        }
        None
    }

    /// Begins a reclaim: the heap is to hold only what ended after the archive mark, and so is
    /// memory. It takes a slot and an extent for each 8,176 bytes of anchors, the versions that are
    /// valid at the mark, and `job_pump` writes them. No call of the disk is made. Where it is
    /// refused nothing changes.
    pub fn reclaim_start(&mut self) -> Result<(), StartFault>
        ensures { StartsReclaim self.old result self.new }
    {
        if let Some(fault) = self.reclaim_refusal() {
            return Err(fault);
        }
        let Ok(versions) = self.transactions.versions() else {
            return Err(StartFault::NoMemory);
        };
        let Ok(counted) = self.transactions.versions() else {
            return Err(StartFault::NoMemory);
        };
        let mut counter = AnchorSource::new(counted, self.archived.upto);
        let Some(count) = count_extents(&mut counter) else {
            return Err(StartFault::HeapFull);
        };
        match self.transactions.reserve(self.alloc, count.extents) {
            Err(ReserveFault::HeapFull) => Err(StartFault::HeapFull),
            Err(ReserveFault::NoMemory) => Err(StartFault::NoMemory),
            Ok(()) => {
                self.transactions.lend_slot();
                let anchors = Anchors {
                    upto: self.archived.upto,
                    first: first_number(self.transactions.reserved()),
                    extents: count.extents,
                    records: count.records,
                };
                let job = Job {
                    work: JobWork::Reclaim {
                        anchors,
                        source: AnchorSource::new(versions, self.archived.upto),
                        written: 0,
                    },
                    stage: JobStage::Writing,
                };
                put_in_place(&mut self.job, Some(job));
                Ok(())
            }
        }
    }

    // Why no reclaim begins, by what is known before its anchors are counted.
    fn reclaim_refusal(&self) -> Option<StartFault>
        ensures { result ≡ reclaim_refusal self.now }
    {
        if self.transactions.has_failed() {
            return Some(StartFault::Failed);
        }
        if self.job.is_some() {
            return Some(StartFault::JobBusy);
        }
        if self.archived.upto == self.transactions.reclaimed() {
            return Some(StartFault::NothingToDo);
        }
        self.refusal_for_use(self.archived.upto)
    }

    /// Begins to raise the floor of every relation to a time in microseconds since 1970: before it nothing
    /// is promised any more. It takes a slot, and `job_pump` writes it. No call of the disk is made, and no
    /// memory is taken. Where it is refused nothing changes. A store of profile 3 refuses it.
    pub fn floor_start(&mut self, floor: u64) -> Result<(), StartFault>
        ensures { StartsFloor self.old None floor result self.new }
    {
        self.start_floor(None, floor)
    }

    /// Begins to raise the floor of one relation to a time in microseconds since 1970, as `floor_start` does
    /// that of all. It takes memory for the floor's place among the others. Only a store of profile 3 does it.
    pub fn floor_of_start(&mut self, relation: u16, floor: u64) -> Result<(), StartFault>
        ensures { StartsFloor self.old (Some relation) floor result self.new }
    {
        self.start_floor(Some(relation), floor)
    }

    /// Begins to raise the floor of one relation, or of every relation where none is named: `floor_of_start`
    /// and `floor_start` in one.
    pub fn start_floor(&mut self, scope: Option<u16>, floor: u64) -> Result<(), StartFault>
        ensures { StartsFloor self.old scope floor result self.new }
    {
        if let Some(fault) = self.floor_refusal(scope, floor) {
            return Err(fault);
        }
        let Ok(floors) = self.transactions.floors().raised(self.alloc, scope, floor) else {
            return Err(StartFault::NoMemory);
        };
        self.transactions.lend_slot();
        let job = Job {
            work: JobWork::Floor {
                scope,
                floor,
                floors,
            },
            stage: JobStage::Stored,
        };
        put_in_place(&mut self.job, Some(job));
        Ok(())
    }

    // Why a floor is not raised to a time.
    fn floor_refusal(&self, scope: Option<u16>, floor: u64) -> Option<StartFault>
        ensures is { result ≡ floor_refusal self.now scope floor }
        ensures relation { IsRelation scope }
    {
        if self.transactions.has_failed() {
            return Some(StartFault::Failed);
        }
        if is_wrong_profile(self.log.profile(), scope) {
            return Some(StartFault::WrongProfile);
        }
        if self.job.is_some() {
            return Some(StartFault::JobBusy);
        }
        if floor <= self.transactions.floors().at(covered(scope)) {
            return Some(StartFault::NothingToDo);
        }
        let last = self.transactions.last();
        if last < floor {
            return Some(StartFault::NotYet(last));
        }
        self.refusal_for_use(floor)
    }

    /// Begins to make a piece of 256 slots more: `job_pump` writes its zeros, and then opens its gate. It
    /// takes no slot, and holds up no group. No call of the disk is made, and no memory is taken. Where
    /// it is refused nothing changes.
    pub fn grow_start(&mut self) -> Result<(), StartFault>
        ensures { StartsGrowth self.old result self.new }
    {
        if let Some(fault) = self.refusal_to_grow() {
            return Err(fault);
        }
        let Some(growth) = self.log.next_piece() else {
            return Err(StartFault::NotGrowable);
        };
        let job = Job {
            work: JobWork::Grow { growth },
            stage: JobStage::Writing,
        };
        put_in_place(&mut self.job, Some(job));
        Ok(())
    }

    // Why the store does not grow, whatever its log is.
    fn refusal_to_grow(&self) -> Option<StartFault>
        ensures { result ≡ refusal_to_grow self.now }
    {
        if self.transactions.has_failed() {
            return Some(StartFault::Failed);
        }
        if self.job.is_some() {
            return Some(StartFault::JobBusy);
        }
        None
    }

    // Why no job begins that takes what stood before a time, where nothing else bars it: a transaction
    // reads it, or no slot is spare.
    fn refusal_for_use(&self, time: u64) -> Option<StartFault>
        ensures { result ≡ refusal_for_use self.now (below (oldest self.now.transactions) time) }
    {
        if let Some(oldest) = self.transactions.oldest() {
            if oldest < time {
                return Some(StartFault::InUse(oldest));
            }
        }
        if self.transactions.spare() == 0 {
            return Some(StartFault::StatusFull);
        }
        None
    }
}

// Whether a store of this profile has no floors of this kind: of one relation, or of every relation.
fn is_wrong_profile(profile: Profile, scope: Option<u16>) -> bool
    ensures { result ≡ is_wrong_profile profile scope }
{
    match scope {
        None => profile.has_own_floors(),
        Some(_) => !profile.has_own_floors(),
    }
}

// A relation that the floor is of.
fn covered(scope: Option<u16>) -> u16
    ensures { result ≡ covered scope }
{
    match scope {
        None => 0,
        Some(relation) => relation,
    }
}

// The number of the first of these extents, 0 for none.
pub(crate) fn first_number(extents: &[Extent]) -> u32
    ensures { result ≡ first_number extents.now }
{
    match extents {
        [] => 0,
        [first, ..] => first.number(),
    }
}
