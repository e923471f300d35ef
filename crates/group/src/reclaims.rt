//! What a reclaim takes, and what it leaves.
ghost use Rattle.std.specs.Prelude.{◌≡◌};
ghost use Rattle.extents.specs.Times.{with_times};
ghost use Rattle.group.specs.Values.{KeepsSlots};
ghost use Rattle.group.specs.Reclaims.{oldest, Reserves, Prepares, reclaimed_to, versions_once};

use crate::transactions::Transactions;
use crate::{give_back_all, keep_taken, take_extents};
use chains::Frozen;
use extents::{ChainTimes, Extent};
use std::alloc::{AllocError, Global};
use std::mem;

/// Why no extents are taken for a job.
#[derive(Clone, Copy, Debug, PartialEq, Eq)]
pub enum ReserveFault {
    /// Fewer extents are free.
    HeapFull,
    NoMemory,
}

impl Transactions {
    /// The least snapshot of the open transactions, in microseconds since 1970.
    pub fn oldest(&self) -> Option<u64>
        ensures { result ≡ oldest self.now }
    {
        self.opened.least()
    }

    /// Takes so many extents for a job, each the least free one. What was taken for a job before is
    /// given back.
    pub fn reserve(&mut self, alloc: Global, count: u32) -> Result<(), ReserveFault>
        ensures is { Reserves self.old count result self.new }
        ensures slots { KeepsSlots self.old self.new }
    {
        if self.extents.free_count() < count {
            return Err(ReserveFault::HeapFull);
        }
        let Ok(taken) = take_extents(alloc, &mut self.extents, count as usize) else {
            return Err(ReserveFault::NoMemory);
        };
        let before = mem::replace(&mut self.reserved, taken);
        give_back_all(&mut self.extents, before);
        Ok(())
    }

    /// The extents that are out for a job.
    pub fn reserved(&self) -> &[Extent]
        ensures { result.now ≡ self.now.reserved }
    {
        self.reserved.as_slice()
    }

    /// Makes the published versions without what ended by the mark, in microseconds since 1970,
    /// while the others stay.
    pub fn prepare_reclaim(&mut self, alloc: Global, mark: u64) -> Result<(), AllocError>
        ensures is { Prepares self.old mark result self.new }
        ensures slots { KeepsSlots self.old self.new }
    {
        let Ok(pending) = self.versions.forget(alloc, mark) else {
            return Err(AllocError);
        };
        self.pending = Some(pending);
        Ok(())
    }

    /// The reclaim up to the mark, in microseconds since 1970, is done: the chains of the commits up
    /// to it and that of the anchors before are free, the extents that were out for the reclaim are
    /// kept, and what was made of the versions takes their place. It takes no memory.
    pub fn reclaim(&mut self, alloc: Global, mark: u64)
        ensures is { self.new ≡ reclaimed_to self.old mark }
        ensures slots { KeepsSlots self.old self.new }
    {
        self.extents.retire_by(&self.times, mark);
        let reserved = mem::replace(&mut self.reserved, Vec::new(alloc));
        set_anchors(&mut self.times, &reserved);
        keep_taken(&mut self.extents, reserved);
        let pending = mem::replace(&mut self.pending, None);
        put_versions(&mut self.versions, pending);
        self.reclaimed = mark;
    }
}

// These extents are in a chain of anchors.
fn set_anchors(times: &mut ChainTimes, extents: &[Extent])
    ensures { times.new ≡ with_times times.old extents.now 0 }
{
    let mut rest = extents;
    while let [extent, after @ ..] = rest {
        times.set(extent.number(), 0);
        rest = after;
    }
}

// What was made of the versions stands, where it was made.
fn put_versions(versions: &mut Frozen, pending: Option<Frozen>)
    ensures { versions.new ≡ versions_once pending versions.old }
{
    if let Some(made) = pending {
        *versions = made;
    }
}
