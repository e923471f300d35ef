//! The chains that the log names.

ghost use Rattle.std.specs.Prelude.{◌≡◌, ℕ, IsTrue, IfOk, IfErr, map};
ghost use Rattle.law_image.specs.Log.{AreRisingAfter, last_time_after};
ghost use Rattle.status.specs.Rules.{head_of};
ghost use Rattle.status.specs.Reading.{AreSlots};
ghost use Rattle.law_layout.specs.Layouts.{entries_of, later_than, anchors_after, no_anchors};
ghost use Rattle.law_layout.specs.Opening.{mark_of};
ghost use Rattle.recovery.specs.Answers.{after_reads};
ghost use Rattle.recovery.specs.Faults.{IsHeapFault};
ghost use Rattle.recovery.specs.HeapReads.{HoldsEntries, IsMembersFault};

use crate::fault::OpenFault;
use crate::members::read_members;
use crate::recovered::HeapRead;
use disk::{Area, Disk};
use std::alloc::Global;
use wire::{Anchors, Body, Member, Slot};

/// The anchors of the last reclaim that the slots name, and its mark; all numbers are 0 where there is
/// none.
pub fn last_anchors(slots: &[Slot]) -> Anchors
    ensures { result ≡ anchors_after no_anchors slots.now }
{
    let mut anchors = Anchors {
        upto: 0,
        first: 0,
        extents: 0,
        records: 0,
    };
    let mut rest = slots;
    while let [slot, after @ ..] = rest {
        if let Body::Reclaimed(reclaimed) = &slot.body {
            anchors = *reclaimed;
        }
        rest = after;
    }
    anchors
}

// The commits later than a mark.
fn later_than(mark: u64, entries: &[Member]) -> &[Member]
    requires { AreRisingAfter 0 (map head_of entries.now) }
    ensures { result.now ≡ later_than mark entries.now }
{
    let mut rest = entries;
    while let [entry, after @ ..] = rest {
        if mark < entry.time {
            return rest;
        }
        rest = after;
    }
    rest
}

/// What the heap holds of the chains that the slots name: those of the last reclaim's anchors and of
/// the commits later than its mark.
pub fn read_heap<D: Disk>(
    alloc: Global,
    disk: &mut D,
    slots: &[Slot],
    entries: &[Member],
) -> Result<HeapRead, OpenFault>
    requires slots { (profile : ℕ) × AreSlots profile slots.now }
    requires entries { entries.now ≡ entries_of slots.now }
    ensures last { IfOk result (λ heap. heap.last ≡ last_time_after 0 (map head_of (entries_of slots.now))) }
    ensures read { IsTrue D.tells → IfOk result (HoldsEntries (D.state disk.old).areas.heap.bytes (mark_of slots.now) (anchors_after no_anchors slots.now)
        (later_than (mark_of slots.now) (entries_of slots.now))) }
    ensures first { IsTrue D.tells → IfErr result (IsMembersFault (D.state disk.old).areas.heap.bytes (mark_of slots.now) (anchors_after no_anchors slots.now)
        (later_than (mark_of slots.now) (entries_of slots.now))) }
    ensures fault { IfErr result IsHeapFault }
    ensures reads { D.state disk.new ≡ after_reads result (D.state disk.old) }
{
    let anchors = last_anchors(slots);
    let heap_len = disk.len(Area::Heap)?;
    let later = later_than(anchors.upto, entries);
    read_members(alloc, disk, heap_len, &anchors, later)
}
