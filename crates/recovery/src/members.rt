//! The chains of the log's commits, after that of the anchors.

ghost use Rattle.std.specs.Prelude.{◌≡◌, ◌<◌, ◌≤◌, ◌^◌, ◌++◌, ◌∷◌, [], ℕ, IsTrue, IfOk, IfErr, IfSome, MatchOption, map, length};
ghost use Rattle.std.specs.List.{AllByRecursion};
ghost use Rattle.history.specs.declared.key.Key.{Key};
ghost use Rattle.law_image.specs.Log.{AreRisingAfter, last_time_after};
ghost use Rattle.law_image.specs.Facts.{IsStored, write_of};
ghost use Rattle.chains.specs.KeyWrites.{writes_of, latest};
ghost use Rattle.chains.specs.Writes.{written};
ghost use Rattle.deltas.specs.Records.{heap_record};
ghost use Rattle.deltas.specs.Chains.{AreRecordsOf};
ghost use Rattle.deltas.specs.declared.chain.Kinds.TheVariants.{OfCommit};
ghost use Rattle.status.specs.Rules.{head_of};
ghost use Rattle.wire.specs.Spelling.{IsMember};
ghost use Rattle.recovery.specs.Answers.{after_reads};
ghost use Rattle.recovery.specs.Faults.{IsReadFault, IsHeapFault};
ghost use Rattle.recovery.specs.Resolving.{before_of};
ghost use Rattle.recovery.specs.Chains.{live_named, AddsChain, HasNoChain};
ghost use Rattle.recovery.specs.HeapReads.{HoldsEntries, IsMembersFault};

use crate::anchors::read_anchors;
use crate::fault::OpenFault;
use crate::records::read_records;
use crate::recovered::{HeapRead, LiveChain};
use crate::resolving::resolve;
use chains::Frozen;
use deltas::{ChainName, Kinds, Record};
use disk::{Area, Disk};
use std::alloc::{AllocError, Global};
use wire::{Anchors, Member};

/// The writes of every key with those of a commit's records more. None where a record is not the one that its write is stored as.
pub fn with_records(
    alloc: Global,
    chains: Frozen,
    time: u64,
    records: Vec<Record>,
) -> Result<Option<Frozen>, AllocError>
    requires records { AreRecordsOf OfCommit records.items }
    requires later { latest chains < time }
    requires in_range { time < 2 ^ 63 }
    ensures found { IfOk result (λ o. MatchOption o (¬ AllByRecursion (IsStored (before_of chains)) (map heap_record records.items))
        (λ next. AllByRecursion (IsStored (before_of chains)) (map heap_record records.items)
        × ((key : Key) → writes_of next key ≡ writes_of chains key ++ written time (map (write_of (before_of chains)) (map heap_record records.items)) key))) }
    ensures latest { IfOk result (λ o. IfSome o (λ next. latest next ≤ time)) }
{
    let Some(writes) = resolve(alloc, &chains, records)? else {
        return Ok(None);
    };
    let next = chains.into_commit(alloc, time, &writes)?;
    Ok(Some(next))
}

// One live chain more.
fn with_chain(
    mut live: Vec<LiveChain>,
    time: u64,
    extents: Vec<u32>,
) -> Result<Vec<LiveChain>, AllocError>
    ensures { IfOk result (λ more. map live_named more.items ≡ map live_named live.items ++ (time, extents.items) ∷ []) }
{
    live.push(LiveChain { time, extents })?;
    Ok(live)
}

// The heap with one commit's chain more. None where the chain is not right.
fn read_member<D: Disk>(
    alloc: Global,
    disk: &mut D,
    heap_len: u64,
    heap: HeapRead,
    entry: &Member,
) -> Result<Option<HeapRead>, OpenFault>
    requires len { IsTrue D.tells → heap_len ≡ length (D.state disk.old).areas.heap.bytes }
    requires later { heap.last < entry.now.time }
    requires in_range { entry.now.time < 2 ^ 63 }
    ensures last { IfOk result (λ o. IfSome o (λ next. next.last ≡ entry.now.time)) }
    ensures found { IsTrue D.tells → IfOk result (λ o. MatchOption o (HasNoChain (D.state disk.old).areas.heap.bytes heap_len heap entry.now)
        (AddsChain (D.state disk.old).areas.heap.bytes heap_len entry.now heap)) }
    ensures fault { IfErr result IsReadFault }
    ensures reads { D.state disk.new ≡ after_reads result (D.state disk.old) }
{
    let HeapRead {
        mut extents,
        live,
        chains,
        last: _,
    } = heap;
    let name = ChainName {
        first: entry.first,
        extents: entry.extents,
        records: entry.records,
    };
    let Some(read) = read_records(alloc, disk, heap_len, &mut extents, name, Kinds::OfCommit)?
    else {
        return Ok(None);
    };
    let Some(chains) = with_records(alloc, chains, entry.time, read.records)? else {
        return Ok(None);
    };
    let live = with_chain(live, entry.time, read.numbers)?;
    Ok(Some(HeapRead {
        extents,
        live,
        chains,
        last: entry.time,
    }))
}

// A fault of reading is one of reading the heap.
fn as_heap_fault(fault: OpenFault) -> OpenFault
    requires { IsReadFault fault }
    ensures same { result ≡ fault }
    ensures heap { IsHeapFault result }
{
    fault
}

/// The chain of the anchors, and those of the commits later than their mark, one after another.
pub fn read_members<D: Disk>(
    alloc: Global,
    disk: &mut D,
    heap_len: u64,
    anchors: &Anchors,
    entries: &[Member],
) -> Result<HeapRead, OpenFault>
    requires len { IsTrue D.tells → heap_len ≡ length (D.state disk.old).areas.heap.bytes }
    requires mark { anchors.now.upto < 2 ^ 63 }
    requires rising { AreRisingAfter anchors.now.upto (map head_of entries.now) }
    requires in_range { AllByRecursion IsMember entries.now }
    ensures last { IfOk result (λ heap. heap.last ≡ last_time_after anchors.now.upto (map head_of entries.now)) }
    ensures read { IsTrue D.tells → IfOk result (HoldsEntries (D.state disk.old).areas.heap.bytes anchors.now.upto anchors.now entries.now) }
    ensures first { IsTrue D.tells → IfErr result (IsMembersFault (D.state disk.old).areas.heap.bytes anchors.now.upto anchors.now entries.now) }
    ensures fault { IfErr result IsHeapFault }
    ensures reads { D.state disk.new ≡ after_reads result (D.state disk.old) }
{
    let mut heap = match read_anchors(alloc, disk, heap_len, anchors) {
        Ok(Some(heap)) => heap,
        Ok(None) => return Err(OpenFault::Damaged(Area::Heap, anchors.first as u64)),
        Err(fault) => return Err(as_heap_fault(fault)),
    };
    let mut rest = entries;
    while let Some((entry, after)) = rest.split_first() {
        match read_member(alloc, disk, heap_len, heap, entry) {
            Ok(Some(next)) => heap = next,
            Ok(None) => return Err(OpenFault::Damaged(Area::Heap, entry.first as u64)),
            Err(fault) => return Err(as_heap_fault(fault)),
        }
        rest = after;
    }
    Ok(heap)
}
