//! Reading the image of a store.

ghost use Rattle.std.specs.Prelude.{◌≡◌, ◌≤◌, ◌<◌, ◌^◌, ℕ, IsTrue, IfOk, IfErr, IfSome, IfNone, OnOk, OnErr, map, length, Err, flat_map};
ghost use Rattle.std.specs.List.{AllByRecursion};
ghost use Rattle.disk.specs.Areas.{image_of, settled_on, LeavesNoMore};
ghost use Rattle.disk.specs.Calls.{refusals};
ghost use Rattle.law_image.specs.Log.{AreRisingAfter, last_time_after};
ghost use Rattle.floors.specs.Floors.{floor_at};
ghost use Rattle.status.specs.Header.{total};
ghost use Rattle.status.specs.Rules.{head_of, row_end, AreInRow, KeepsRules};
ghost use Rattle.law_image.specs.Reading.{Reading};
ghost use Rattle.law_layout.specs.Layouts.{Layout, entries_of};
ghost use Rattle.law_layout.specs.Opening.{EndsWithin, FailsRuns};
ghost use Rattle.status.specs.declared.header.Header.{Header};
ghost use Rattle.chains.specs.KeyWrites.{latest};
ghost use Rattle.status.specs.Reading.{ReadsHeader};
ghost use Rattle.recovery.specs.Answers.{after_reads};
ghost use Rattle.recovery.specs.Faults.{IsReadFault, IsHeaderFault, IsRunsFault, IsImageFault};
ghost use Rattle.recovery.specs.ReadsImage.{IsOpening, IsReadFrom};
ghost use Rattle.recovery.specs.Refusals.{refusals_at_opening};
ghost use Rattle.recovery.specs.RunEntries.{runs_named, AreMarkedFrom};
ghost use Rattle.recovery.specs.Settling.{Settles, CountsMore, CountsAtMost};

use crate::fault::OpenFault;
use crate::heap::read_heap;
use crate::recovered::Recovered;
use crate::runs::read_runs;
use archive::RunEntry;
use disk::{Area, DeviceFault, Disk};
use status::{Header, LogRead, MOST_SLOTS, read_header, read_to_end};
use std::alloc::{AllocError, Global};
use wire::{Body, Member, Slot};

const MOST_TOTAL: u64 = MOST_SLOTS as u64;

// The commits that the slots name, in order.
fn entries(alloc: Global, slots: &[Slot]) -> Result<Vec<Member>, AllocError>
    ensures { IfOk result (λ entries. entries.items ≡ entries_of slots.now) }
{
    let mut entries = Vec::new(alloc);
    let mut rest = slots;
    while let [slot, after @ ..] = rest {
        if let Body::Commit(members) = &slot.body {
            entries.extend_from_slice(members.as_slice())?;
        }
        rest = after;
    }
    Ok(entries)
}

/// Syncs the three areas in turn. All that was written is on the disk from now on.
pub fn settle<D: Disk>(disk: &mut D) -> Result<(), DeviceFault>
    ensures settled { IsTrue D.tells → OnOk result ((D.state disk.new).areas ≡ settled_on (image_of (D.state disk.old).areas)) }
    ensures read { IsTrue D.tells → image_of (D.state disk.new).areas ≡ image_of (D.state disk.old).areas }
    ensures left { IsTrue D.tells → LeavesNoMore (D.state disk.old).areas (D.state disk.new).areas }
    ensures moments { Settles D.tells (D.state disk.old) (D.state disk.new) }
    ensures made { OnOk result (CountsMore 3 (D.state disk.old) (D.state disk.new)) }
    ensures most { CountsAtMost 3 (D.state disk.old) (D.state disk.new) }
    ensures refused { (D.state disk.new).refused ≡ refusals result (D.state disk.old).refused }
{
    disk.sync(Area::Status)?;
    disk.sync(Area::Heap)?;
    disk.sync(Area::Archive)?;
    Ok(())
}

// Where the first run starts that does not end within an archive of this length.
fn first_past(runs: &[RunEntry], archive_len: u64) -> Option<u64>
    ensures some { IfSome result (FailsRuns archive_len (runs_named runs.now)) }
    ensures none { IfNone result (AllByRecursion (EndsWithin archive_len) (runs_named runs.now)) }
{
    let mut rest = runs;
    while let [run, after @ ..] = rest {
        if archive_len < run.slot.start + run.slot.len {
            return Some(run.slot.start);
        }
        rest = after;
    }
    None
}

// Whether each run ends within the archive.
fn check_runs<D: Disk>(disk: &mut D, runs: &[RunEntry]) -> Result<(), OpenFault>
    ensures within { IsTrue D.tells → OnOk result (AllByRecursion (EndsWithin (length (D.state disk.old).areas.archive.bytes)) (runs_named runs.now)) }
    ensures fault { IsTrue D.tells → IfErr result (IsRunsFault (length (D.state disk.old).areas.archive.bytes) (runs_named runs.now)) }
    ensures reads { D.state disk.new ≡ after_reads result (D.state disk.old) }
{
    let archive_len = disk.len(Area::Archive)?;
    match first_past(runs, archive_len) {
        Some(start) => Err(OpenFault::Damaged(Area::Archive, start)),
        None => Ok(()),
    }
}

// A header of at most 65,536 slots.
fn find_header<D: Disk>(disk: &mut D) -> Result<Header, OpenFault>
    ensures found { IsTrue D.tells → IfOk result (ReadsHeader (D.state disk.old).areas.status.bytes) }
    ensures fault { IsTrue D.tells → IfErr result (IsHeaderFault (D.state disk.old).areas.status.bytes) }
    ensures few { IfOk result (λ header. total header ≤ 65536) }
    ensures reads { D.state disk.new ≡ after_reads result (D.state disk.old) }
{
    let header = read_header(disk)?;
    if header.total() > MOST_TOTAL {
        return Err(OpenFault::NotAStore);
    }
    Ok(header)
}

// The image of a settled disk.
fn read_settled<D: Disk>(alloc: Global, disk: &mut D) -> Result<Recovered, OpenFault>
    ensures used { IfOk result (λ r. (r.used ≤ total r.header) × (total r.header ≤ 65536)) }
    ensures rising { IfOk result (λ r. AreRisingAfter 0 (map head_of r.commits.items)) }
    ensures last { IfOk result (λ r. r.last ≡ last_time_after 0 (map head_of r.commits.items)) }
    ensures latest { IfOk result (λ r. latest r.chains ≤ r.last) }
    ensures archived { IfOk result (λ r. r.archived ≤ r.last) }
    ensures floors { IfOk result (λ r. (relation : ℕ) → floor_at r.floors relation ≤ r.last) }
    ensures runs { IfOk result (λ r. AreInRow 0 (runs_named r.runs.items) × AreMarkedFrom 0 r.runs.items) }
    ensures runs_end { IfOk result (λ r. r.runs_end ≡ row_end 0 (runs_named r.runs.items)) }
    ensures found { IsTrue D.tells → IfOk result (IsReadFrom (image_of (D.state disk.old).areas)) }
    ensures fault { IsTrue D.tells → IfErr result (IsImageFault (image_of (D.state disk.old).areas)) }
    ensures reads { D.state disk.new ≡ after_reads result (D.state disk.old) }
{
    let header = find_header(disk)?;
    let log = read_to_end(alloc, disk, &header)?;
    let LogRead { slots, end } = log;
    let entries = entries(alloc, &slots)?;
    let heap = match read_heap(alloc, disk, &slots, &entries) {
        Ok(heap) => heap,
        Err(fault) => return Err(fault),
    };
    let runs = read_runs(alloc, &slots)?;
    check_runs(disk, &runs)?;
    Ok(Recovered {
        header,
        used: slots.len() as u32,
        commits: entries,
        floors: end.floors,
        archived: end.archived,
        reclaimed: end.reclaimed,
        runs,
        runs_end: end.runs_end,
        extents: heap.extents,
        live: heap.live,
        chains: heap.chains,
        last: heap.last,
    })
}

/// Reads the image of a store. It first syncs all three areas, and then only reads: a stop meanwhile
/// leaves nothing that it might not have left before.
///
/// # Errors
///
/// Of the checks that fail, the first: `NotAStore` where there is no header; `Damaged` with the slot's number, the
/// first extent of the chain or the start of the run. `Device` where the disk refused a call; `NoMemory`.
pub fn read_image<D: Disk>(alloc: Global, disk: &mut D) -> Result<Recovered, OpenFault>
    ensures used { IfOk result (λ r. (r.used ≤ total r.header) × (total r.header ≤ 65536)) }
    ensures rising { IfOk result (λ r. AreRisingAfter 0 (map head_of r.commits.items)) }
    ensures last { IfOk result (λ r. r.last ≡ last_time_after 0 (map head_of r.commits.items)) }
    ensures latest { IfOk result (λ r. latest r.chains ≤ r.last) }
    ensures archived { IfOk result (λ r. r.archived ≤ r.last) }
    ensures floors { IfOk result (λ r. (relation : ℕ) → floor_at r.floors relation ≤ r.last) }
    ensures runs { IfOk result (λ r. AreInRow 0 (runs_named r.runs.items) × AreMarkedFrom 0 r.runs.items) }
    ensures runs_end { IfOk result (λ r. r.runs_end ≡ row_end 0 (runs_named r.runs.items)) }

    ensures found { IsTrue D.tells → IfOk result (IsReadFrom (image_of (D.state disk.old).areas)) }
    ensures fault { IsTrue D.tells → IfErr result (IsImageFault (image_of (D.state disk.old).areas)) }
    ensures opens { IsTrue D.tells → (header : Header) (layout : Layout) (reading : Reading)
        → IsOpening header (image_of (D.state disk.old).areas) layout reading → IfErr result IsReadFault }

    ensures settled { IsTrue D.tells → OnOk result ((D.state disk.new).areas ≡ settled_on (image_of (D.state disk.old).areas)) }
    ensures read { IsTrue D.tells → image_of (D.state disk.new).areas ≡ image_of (D.state disk.old).areas }
    ensures left { IsTrue D.tells → LeavesNoMore (D.state disk.old).areas (D.state disk.new).areas }
    // Three syncs and no write: at each moment a stop leaves nothing that it might not have left before.
    ensures moments { Settles D.tells (D.state disk.old) (D.state disk.new) }
    ensures made { OnOk result (CountsMore 3 (D.state disk.old) (D.state disk.new)) }
    ensures most { CountsAtMost 3 (D.state disk.old) (D.state disk.new) }
    ensures refused { (D.state disk.new).refused ≡ refusals_at_opening result (D.state disk.old).refused }
{
    settle(disk)?;
    read_settled(alloc, disk)
}
