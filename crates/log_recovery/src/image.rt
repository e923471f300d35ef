//! Reading the image of a store whose log lies in the heap.

ghost use Rattle.std.specs.Prelude.{◌≡◌, ◌+◌, ◌<◌, ◌^◌, IsTrue, IfOk, IfErr, OnOk, length};
ghost use Rattle.std.specs.List.{AllByRecursion};
ghost use Rattle.wire.specs.Spelling.{IsRun};
ghost use Rattle.disk.specs.Areas.{image_of, settled_on, LeavesNoMore};
ghost use Rattle.recovery.specs.Answers.{after_reads};
ghost use Rattle.recovery.specs.Refusals.{refusals_at_opening};
ghost use Rattle.recovery.specs.Settling.{Settles, CountsMore, CountsAtMost};
ghost use Rattle.log_recovery.specs.Live.{live_count};
ghost use Rattle.log_recovery.specs.Opening.{IsImageFault};
ghost use Rattle.log_recovery.specs.Image.{IsReadFrom};

use crate::archive_parts::first_past;
use crate::opening::{LogHeap, read_heap};
use crate::roots::read_roots;
use crate::taking::HeapSize;
use disk::{Area, Disk};
use log_roots::Roots;
use recovery::{OpenFault, settle};
use std::alloc::Global;

/// What the image of a store says whose log lies in the heap.
#[derive(Drop)]
pub struct LogRecovered {
    /// How many extents the heap may have, and where the log begins.
    pub roots: Roots,
    pub heap: LogHeap,
}

// The image of a settled disk.
fn read_settled<D: Disk>(alloc: Global, disk: &mut D) -> Result<LogRecovered, OpenFault>
    ensures mark { IfOk result (λ read. read.heap.end.mark < 2 ^ 63) }
    ensures runs { IfOk result (λ read. AllByRecursion IsRun read.heap.end.runs.items) }
    ensures counted { IfOk result (λ read. read.heap.log ≡ live_count read.heap.live.items + 1) }
    ensures found { IsTrue D.tells → IfOk result (IsReadFrom (image_of (D.state disk.old).areas)) }
    ensures fault { IsTrue D.tells → IfErr result (IsImageFault (image_of (D.state disk.old).areas)) }
    ensures reads { D.state disk.new ≡ after_reads result (D.state disk.old) }
{
    let roots = match read_roots(disk) {
        Ok(roots) => roots,
        Err(fault) => return Err(fault),
    };
    let size = HeapSize {
        most: roots.extents,
        len: disk.len(Area::Heap)?,
    };
    let heap = match read_heap(alloc, disk, size, roots.root()) {
        Ok(heap) => heap,
        Err(fault) => return Err(fault),
    };
    let archive_len = disk.len(Area::Archive)?;
    match first_past(archive_len, &heap.end.runs, &heap.end.rolls) {
        Some(start) => Err(OpenFault::Damaged(Area::Archive, start)),
        None => Ok(LogRecovered { roots, heap }),
    }
}

/// Reads the image of a store whose log lies in the heap. It first syncs all three areas, and then only
/// reads: a stop meanwhile leaves nothing that it might not have left before.
///
/// # Errors
///
/// Of the checks that fail, the first: `NotAStore` where there is no header; `Damaged` with an extent of the
/// heap, or with the byte of the archive at which the first run or roll starts that does not end within it.
/// `Device` where the disk refused a call; `NoMemory`.
pub fn read_log<D: Disk>(alloc: Global, disk: &mut D) -> Result<LogRecovered, OpenFault>
    ensures mark { IfOk result (λ read. read.heap.end.mark < 2 ^ 63) }
    ensures runs { IfOk result (λ read. AllByRecursion IsRun read.heap.end.runs.items) }
    ensures counted { IfOk result (λ read. read.heap.log ≡ live_count read.heap.live.items + 1) }
    ensures found { IsTrue D.tells → IfOk result (IsReadFrom (image_of (D.state disk.old).areas)) }
    ensures fault { IsTrue D.tells → IfErr result (IsImageFault (image_of (D.state disk.old).areas)) }

    ensures settled { IsTrue D.tells → OnOk result ((D.state disk.new).areas ≡ settled_on (image_of (D.state disk.old).areas)) }
    ensures read { IsTrue D.tells → image_of (D.state disk.new).areas ≡ image_of (D.state disk.old).areas }
    ensures left { IsTrue D.tells → LeavesNoMore (D.state disk.old).areas (D.state disk.new).areas }
    // Three syncs and no write: at each moment a stop leaves nothing that it might not have left before.
    ensures moments { Settles D.tells (D.state disk.old) (D.state disk.new) }
    ensures made { OnOk result (CountsMore 3 (D.state disk.old) (D.state disk.new)) }
    ensures most { CountsAtMost 3 (D.state disk.old) (D.state disk.new) }
    ensures refused { (D.state disk.new).refused ≡ refusals_at_opening result (D.state disk.old).refused }
{
    settle(disk)?;
    read_settled(alloc, disk)
}
