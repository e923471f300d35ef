//! What is shown of the log of a store.

ghost use Rattle.std.specs.Prelude.{◌≡◌, IsTrue, IfOk, IfErr};
ghost use Rattle.recovery.specs.Answers.{after_reads};
ghost use Rattle.log_roots.specs.Roots.{IsRoots};
ghost use Rattle.log_shown.specs.Shown.{IsLogShown, IsShownFault};

use crate::items::LogItem;
use crate::reading::{HeapShown, ShownEnd, show_heap};
use disk::{Area, Disk};
use log_recovery::{HeapSize, read_roots};
use log_roots::Roots;
use recovery::OpenFault;
use std::alloc::Global;

/// What is shown of the log of a store, up to the first check that fails.
#[derive(Drop)]
pub struct LogShown {
    /// How many extents the heap may have, and where the log begins.
    pub roots: Roots,
    pub items: Vec<LogItem>,
    pub end: ShownEnd,
}

/// Reads what is shown of the log of a store, which is not opened: its chains, up to the first check of opening that
/// fails. It only reads. How far runs and rolls reach within the archive is not looked at.
///
/// # Errors
///
/// `NotAStore` where there is no header; `Device` where the disk refused a read; `NoMemory`.
pub fn read_shown<D: Disk>(alloc: Global, disk: &mut D) -> Result<LogShown, OpenFault>
    ensures shown { IsTrue D.tells → IfOk result (IsLogShown (D.state disk.old).areas.status.bytes (D.state disk.old).areas.heap.bytes) }
    ensures in_range { IfOk result (λ shown. IsRoots shown.roots) }
    ensures fault { IsTrue D.tells → IfErr result (IsShownFault (D.state disk.old).areas.status.bytes) }
    ensures reads { D.state disk.new ≡ after_reads result (D.state disk.old) }
{
    let roots = match read_roots(disk) {
        Ok(roots) => roots,
        Err(fault) => return Err(fault),
    };
    let size = HeapSize {
        most: roots.extents,
        len: disk.len(Area::Heap)?,
    };
    match show_heap(alloc, disk, size, roots.root()) {
        Ok(HeapShown { items, end }) => Ok(LogShown { roots, items, end }),
        Err(fault) => Err(fault),
    }
}
