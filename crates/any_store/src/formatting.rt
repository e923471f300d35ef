//! Making the image of a new store, in either layout.
ghost use Rattle.std.specs.Prelude.{◌≡◌, ◌↔◌, IsTrue, IfOk, IfErr, OnOk, Err};
ghost use Rattle.disk.specs.Calls.{looked};
ghost use Rattle.recovery.specs.Format.{IsTakenAnswer, refusals_after};
ghost use Rattle.any_store.specs.Formats.{IsSize, HasStore, IsOccupied, IsFormatted, FormatRefuses};

use disk::{DeviceFault, Disk};
use log_roots::is_heap_size;
use recovery::FormatFault;
use status::{LEAST_SLOTS, LogFault, MOST_SLOTS, read_header};
use std::alloc::Global;

/// How the log of a new store is to lie on the disk, and its size.
#[derive(Clone, Copy, Debug, PartialEq, Eq)]
pub enum Layout {
    /// So many slots of the status area, 16 to 65,536 (profile 3).
    Slots(u32),
    /// A heap of so many extents, a multiple of 16 from 64 to 1,048,576, with the log in it (profile 4).
    Log(u32),
}

impl Layout {
    /// Whether a new store may have this size.
    pub fn has_size(self) -> bool
        ensures { IsTrue result ↔ IsSize self }
    {
        match self {
            Layout::Slots(slots) => LEAST_SLOTS <= slots && slots <= MOST_SLOTS,
            Layout::Log(extents) => is_heap_size(extents),
        }
    }
}

// Whether a store of either layout stands on the disk already.
fn is_taken<D: Disk>(disk: &mut D) -> Result<bool, DeviceFault>
    ensures taken { IsTrue D.tells → IfOk result (λ found. IsTrue found ↔ HasStore (D.state disk.old).areas.status.bytes) }
    ensures same { D.state disk.new ≡ looked result (D.state disk.old) }
{
    if log_store::has_log_header(disk)? {
        return Ok(true);
    }
    match read_header(disk) {
        Ok(_) => Ok(true),
        Err(LogFault::Device) => Err(DeviceFault),
        Err(_) => Ok(false),
    }
}

// The format of the layout's engine.
fn format_as<D: Disk>(alloc: Global, disk: &mut D, layout: Layout) -> Result<(), FormatFault>
    requires { IsSize layout }
    ensures good_size { ¬ (result ≡ Err FormatFault.BadSlots) }
    ensures occupied { IsTrue D.tells → result ≡ Err FormatFault.Occupied → IsOccupied layout (D.state disk.old).areas.status.bytes }
    ensures formatted { IsTrue D.tells → OnOk result (IsFormatted layout (D.state disk.old).areas (D.state disk.new).areas) }
    ensures refuses { IfErr result (λ fault. FormatRefuses D.tells layout (D.state disk.old) fault (D.state disk.new)) }
    ensures refused { (D.state disk.new).refused ≡ refusals_after result (D.state disk.old).refused }
{
    match layout {
        Layout::Slots(slots) => recovery::format(alloc, disk, slots),
        Layout::Log(extents) => log_store::format(disk, extents),
    }
}

/// Makes the image of a new store of this layout, where there is no store of either layout. Slots leave the heap and the archive as
/// they are; a log in the heap leaves the archive, and what follows the first extent and the header.
///
/// A stop within a format of slots leaves the first 512 bytes as they were, or all slots closed; one of a log leaves the status area as
/// it was, or the first extent zeros. Where it is refused before its first write, nothing has changed; later, a next call goes by what
/// the status area then holds. Where there is a store, nothing changes in any case.
///
/// # Errors
///
/// `BadSlots` for a size that the layout has not, before the disk is read; `Occupied` where there is a header of either layout;
/// `NoMemory` before any write, and of slots alone; `Device` where the disk refused a call.
pub fn format<D: Disk>(alloc: Global, disk: &mut D, layout: Layout) -> Result<(), FormatFault>
    ensures bad_size { (result ≡ Err FormatFault.BadSlots) ↔ ¬ IsSize layout }
    ensures occupied { IsTrue D.tells → result ≡ Err FormatFault.Occupied → IsOccupied layout (D.state disk.old).areas.status.bytes }
    ensures free { IsTrue D.tells → HasStore (D.state disk.old).areas.status.bytes
        → IsTakenAnswer result × ((D.state disk.new).areas ≡ (D.state disk.old).areas) }
    ensures formatted { IsTrue D.tells → OnOk result (IsFormatted layout (D.state disk.old).areas (D.state disk.new).areas) }
    ensures refuses { IfErr result (λ fault. FormatRefuses D.tells layout (D.state disk.old) fault (D.state disk.new)) }
    ensures refused { (D.state disk.new).refused ≡ refusals_after result (D.state disk.old).refused }
{
    if !layout.has_size() {
        return Err(FormatFault::BadSlots);
    }
    if is_taken(disk)? {
        return Err(FormatFault::Occupied);
    }
    format_as(alloc, disk, layout)
}
