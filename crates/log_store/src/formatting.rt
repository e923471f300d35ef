//! Making the image of a new store.
ghost use Rattle.std.specs.Prelude.{◌≡◌, ◌↔◌, IsTrue, IfOk, IfErr, OnOk, OnErr, Err};
ghost use Rattle.disk.specs.Calls.{looked, refusals};
ghost use Rattle.recovery.specs.Format.{IsTakenAnswer, CountsFirst, refusals_after};
ghost use Rattle.log_roots.specs.Roots.{IsHeapSize};
ghost use Rattle.log_store.specs.Formats.{IsLogHeader, HasLogHeader, IsAnyHeader, IsOccupied, new_roots, zeroed, headed, formatted, FormatStops, FormatRefuses};

use deltas::EXTENT_LEN;
use disk::{Area, DeviceFault, Disk};
use log_roots::{HEADER_LEN, Roots, decode, encode, is_heap_size};
use recovery::FormatFault;
use status::decode_header;

// Whether these bytes are the header of a store whose log lies in the heap.
fn is_log_header(front: &[u8; HEADER_LEN]) -> bool
    ensures { IsTrue result ↔ IsLogHeader front.now }
{
    match decode(front) {
        Some(_) => true,
        None => false,
    }
}

// Whether these bytes are the header of a store, of any profile.
fn is_header(front: &[u8; HEADER_LEN]) -> bool
    ensures { IsTrue result ↔ IsAnyHeader front.now }
{
    match decode_header(front) {
        Some(_) => true,
        None => is_log_header(front),
    }
}

// Whether a header stands in front already.
fn is_occupied<D: Disk>(disk: &mut D) -> Result<bool, DeviceFault>
    ensures occupied { IsTrue D.tells → IfOk result (λ found. IsTrue found ↔ IsOccupied (D.state disk.old).areas.status.bytes) }
    ensures same { D.state disk.new ≡ looked result (D.state disk.old) }
{
    if disk.len(Area::Status)? < HEADER_LEN as u64 {
        return Ok(false);
    }
    let mut front = [0; HEADER_LEN];
    disk.read(Area::Status, 0, &mut front)?;
    Ok(is_header(&front))
}

/// Whether the disk's header is that of a store whose log lies in the heap.
///
/// # Errors
///
/// Where the device refuses a read.
pub fn has_log_header<D: Disk>(disk: &mut D) -> Result<bool, DeviceFault>
    ensures has { IsTrue D.tells → IfOk result (λ found. IsTrue found ↔ HasLogHeader (D.state disk.old).areas.status.bytes) }
    ensures same { D.state disk.new ≡ looked result (D.state disk.old) }
{
    if disk.len(Area::Status)? < HEADER_LEN as u64 {
        return Ok(false);
    }
    let mut front = [0; HEADER_LEN];
    disk.read(Area::Status, 0, &mut front)?;
    Ok(is_log_header(&front))
}

// The first extent is zeros, on the disk: the log of a new store ends there, at a closed gate.
fn zero_first<D: Disk>(disk: &mut D) -> Result<(), DeviceFault>
    ensures zeroed { IsTrue D.tells → OnOk result ((D.state disk.new).areas ≡ record (D.state disk.old).areas { heap = zeroed (D.state disk.old).areas.heap }) }
    ensures stop { IsTrue D.tells → (D.state disk.new).areas ≡ record (D.state disk.old).areas { heap = (D.state disk.new).areas.heap } }
    ensures first { CountsFirst (D.state disk.old) (D.state disk.new) }
    ensures refused { (D.state disk.new).refused ≡ refusals result (D.state disk.old).refused }
{
    disk.write_at(Area::Heap, 0, &[0; EXTENT_LEN])?;
    disk.sync(Area::Heap)?;
    Ok(())
}

/// What the header of a new store says.
pub(crate) fn new_roots(extents: u32) -> Roots
    ensures { result ≡ new_roots extents }
{
    Roots {
        extents,
        turned: false,
        root_0: 1,
        root_1: 0,
    }
}

// The header, on the disk.
fn put_header<D: Disk>(disk: &mut D, extents: u32) -> Result<(), DeviceFault>
    ensures headed { IsTrue D.tells → OnOk result ((D.state disk.new).areas
        ≡ record (D.state disk.old).areas { status = headed extents (D.state disk.old).areas.status }) }
    ensures stop { IsTrue D.tells → (D.state disk.new).areas ≡ record (D.state disk.old).areas { status = (D.state disk.new).areas.status } }
    ensures first { CountsFirst (D.state disk.old) (D.state disk.new) }
    ensures refused { (D.state disk.new).refused ≡ refusals result (D.state disk.old).refused }
{
    disk.write_at(Area::Status, 0, &encode(&new_roots(extents)))?;
    disk.sync(Area::Status)?;
    Ok(())
}

// Both steps of a format.
fn write_store<D: Disk>(disk: &mut D, extents: u32) -> Result<(), DeviceFault>
    ensures formatted { IsTrue D.tells → OnOk result ((D.state disk.new).areas ≡ formatted extents (D.state disk.old).areas) }
    ensures stop { IsTrue D.tells → OnErr result (FormatStops (D.state disk.old).areas (D.state disk.new).areas) }
    ensures first { CountsFirst (D.state disk.old) (D.state disk.new) }
    ensures refused { (D.state disk.new).refused ≡ refusals result (D.state disk.old).refused }
{
    zero_first(disk)?;
    put_header(disk, extents)?;
    Ok(())
}

/// Makes the image of a new store whose heap has so many extents. The archive stays as it is, and so does what follows the
/// first extent and the header.
///
/// A stop within a format leaves the first 512 bytes of the status area as they were, or the first extent zeros. Where it is refused
/// before its first write, nothing has changed.
///
/// # Errors
///
/// `BadSlots` unless the number is a multiple of 16 from 64 to 1,048,576; `Occupied` where there is a header, of any profile; `Device`
/// where the disk refused a call.
pub fn format<D: Disk>(disk: &mut D, extents: u32) -> Result<(), FormatFault>
    ensures bad_size { (result ≡ Err FormatFault.BadSlots) ↔ ¬ IsHeapSize extents }
    ensures occupied { IsTrue D.tells → result ≡ Err FormatFault.Occupied → IsOccupied (D.state disk.old).areas.status.bytes }
    ensures free { IsTrue D.tells → IsOccupied (D.state disk.old).areas.status.bytes → IsTakenAnswer result }
    ensures formatted { IsTrue D.tells → OnOk result ((D.state disk.new).areas ≡ formatted extents (D.state disk.old).areas) }
    ensures stop { IsTrue D.tells → OnErr result (FormatStops (D.state disk.old).areas (D.state disk.new).areas) }
    ensures refuses { IfErr result (λ fault. FormatRefuses D.tells (D.state disk.old) fault (D.state disk.new)) }
    ensures refused { (D.state disk.new).refused ≡ refusals_after result (D.state disk.old).refused }
{
    if !is_heap_size(extents) {
        return Err(FormatFault::BadSlots);
    }
    if is_occupied(disk)? {
        return Err(FormatFault::Occupied);
    }
    write_store(disk, extents)?;
    Ok(())
}
