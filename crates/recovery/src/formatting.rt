//! Making the image of a new store.

ghost use Rattle.std.specs.Prelude.{◌≡◌, ◌↔◌, ℕ, ◌+◌, ◌^◌, ◌<◌, ◌≤◌, IsTrue, IfOk, IfErr, OnOk, OnErr, Ok, Err, length, slice_index};
ghost use Rattle.disk.specs.Calls.{refusals, looked};
ghost use Rattle.status.specs.Header.{new_header, IsFront};
ghost use Rattle.status.specs.Log.{slot_start};
ghost use Rattle.recovery.specs.Format.{IsSlotCount, refusals_after, IsZeroed, KeepsFront, LeavesShut, HasZeroSlots, StopsShut, IsFormatted, IsOccupied};
ghost use Rattle.recovery.specs.Format.{IsTakenAnswer, CountsFirst, FormatRefuses};

use crate::fault::FormatFault;
use disk::{Area, DeviceFault, Disk};
use status::{FRONT_LEN, LEAST_SLOTS, LogFault, MOST_SLOTS, SLOT_LEN, encode_header, read_header};
use std::alloc::{AllocError, Global};
use wire::Profile;

// The zeros that one call writes.
const ZEROS_LEN: usize = 65_536;

// Zeros from the first slot up to this place, as many a call as are lent.
fn zero_slots<D: Disk>(disk: &mut D, zeros: &[u8], end: u64) -> Result<(), DeviceFault>
    requires some { 0 < length zeros.now }
    requires zeros { (k : ℕ) → slice_index zeros.now k ≡ 0 }
    requires end { 512 ≤ end }
    requires small { end < 2 ^ 62 }
    ensures zeroed { IsTrue D.tells → OnOk result (IsZeroed 512 end (D.state disk.old).areas.status (D.state disk.new).areas.status) }
    ensures others { IsTrue D.tells → (D.state disk.new).areas ≡ record (D.state disk.old).areas { status = (D.state disk.new).areas.status } }
    ensures stop { IsTrue D.tells → KeepsFront (D.state disk.old).areas.status (D.state disk.new).areas.status }
    ensures first { CountsFirst (D.state disk.old) (D.state disk.new) }
    ensures refused { (D.state disk.new).refused ≡ refusals result (D.state disk.old).refused }
{
    let mut at = FRONT_LEN;
    while at < end {
        let len = (end - at).min(zeros.len() as u64) as usize;
        disk.write_at(Area::Status, at, &zeros[..len])?;
        at += len as u64;
    }
    Ok(())
}

fn status_len(slots: u32) -> u64
    requires { slots ≤ 65536 }
    ensures is { result ≡ slot_start slots }
    ensures small { result < 2 ^ 62 }
{
    FRONT_LEN + SLOT_LEN * slots as u64
}

// All slots are zeros, on the disk.
fn close_slots<D: Disk>(disk: &mut D, zeros: &[u8], slots: u32) -> Result<(), DeviceFault>
    requires some { 0 < length zeros.now }
    requires zeros { (k : ℕ) → slice_index zeros.now k ≡ 0 }
    requires slots { IsSlotCount slots }
    ensures closed { IsTrue D.tells → OnOk result (HasZeroSlots slots (D.state disk.old).areas (D.state disk.new).areas) }
    ensures stop { IsTrue D.tells → OnErr result (KeepsFront (D.state disk.old).areas.status (D.state disk.new).areas.status) }
    ensures others { IsTrue D.tells → (D.state disk.new).areas ≡ record (D.state disk.old).areas { status = (D.state disk.new).areas.status } }
    ensures first { CountsFirst (D.state disk.old) (D.state disk.new) }
    ensures refused { (D.state disk.new).refused ≡ refusals result (D.state disk.old).refused }
{
    zero_slots(disk, zeros, status_len(slots))?;
    disk.sync(Area::Status)?;
    Ok(())
}

// The front, on the disk.
fn put_front<D: Disk>(disk: &mut D, slots: u32, front: &[u8]) -> Result<(), DeviceFault>
    requires slots { IsSlotCount slots }
    requires long { length front.now ≡ 512 }
    requires is { IsFront (new_header 3 slots) front.now }
    requires behind { (k : ℕ) → 16 ≤ k → slice_index front.now k ≡ 0 }
    ensures formatted { IsTrue D.tells → (before : _) → HasZeroSlots slots before (D.state disk.old).areas
        → OnOk result (IsFormatted slots before (D.state disk.new).areas) }
    ensures stop { IsTrue D.tells → (before : _) → HasZeroSlots slots before (D.state disk.old).areas → LeavesShut slots (D.state disk.new).areas.status }
    ensures others { IsTrue D.tells → (D.state disk.new).areas ≡ record (D.state disk.old).areas { status = (D.state disk.new).areas.status } }
    ensures first { CountsFirst (D.state disk.old) (D.state disk.new) }
    ensures refused { (D.state disk.new).refused ≡ refusals result (D.state disk.old).refused }
{
    disk.write_at(Area::Status, 0, front)?;
    disk.sync(Area::Status)?;
    Ok(())
}

// The header, on the disk.
#[tactic(auto, using(crate::proofs::Formatted::has_numbers))]
fn write_front<D: Disk>(disk: &mut D, slots: u32) -> Result<(), DeviceFault>
    requires slots { IsSlotCount slots }
    ensures formatted { IsTrue D.tells → (before : _) → HasZeroSlots slots before (D.state disk.old).areas
        → OnOk result (IsFormatted slots before (D.state disk.new).areas) }
    ensures stop { IsTrue D.tells → (before : _) → HasZeroSlots slots before (D.state disk.old).areas → LeavesShut slots (D.state disk.new).areas.status }
    ensures others { IsTrue D.tells → (D.state disk.new).areas ≡ record (D.state disk.old).areas { status = (D.state disk.new).areas.status } }
    ensures first { CountsFirst (D.state disk.old) (D.state disk.new) }
    ensures refused { (D.state disk.new).refused ≡ refusals result (D.state disk.old).refused }
{
    put_front(disk, slots, &encode_header(Profile::newest(), slots))?;
    Ok(())
}

// Whether a header stands in front already.
fn is_occupied<D: Disk>(disk: &mut D) -> Result<bool, DeviceFault>
    ensures occupied { IsTrue D.tells → IfOk result (λ found. IsTrue found ↔ IsOccupied (D.state disk.old).areas.status.bytes) }
    ensures same { D.state disk.new ≡ looked result (D.state disk.old) }
{
    match read_header(disk) {
        Ok(_) => Ok(true),
        Err(LogFault::Device) => Err(DeviceFault),
        Err(_) => Ok(false),
    }
}

fn zeros(alloc: Global, len: usize) -> Result<Vec<u8>, AllocError>
    ensures len { IfOk result (λ zeros. length zeros.items ≡ len) }
    ensures zeros { IfOk result (λ zeros. (k : ℕ) → slice_index zeros.items k ≡ 0) }
{
    vec![in alloc; 0; len]
}

// Both steps of a format.
fn write_store<D: Disk>(disk: &mut D, zeros: &[u8], slots: u32) -> Result<(), DeviceFault>
    requires some { 0 < length zeros.now }
    requires zeros { (k : ℕ) → slice_index zeros.now k ≡ 0 }
    requires slots { IsSlotCount slots }
    ensures formatted { IsTrue D.tells → OnOk result (IsFormatted slots (D.state disk.old).areas (D.state disk.new).areas) }
    ensures stop { IsTrue D.tells → StopsShut slots (D.state disk.old).areas.status (D.state disk.new).areas.status }
    ensures others { IsTrue D.tells → (D.state disk.new).areas ≡ record (D.state disk.old).areas { status = (D.state disk.new).areas.status } }
    ensures first { CountsFirst (D.state disk.old) (D.state disk.new) }
    ensures refused { (D.state disk.new).refused ≡ refusals result (D.state disk.old).refused }
{
    close_slots(disk, zeros, slots)?;
    write_front(disk, slots)?;
    Ok(())
}

/// Makes the status area that of a new store with this many slots. The other areas stay as they are.
///
/// A stop within a format leaves the first 512 bytes as they were, or all slots closed. Where it is
/// refused before its first write, nothing has changed; later, a next call goes by what the status
/// area then holds.
///
/// # Errors
///
/// `BadSlots` unless there are 16 to 65,536; `Occupied` where there is a header; `NoMemory` before any write; `Device` where the disk refused a call.
pub fn format<D: Disk>(alloc: Global, disk: &mut D, slots: u32) -> Result<(), FormatFault>
    ensures bad_slots { (result ≡ Err FormatFault.BadSlots) ↔ ¬ IsSlotCount slots }
    ensures occupied { IsTrue D.tells → result ≡ Err FormatFault.Occupied → IsOccupied (D.state disk.old).areas.status.bytes }
    ensures free { IsTrue D.tells → IsOccupied (D.state disk.old).areas.status.bytes → IsTakenAnswer result }

    ensures formatted { IsTrue D.tells → OnOk result (IsFormatted slots (D.state disk.old).areas (D.state disk.new).areas) }
    ensures stop { IsTrue D.tells → StopsShut slots (D.state disk.old).areas.status (D.state disk.new).areas.status }
    ensures refuses { IfErr result (λ fault. FormatRefuses D.tells slots (D.state disk.old) fault (D.state disk.new)) }
    ensures refused { (D.state disk.new).refused ≡ refusals_after result (D.state disk.old).refused }
{
    if slots < LEAST_SLOTS || slots > MOST_SLOTS {
        return Err(FormatFault::BadSlots);
    }
    if is_occupied(disk)? {
        return Err(FormatFault::Occupied);
    }
    let zeros = zeros(alloc, ZEROS_LEN)?;
    write_store(disk, &zeros, slots)?;
    Ok(())
}
