//! Reading the log.
ghost use Rattle.std.specs.Prelude.{◌≡◌, ◌≢◌, ◌↔◌, ◌+◌, ◌*◌, ◌<◌, ◌≤◌, ℕ, List, [], ◌∷◌, ◌++◌, map, length, drop, true, false, vec_len, slice_index};
ghost use Rattle.std.specs.Prelude.{slice_range, IsTrue, IfOk, IfErr, OnOk, MatchBool, MatchResult};
ghost use Rattle.disk.specs.Calls.{looked};
ghost use Rattle.disk.specs.Parts.{HoldsPart};
ghost use Rattle.wire.specs.declared.slot.Slot.{Slot};
ghost use Rattle.status.specs.declared.header.Header.{Header};
ghost use Rattle.status.specs.Header.{total};
ghost use Rattle.status.specs.Log.{slot_start, IsOpen, HasRoom, OpensWith};
ghost use Rattle.status.specs.Reading.{read_by, AreSlots, HoldsLog, IsLogFault, AnswersLog};
ghost use Rattle.status.specs.Walking.{EndsAt, IsWalk, Takes, IsTakeFault, IsWalkFault, IsSlotsFault, Goes, IsReadOn, HasReadAll};

use crate::fault::LogFault;
use crate::header::Header;
use crate::log_end::{LogEnd, floors_behind};
use crate::sizes::{FRONT_LEN, MOST_TOTAL, SLOT_BYTES, SLOT_LEN};
use crate::turn::{OPEN, slot_place};
use disk::{Area, DeviceFault, Disk};
use std::alloc::Global;
use wire::{Profile, SLOT_BODY_LEN, Slot, decode_slot, one_spelling};

// Slots are read so many at a time.
const SLOTS_A_READ: u32 = 16;

// The bytes of as many slots, which the buffer of a read holds.
const BUFFER_LEN: usize = SLOTS_A_READ as usize * SLOT_BYTES;

/// The slots of a log, and where it ends with them.
#[derive(Drop)]
pub struct LogRead {
    pub slots: Vec<Slot>,
    pub end: LogEnd,
}

// The slots read so far, and where their log ends.
#[derive(Drop)]
struct Walk {
    profile: Profile,
    slots: Vec<Slot>,
    end: LogEnd,
}

impl Walk {
    fn new(alloc: Global, profile: Profile) -> Walk
        ensures profile { result.profile ≡ profile }
        ensures slots { result.slots.items ≡ [] }
        ensures walk { IsWalk profile result.slots.items result.end }
    {
        Walk {
            profile,
            slots: Vec::new(alloc),
            end: LogEnd::start(),
        }
    }

    // Reads a slot of 512 bytes, and tells whether its gate is open.
    fn take_slot(&mut self, bytes: &[u8]) -> Result<bool, LogFault>
        requires walk { IsWalk self.old.profile self.old.slots.items self.old.end }
        requires few { length self.old.slots.items < 65536 }
        requires whole { length bytes.now ≡ 512 }
        ensures profile { self.new.profile ≡ self.old.profile }
        ensures walk { IsWalk self.new.profile self.new.slots.items self.new.end }
        ensures takes { IfOk result (λ on. Takes self.old.profile self.old.slots.items bytes.now on self.new.slots.items) }
        ensures fault { IfErr result (IsTakeFault self.old.profile self.old.slots.items bytes.now) }
    {
        if bytes[0] != OPEN {
            return Ok(false);
        }
        let number = self.slots.len() as u32;
        let mut body = [0; SLOT_BODY_LEN];
        body.copy_from_slice(&bytes[1..]);
        let Ok(slot) = decode_slot(self.profile, number, &body) else {
            return Err(LogFault::Damaged(number));
        };
        if !self.end.may_be_followed(self.profile, &slot) {
            return Err(LogFault::Damaged(number));
        }
        let floors = floors_behind(*self.slots.allocator(), &self.end.floors, &slot.body)?;
        let end = self.end.with(&slot, floors);
        self.slots.push(slot)?;
        self.end = end;
        Ok(true)
    }
}

impl Walk {
    // Reads so many slots, and tells whether all their gates are open.
    fn take_chunk(&mut self, chunk: &[u8], count: usize) -> Result<bool, LogFault>
        requires walk { IsWalk self.old.profile self.old.slots.items self.old.end }
        requires few { length self.old.slots.items + count ≤ 65536 }
        requires whole { length chunk.now ≡ 512 * count }
        ensures profile { self.new.profile ≡ self.old.profile }
        ensures walk { IsWalk self.new.profile self.new.slots.items self.new.end }
        ensures more { IfOk result (λ on. MatchBool on (length self.new.slots.items ≡ length self.old.slots.items + count)
            (length self.new.slots.items < length self.old.slots.items + count)) }
        ensures fault { IfErr result IsWalkFault }
        ensures goes { (header : Header) (bytes : List ℕ) → header.profile ≡ self.old.profile → length self.old.slots.items + count ≤ total header
            → HoldsPart (slot_start (length self.old.slots.items)) chunk.now bytes → IsReadOn header bytes self.old.slots.items result self.new.slots.items }
    {
        for place in 0..count {
            if !self.take_slot(&chunk[SLOT_BYTES * place..SLOT_BYTES * place + SLOT_BYTES])? {
                return Ok(false);
            }
        }
        Ok(true)
    }
}

// Reads slots from this one on, as many as the buffer holds.
fn read_part<D: Disk>(disk: &mut D, number: u32, buffer: &mut [u8]) -> Result<(), DeviceFault>
    requires { IsTrue D.tells → slot_start number + length buffer.old ≤ length (D.state disk.old).areas.status.bytes }
    ensures part { IsTrue D.tells → OnOk result (HoldsPart (slot_start number) buffer.new (D.state disk.old).areas.status.bytes) }
    ensures same { D.state disk.new ≡ looked result (D.state disk.old) }
{
    disk.read(Area::Status, slot_place(number), buffer)
}

// Reads the next slots of so many in all, and tells whether all their gates are open.
fn read_on<D: Disk>(
    disk: &mut D,
    all: u32,
    walk: &mut Walk,
    buffer: &mut [u8],
) -> Result<bool, LogFault>
    requires walk { IsWalk walk.old.profile walk.old.slots.items walk.old.end }
    requires less { length walk.old.slots.items < all }
    requires few { all ≤ 65536 }
    requires buffer { length buffer.old ≡ 8192 }
    requires room { IsTrue D.tells → slot_start all ≤ length (D.state disk.old).areas.status.bytes }
    ensures profile { walk.new.profile ≡ walk.old.profile }
    ensures walk { IsWalk walk.new.profile walk.new.slots.items walk.new.end }
    ensures more { IfOk result (λ on. MatchBool on (length walk.old.slots.items < length walk.new.slots.items) (Unit {0})) }
    ensures within { OnOk result (length walk.new.slots.items ≤ all) }
    ensures fault { IfErr result IsSlotsFault }
    ensures goes { IsTrue D.tells → (header : Header) → header.profile ≡ walk.old.profile → total header ≡ all
        → IsReadOn header (D.state disk.old).areas.status.bytes walk.old.slots.items result walk.new.slots.items }
    ensures same { D.state disk.new ≡ read_by result (D.state disk.old) }
{
    let number = walk.slots.len() as u32;
    let count = SLOTS_A_READ.min(all - number) as usize;
    let part = &mut buffer[..SLOT_BYTES * count];
    read_part(disk, number, part)?;
    walk.take_chunk(part, count)
}

// Reads slots up to the first closed gate, of so many in all.
fn read_slots<D: Disk>(
    disk: &mut D,
    all: u32,
    walk: &mut Walk,
    buffer: &mut [u8],
) -> Result<(), LogFault>
    requires walk { IsWalk walk.old.profile walk.old.slots.items walk.old.end }
    requires less { length walk.old.slots.items ≤ all }
    requires few { all ≤ 65536 }
    requires buffer { length buffer.old ≡ 8192 }
    requires room { IsTrue D.tells → slot_start all ≤ length (D.state disk.old).areas.status.bytes }
    ensures profile { walk.new.profile ≡ walk.old.profile }
    ensures walk { IsWalk walk.new.profile walk.new.slots.items walk.new.end }
    ensures within { OnOk result (length walk.new.slots.items ≤ all) }
    ensures fault { IfErr result IsSlotsFault }
    ensures goes { IsTrue D.tells → (header : Header) → header.profile ≡ walk.old.profile → total header ≡ all
        → HasReadAll header (D.state disk.old).areas.status.bytes walk.old.slots.items result walk.new.slots.items }
    ensures same { D.state disk.new ≡ read_by result (D.state disk.old) }
{
    while (walk.slots.len() as u32) < all {
        if !read_on(disk, all, walk, buffer)? {
            return Ok(());
        }
    }
    Ok(())
}

// Whether the area is long enough for this header's slots.
fn has_room<D: Disk>(disk: &mut D, header: &Header) -> Result<bool, DeviceFault>
    ensures few { IfOk result (λ yes. IsTrue yes → total header.now ≤ 65536) }
    ensures room { IsTrue D.tells → IfOk result (λ yes. IsTrue yes ↔ HasRoom header.now (D.state disk.old).areas.status.bytes) }
    ensures same { D.state disk.new ≡ looked result (D.state disk.old) }
{
    let len = disk.len(Area::Status)?;
    let all = header.total();
    Ok(all <= MOST_TOTAL && FRONT_LEN + SLOT_LEN * all <= len)
}

fn walk_through<D: Disk>(alloc: Global, disk: &mut D, header: &Header) -> Result<LogRead, LogFault>
    requires few { total header.now ≤ 65536 }
    requires room { IsTrue D.tells → HasRoom header.now (D.state disk.old).areas.status.bytes }
    ensures slots { IfOk result (λ log. AreSlots header.now.profile log.slots.items) }
    ensures ends { IfOk result (λ log. EndsAt log.slots.items log.end) }
    ensures within { IfOk result (λ log. length log.slots.items ≤ total header.now) }
    ensures kind { IfErr result IsSlotsFault }
    ensures log { IsTrue D.tells → IfOk result (λ log. HoldsLog header.now (D.state disk.old).areas.status.bytes log.slots.items) }
    ensures fault { IsTrue D.tells → IfErr result (IsLogFault header.now (D.state disk.old).areas.status.bytes) }
    ensures same { D.state disk.new ≡ read_by result (D.state disk.old) }
{
    let mut walk = Walk::new(alloc, header.profile);
    let mut buffer = [0; BUFFER_LEN];
    read_slots(disk, header.total() as u32, &mut walk, &mut buffer)?;
    let Walk { slots, end, .. } = walk;
    Ok(LogRead { slots, end })
}

/// The slots before the first closed gate, of an area with this header, and where the log ends. It changes nothing.
///
/// # Errors
///
/// As `read_log`.
pub fn read_to_end<D: Disk>(
    alloc: Global,
    disk: &mut D,
    header: &Header,
) -> Result<LogRead, LogFault>
    ensures slots { IfOk result (λ log. AreSlots header.now.profile log.slots.items) }
    ensures ends { IfOk result (λ log. EndsAt log.slots.items log.end) }
    ensures within { IfOk result (λ log. length log.slots.items ≤ total header.now) }
    ensures log { IsTrue D.tells → IfOk result (λ log. HoldsLog header.now (D.state disk.old).areas.status.bytes log.slots.items) }
    ensures fault { IsTrue D.tells → IfErr result (IsLogFault header.now (D.state disk.old).areas.status.bytes) }
    ensures same { D.state disk.new ≡ read_by result (D.state disk.old) }
{
    match has_room(disk, header) {
        Ok(true) => walk_through(alloc, disk, header),
        Ok(false) => Err(LogFault::NotAStore),
        Err(_) => Err(LogFault::Device),
    }
}

/// The slots before the first closed gate, of an area with this header. It changes nothing.
///
/// # Errors
///
/// `NotAStore` where the area is too short for the header's slots; `Damaged(n)` where slot n is
/// the first that is open and that breaks the grammar, may not follow the slots before it, or is
/// of a kind that is not built; `Device` where the device refused a call; `NoMemory`.
pub fn read_log<D: Disk>(
    alloc: Global,
    disk: &mut D,
    header: &Header,
) -> Result<Vec<Slot>, LogFault>
    ensures slots { IfOk result (λ slots. AreSlots header.now.profile slots.items) }
    ensures within { IfOk result (λ slots. length slots.items ≤ total header.now) }
    ensures log { IsTrue D.tells → IfOk result (λ slots. HoldsLog header.now (D.state disk.old).areas.status.bytes slots.items) }
    ensures only { IsTrue D.tells → (slots : List Slot) → HoldsLog header.now (D.state disk.old).areas.status.bytes slots → AnswersLog slots result }
    ensures fault { IsTrue D.tells → IfErr result (IsLogFault header.now (D.state disk.old).areas.status.bytes) }
    ensures same { D.state disk.new ≡ read_by result (D.state disk.old) }
{
    one_spelling();
    match read_to_end(alloc, disk, header) {
        Ok(log) => Ok(log.slots),
        Err(fault) => Err(fault),
    }
}
