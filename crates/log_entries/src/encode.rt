//! Entries as bytes. Where there is no memory, each leaves what was there.

ghost use Rattle.std.specs.Prelude.{◌≡◌, ◌++◌, ◌+◌, ◌*◌, ◌≤◌, [], ℕ, List, length, map, is_ok, if◌then◌else◌, OnOk};
ghost use Rattle.std.specs.List.{flat_map};
ghost use Rattle.deltas.specs.Records.{spelling};
ghost use Rattle.deltas.specs.Loans.{record_of_loan};
ghost use Rattle.log_entries.specs.Spelling.{commit_bytes, archive_bytes, floor_bytes, roll_bytes, mark_bytes, base_bytes, commit_len};
ghost use Rattle.log_entries.specs.Writing.{IsLonger};

use crate::archive::{ARCHIVED, ARCHIVED_LEN};
use crate::base::{BASE, BASE_LEN};
use crate::entry::{AnchorName, Archive, Base, RelationFloor, Roll};
use crate::floor::{FLOOR, FLOOR_LEN};
use crate::group::{COMMIT, COMMIT_LEN};
use crate::roll::{ROLL, ROLL_LEN};
use byteorder::{ByteOrder, LittleEndian};
use deltas::{RecordRef, RecordSource, loan_len, put_record};
use std::alloc::AllocError;

#[tactic(auto, unfolding(crate::specs::Spelling::commit_bytes, wire::specs::Numbers::u16_bytes, wire::specs::Numbers::u64_bytes))]
fn commit_array(label: u64, time: u64, count: u16) -> [u8; COMMIT_LEN]
    ensures { result ≡ commit_bytes label time count }
{
    let mut bytes = [0; COMMIT_LEN];
    bytes[0] = COMMIT;
    LittleEndian::write_u64(&mut bytes[1..], label);
    LittleEndian::write_u64(&mut bytes[9..], time);
    LittleEndian::write_u16(&mut bytes[17..], count);
    bytes
}

#[tactic(auto, unfolding(crate::specs::Spelling::archive_bytes, wire::specs::Numbers::u16_bytes, wire::specs::Numbers::u64_bytes))]
fn archive_array(archive: &Archive) -> [u8; ARCHIVED_LEN]
    ensures { result ≡ archive_bytes archive.now }
{
    let mut bytes = [0; ARCHIVED_LEN];
    bytes[0] = ARCHIVED;
    LittleEndian::write_u64(&mut bytes[1..], archive.upto);
    LittleEndian::write_u64(&mut bytes[9..], archive.start);
    LittleEndian::write_u64(&mut bytes[17..], archive.len);
    LittleEndian::write_u64(&mut bytes[25..], archive.records);
    LittleEndian::write_u16(&mut bytes[33..], archive.runs);
    bytes
}

#[tactic(auto, unfolding(crate::specs::Spelling::floor_bytes, wire::specs::Numbers::u16_bytes, wire::specs::Numbers::u64_bytes))]
fn floor_array(floor: &RelationFloor) -> [u8; FLOOR_LEN]
    ensures { result ≡ floor_bytes floor.now }
{
    let mut bytes = [0; FLOOR_LEN];
    bytes[0] = FLOOR;
    LittleEndian::write_u64(&mut bytes[1..], floor.floor);
    LittleEndian::write_u16(&mut bytes[9..], floor.relation);
    bytes
}

#[tactic(auto, unfolding(crate::specs::Spelling::roll_bytes, wire::specs::Numbers::u64_bytes))]
fn roll_array(roll: &Roll) -> [u8; ROLL_LEN]
    ensures { result ≡ roll_bytes roll.now }
{
    let mut bytes = [0; ROLL_LEN];
    bytes[0] = ROLL;
    LittleEndian::write_u64(&mut bytes[1..], roll.start);
    LittleEndian::write_u64(&mut bytes[9..], roll.len);
    bytes
}

#[tactic(auto, unfolding(crate::specs::Spelling::mark_bytes, wire::specs::Numbers::u32_bytes, wire::specs::Numbers::u64_bytes))]
fn mark_array(upto: u64, anchors: &AnchorName) -> [u8; BASE_LEN]
    ensures { result ≡ mark_bytes upto anchors.now }
{
    let mut bytes = [0; BASE_LEN];
    bytes[0] = BASE;
    LittleEndian::write_u64(&mut bytes[1..], upto);
    LittleEndian::write_u32(&mut bytes[9..], anchors.first);
    LittleEndian::write_u32(&mut bytes[13..], anchors.extents);
    LittleEndian::write_u32(&mut bytes[17..], anchors.records);
    bytes
}

/// Appends a COMMIT: the caller's number, the time in microseconds since 1970, and how many records
/// follow it. These are pushed after it.
pub fn push_commit(out: &mut Vec<u8>, label: u64, time: u64, count: u16) -> Result<(), AllocError>
    ensures items { out.new.items ≡ (if is_ok result then out.old.items ++ commit_bytes label time count else out.old.items) }
    ensures len { OnOk result (length out.new.items ≡ length out.old.items + 19) }
{
    out.extend_from_slice(&commit_array(label, time, count))?;
    Ok(())
}

/// Appends the one spelling of a record.
pub fn push_write(out: &mut Vec<u8>, one: RecordRef) -> Result<(), AllocError>
    ensures items { out.new.items ≡ (if is_ok result then out.old.items ++ spelling (record_of_loan one.entry) else out.old.items) }
    ensures len { OnOk result (length out.new.items ≡ length out.old.items + length (spelling (record_of_loan one.entry))) }
{
    let at = out.len();
    out.resize(at + loan_len(one), 0)?;
    let _end = put_record(out, at, one);
    Ok(())
}

/// Appends an ARCHIVED.
pub fn push_archive(out: &mut Vec<u8>, archive: &Archive) -> Result<(), AllocError>
    ensures items { out.new.items ≡ (if is_ok result then out.old.items ++ archive_bytes archive.now else out.old.items) }
    ensures len { OnOk result (length out.new.items ≡ length out.old.items + 35) }
{
    out.extend_from_slice(&archive_array(archive))?;
    Ok(())
}

/// Appends a FLOOR.
pub fn push_floor(out: &mut Vec<u8>, floor: &RelationFloor) -> Result<(), AllocError>
    ensures items { out.new.items ≡ (if is_ok result then out.old.items ++ floor_bytes floor.now else out.old.items) }
    ensures len { OnOk result (length out.new.items ≡ length out.old.items + 11) }
{
    out.extend_from_slice(&floor_array(floor))?;
    Ok(())
}

// What is appended as its one spelling.
trait Written {
    ghost spelled: { Self → List ℕ };

    fn push(&self, out: &mut Vec<u8>) -> Result<(), AllocError>
        ensures { out.new.items ≡ (if is_ok result then out.old.items ++ spelled self.now else out.old.items) };
}

impl Written for Roll {
    ghost spelled = { roll_bytes };

    fn push(&self, out: &mut Vec<u8>) -> Result<(), AllocError> {
        out.extend_from_slice(&roll_array(self))?;
        Ok(())
    }
}

impl Written for Archive {
    ghost spelled = { archive_bytes };

    fn push(&self, out: &mut Vec<u8>) -> Result<(), AllocError> {
        push_archive(out, self)
    }
}

impl Written for RelationFloor {
    ghost spelled = { floor_bytes };

    fn push(&self, out: &mut Vec<u8>) -> Result<(), AllocError> {
        push_floor(out, self)
    }
}

// Appends each of them. Where there is no memory, some of them may stand there.
fn push_list<W: Written>(out: &mut Vec<u8>, list: &[W]) -> Result<(), AllocError>
    ensures ok { OnOk result (out.new.items ≡ out.old.items ++ flat_map W.spelled list.now) }
    ensures longer { IsLonger out.old.items out.new.items }
{
    let mut rest = list;
    while let [item, after @ ..] = rest {
        item.push(out)?;
        rest = after;
    }
    Ok(())
}

fn push_parts(out: &mut Vec<u8>, base: &Base) -> Result<(), AllocError>
    ensures ok { OnOk result (out.new.items ≡ out.old.items ++ base_bytes base.now) }
    ensures longer { IsLonger out.old.items out.new.items }
{
    out.extend_from_slice(&mark_array(base.upto, &base.anchors))?;
    push_list(out, base.rolls.as_slice())?;
    push_list(out, base.archives.as_slice())?;
    push_list(out, base.floors.as_slice())?;
    Ok(())
}

/// Appends a base: its BASE, then ROLLs, then ARCHIVEDs, then FLOORs.
pub fn push_base(out: &mut Vec<u8>, base: &Base) -> Result<(), AllocError>
    ensures items { out.new.items ≡ (if is_ok result then out.old.items ++ base_bytes base.now else out.old.items) }
    ensures len { OnOk result (length out.new.items ≡ length out.old.items + 21 + 17 * length base.now.rolls + 35 * length base.now.archives + 11
        * length base.now.floors) }
{
    let len = out.len();
    match push_parts(out, base) {
        Ok(()) => Ok(()),
        Err(error) => {
            out.truncate(len);
            Err(error)
        }
    }
}

/// How many bytes a commit has with the records that are left, its COMMIT among them. It goes over
/// all of them, and takes no memory.
pub fn commit_len<S: RecordSource>(source: &mut S) -> usize
    requires { length (S.left source.old) ≤ 1024 }
    ensures is { result ≡ commit_len (map (λ r. length (spelling r)) (S.left source.old)) }
    ensures end { S.left source.new ≡ [] }
{
    let mut len = COMMIT_LEN;
    while let Some(record) = source.peek() {
        len += loan_len(record);
        source.advance();
    }
    len
}
