//! The bytes of a chain as an entry.

ghost use Rattle.std.specs.Prelude.{◌≡◌, ℕ, slice_index, Some, IfOk, IfSome};
ghost use Rattle.log_entries.specs.declared.entry.Entry.{Entry};
ghost use Rattle.log_entries.specs.Spelling.{entry_bytes};
ghost use Rattle.log_entries.specs.Ranges.{IsEntry};
ghost use Rattle.log_entries.specs.Decoding.{IsDecoded};

use crate::archive::ARCHIVED;
use crate::base::{BASE, take_base};
use crate::entry::{Archive, Entry, RelationFloor};
use crate::floor::FLOOR;
use crate::group::{COMMIT, take_group};
use crate::item::Item;
use std::alloc::{AllocError, Global};

// A group, which begins with a COMMIT.
fn decode_group(alloc: Global, bytes: &[u8]) -> Result<Option<Entry>, AllocError>
    requires { slice_index bytes.now 0 ≡ 5 }
    ensures { (most : ℕ) → IfOk result (IsDecoded most bytes.now) }
{
    let Some(members) = take_group(alloc, bytes)? else {
        return Ok(None);
    };
    Ok(Some(Entry::Group(members)))
}

// An ARCHIVED alone.
fn decode_archive(alloc: Global, bytes: &[u8]) -> Result<Option<Entry>, AllocError>
    requires { slice_index bytes.now 0 ≡ 6 }
    ensures { (most : ℕ) → IfOk result (IsDecoded most bytes.now) }
{
    let Some((archive, rest)) = Archive::take(alloc, bytes)? else {
        return Ok(None);
    };
    if !rest.is_empty() {
        return Ok(None);
    }
    Ok(Some(Entry::Archived(archive)))
}

// A FLOOR alone.
fn decode_floor(alloc: Global, bytes: &[u8]) -> Result<Option<Entry>, AllocError>
    requires { slice_index bytes.now 0 ≡ 7 }
    ensures { (most : ℕ) → IfOk result (IsDecoded most bytes.now) }
{
    let Some((floor, rest)) = RelationFloor::take(alloc, bytes)? else {
        return Ok(None);
    };
    if !rest.is_empty() {
        return Ok(None);
    }
    Ok(Some(Entry::Floor(floor)))
}

// A base, which begins with a BASE.
fn decode_base(alloc: Global, most: u32, bytes: &[u8]) -> Result<Option<Entry>, AllocError>
    requires { slice_index bytes.now 0 ≡ 8 }
    ensures { IfOk result (IsDecoded most bytes.now) }
{
    let Some(base) = take_base(alloc, most, bytes)? else {
        return Ok(None);
    };
    Ok(Some(Entry::Base(base)))
}

fn decode_kind(alloc: Global, most: u32, bytes: &[u8]) -> Result<Option<Entry>, AllocError>
    ensures { IfOk result (IsDecoded most bytes.now) }
{
    if bytes.is_empty() {
        return Ok(None);
    }
    match bytes[0] {
        COMMIT => decode_group(alloc, bytes),
        ARCHIVED => decode_archive(alloc, bytes),
        FLOOR => decode_floor(alloc, bytes),
        BASE => decode_base(alloc, most, bytes),
        _ => Ok(None),
    }
}

/// What a chain of the log holds that has these bytes, in a heap of so many extents. None where they
/// are of none of the forms of a chain: commits, a run, a floor or a base. It takes no more memory
/// than so many bytes can say, whatever counts are among them.
pub fn decode(alloc: Global, most: u32, bytes: &[u8]) -> Result<Option<Entry>, AllocError>
    ensures found { IfOk result (λ o. IfSome o (λ entry. (bytes.now ≡ entry_bytes entry) × IsEntry most entry)) }
    ensures only { (entry : Entry) → IsEntry most entry → bytes.now ≡ entry_bytes entry → IfOk result (λ o. o ≡ Some entry) }
{
    decode_kind(alloc, most, bytes)
}
