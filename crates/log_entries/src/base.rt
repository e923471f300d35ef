//! The bytes of a base.

ghost use Rattle.std.specs.Prelude.{◌≡◌, ◌≢◌, ◌≤◌, ◌↔◌, length, slice_index, IsTrue, IfOk, MatchOption};
ghost use Rattle.std.specs.List.{AllByRecursion};
ghost use Rattle.log_entries.specs.declared.entry.Base.{Base};
ghost use Rattle.log_entries.specs.Spelling.{base_bytes};
ghost use Rattle.log_entries.specs.Ranges.{AreNone, AreSome, HasNoRuns, AreRising, IsWhole, IsBase};
ghost use Rattle.log_entries.specs.Bases.{IsRead};
ghost use Rattle.log_entries.specs.Reading.{upto_at, anchors_at};

use crate::entry::{AnchorName, Archive, Base, RelationFloor};
use crate::item::{has_kind, take_list};
use crate::listed::Listed;
use byteorder::{ByteOrder, LittleEndian};
use history::LAST_TIME;
use std::alloc::{AllocError, Global};

/// The byte that a BASE begins with.
pub(crate) const BASE: u8 = 8;

/// How many bytes a BASE has, what follows it in the base aside.
pub(crate) const BASE_LEN: usize = 21;

#[tactic(auto, unfolding(crate::specs::Reading::upto_at))]
fn read_upto(bytes: &[u8]) -> u64
    requires { 21 ≤ length bytes.now }
    ensures { result ≡ upto_at bytes.now }
{
    LittleEndian::read_u64(&bytes[1..])
}

#[tactic(auto, unfolding(crate::specs::Reading::anchors_at))]
fn read_anchors(bytes: &[u8]) -> AnchorName
    requires { 21 ≤ length bytes.now }
    ensures { result ≡ anchors_at bytes.now }
{
    AnchorName {
        first: LittleEndian::read_u32(&bytes[9..]),
        extents: LittleEndian::read_u32(&bytes[13..]),
        records: LittleEndian::read_u32(&bytes[17..]),
    }
}

fn are_none(anchors: &AnchorName) -> bool
    ensures { IsTrue result ↔ AreNone anchors.now }
{
    anchors.first == 0 && anchors.extents == 0 && anchors.records == 0
}

fn are_some(most: u32, anchors: &AnchorName) -> bool
    ensures { IsTrue result ↔ AreSome most anchors.now }
{
    1 <= anchors.first
        && anchors.first <= most
        && 1 <= anchors.extents
        && anchors.extents <= most
        && 1 <= anchors.records
}

// Whether they take the place of no other runs.
fn have_no_runs(archives: &[Archive]) -> bool
    ensures { IsTrue result ↔ AllByRecursion HasNoRuns archives.now }
{
    let mut rest = archives;
    while let [archive, after @ ..] = rest {
        if archive.runs != 0 {
            return false;
        }
        rest = after;
    }
    true
}

// Whether each relation is above the one before it.
fn are_rising(floors: &[RelationFloor]) -> bool
    ensures { IsTrue result ↔ AreRising floors.now }
{
    let [first, after_first @ ..] = floors else {
        return true;
    };
    let mut before = first.relation;
    let mut rest = after_first;
    while let [floor, after @ ..] = rest {
        if floor.relation <= before {
            return false;
        }
        before = floor.relation;
        rest = after;
    }
    true
}

// Whether its parts may stand together.
fn is_whole(most: u32, base: &Base) -> bool
    ensures { IsTrue result ↔ IsWhole most base.now }
{
    1 <= base.upto
        && base.upto <= LAST_TIME
        && (are_none(&base.anchors) || are_some(most, &base.anchors))
        && have_no_runs(base.archives.as_slice())
        && are_rising(base.floors.as_slice())
}

// A BASE, the lists that follow it, and what stands behind them.
fn take_parts(alloc: Global, bytes: &[u8]) -> Result<(Base, &[u8]), AllocError>
    requires long { 21 ≤ length bytes.now }
    requires kind { slice_index bytes.now 0 ≡ 8 }
    ensures { IfOk result (λ p. IsRead bytes.now p.0 p.1.now) }
{
    let (rolls, rest) = take_list(alloc, &bytes[BASE_LEN..])?;
    let (archives, rest) = take_list(alloc, rest)?;
    let (floors, rest) = take_list(alloc, rest)?;
    let base = Base {
        upto: read_upto(bytes),
        anchors: read_anchors(bytes),
        rolls: Listed::of(rolls),
        archives: Listed::of(archives),
        floors: Listed::of(floors),
    };
    Ok((base, rest))
}

/// The base that has just these bytes, in a heap of so many extents.
pub(crate) fn take_base(alloc: Global, most: u32, bytes: &[u8]) -> Result<Option<Base>, AllocError>
    ensures { IfOk result (λ o. MatchOption o ((base : Base) → IsBase most base → bytes.now ≢ base_bytes base)
        (λ base. IsBase most base × (bytes.now ≡ base_bytes base))) }
{
    if !has_kind(bytes, BASE, BASE_LEN) {
        return Ok(None);
    }
    let (base, rest) = take_parts(alloc, bytes)?;
    if !rest.is_empty() {
        return Ok(None);
    }
    if !is_whole(most, &base) {
        return Ok(None);
    }
    Ok(Some(base))
}
