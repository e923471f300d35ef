//! The chain of anchors that a base names.

ghost use Rattle.std.specs.Prelude.{◌≡◌, ◌⊎◌, ◌≤◌, ◌<◌, ◌++◌, ◌^◌, ℕ, List, length, IsTrue, IfOk, IfErr, IfSome, MatchOption, [], ◌∷◌};
ghost use Rattle.std.specs.List.{flat_map, AllByRecursion};
ghost use Rattle.chains.specs.KeyWrites.{latest};
ghost use Rattle.deltas.specs.Records.{spelling};
ghost use Rattle.deltas.specs.declared.chain.Kinds.TheVariants.{OfAnchors};
ghost use Rattle.log_entries.specs.Items.{HasFewer};
ghost use Rattle.log_entries.specs.Ranges.{AreNone, AreSome};
ghost use Rattle.recovery.specs.Answers.{after_reads};
ghost use Rattle.recovery.specs.Faults.{IsReadFault};
ghost use Rattle.log_recovery.specs.Anchored.{IsAnchorRecord, AreAnchorsIn, HasNoAnchorsIn, TakesAnchors, HasNoAnchors};

use crate::taking::{HeapSize, read_chain};
use chains::Frozen;
use deltas::{Kinds, Record, are_rising, take_record_of};
use disk::Disk;
use log_entries::AnchorName;
use log_extents::ChainKind;
use log_space::Space;
use recovery::{OpenFault, anchored};
use std::alloc::{AllocError, Global};

/// The anchors that were read: their extents, how many bytes their records have, and the versions that they are.
#[derive(Drop)]
pub struct AnchorsRead {
    pub numbers: Vec<u32>,
    pub len: usize,
    pub versions: Frozen,
}

// So many records of anchors up to the mark at the front, and what follows them.
fn take_records(
    alloc: Global,
    mark: u64,
    count: u32,
    bytes: &[u8],
) -> Result<Option<(Vec<Record>, &[u8])>, AllocError>
    ensures { IfOk result (λ o. MatchOption o (HasFewer spelling (IsAnchorRecord mark) count bytes.now)
        (λ p. AllByRecursion (IsAnchorRecord mark) p.0.items × (length p.0.items ≡ count) × (bytes.now ≡ flat_map spelling p.0.items ++ p.1.now))) }
{
    let mut found = Vec::new(alloc);
    let mut rest = bytes;
    for _ in 0..count {
        let Some((record, after)) = take_record_of(alloc, Kinds::OfAnchors(mark), rest)? else {
            return Ok(None);
        };
        found.push(record)?;
        rest = after;
    }
    Ok(Some((found, rest)))
}

// The anchors that have just these bytes: so many, by rising keys, each of a time from 1 to the mark.
fn decode_anchors(
    alloc: Global,
    mark: u64,
    count: u32,
    bytes: &[u8],
) -> Result<Option<Vec<Record>>, AllocError>
    ensures { IfOk result (λ o. MatchOption o (HasNoAnchorsIn mark count bytes.now) (λ records. AreAnchorsIn mark count bytes.now records.items)) }
{
    let Some((records, rest)) = take_records(alloc, mark, count, bytes)? else {
        return Ok(None);
    };
    if !rest.is_empty() {
        return Ok(None);
    }
    if !are_rising(records.as_slice()) {
        return Ok(None);
    }
    Ok(Some(records))
}

/// No anchors at all.
pub(crate) fn no_anchors(alloc: Global) -> AnchorsRead
    ensures numbers { result.numbers.items ≡ [] }
    ensures len { result.len ≡ 0 }
    ensures versions { result.versions ≡ [] }
{
    AnchorsRead {
        numbers: Vec::new(alloc),
        len: 0,
        versions: Frozen::new(),
    }
}

// The chain of anchors of this name, whose extents are taken now. None where it is not right.
fn read_named<D: Disk>(
    alloc: Global,
    disk: &mut D,
    heap: HeapSize,
    space: &mut Space,
    mark: u64,
    name: &AnchorName,
) -> Result<Option<AnchorsRead>, OpenFault>
    requires len { IsTrue D.tells → heap.len ≡ length (D.state disk.old).areas.heap.bytes }
    requires most { heap.most < 2 ^ 32 }
    requires mark { mark < 2 ^ 63 }
    requires some { AreSome heap.most name.now }
    ensures found { IsTrue D.tells
        → IfOk result (λ o. MatchOption o (HasNoAnchors heap.most mark (D.state disk.old).areas.heap.bytes space.old (name.now ∷ []))
        (TakesAnchors heap.most mark (D.state disk.old).areas.heap.bytes space.old space.new (name.now ∷ []))) }
    ensures latest { IfOk result (λ o. IfSome o (λ read. latest read.versions ≤ mark)) }
    ensures fault { IfErr result IsReadFault }
    ensures reads { D.state disk.new ≡ after_reads result (D.state disk.old) }
{
    let Some(parts) = read_chain(alloc, disk, heap, space, ChainKind::Anchors, name.first)? else {
        return Ok(None);
    };
    if parts.numbers.len() != name.extents as usize {
        return Ok(None);
    }
    let Some(records) = decode_anchors(alloc, mark, name.records, &parts.content)? else {
        return Ok(None);
    };
    let versions = anchored(alloc, mark, &records)?;
    Ok(Some(AnchorsRead {
        len: parts.content.len(),
        numbers: parts.numbers,
        versions,
    }))
}

/// The chain of anchors of this name, whose extents are taken now. None where it is not right. A name of zeros
/// names no chain.
pub(crate) fn read_anchors<D: Disk>(
    alloc: Global,
    disk: &mut D,
    heap: HeapSize,
    space: &mut Space,
    mark: u64,
    name: &AnchorName,
) -> Result<Option<AnchorsRead>, OpenFault>
    requires len { IsTrue D.tells → heap.len ≡ length (D.state disk.old).areas.heap.bytes }
    requires most { heap.most < 2 ^ 32 }
    requires mark { mark < 2 ^ 63 }
    requires name { AreNone name.now ⊎ AreSome heap.most name.now }
    ensures found { IsTrue D.tells
        → IfOk result (λ o. MatchOption o (HasNoAnchors heap.most mark (D.state disk.old).areas.heap.bytes space.old (name.now ∷ []))
        (TakesAnchors heap.most mark (D.state disk.old).areas.heap.bytes space.old space.new (name.now ∷ []))) }
    ensures latest { IfOk result (λ o. IfSome o (λ read. latest read.versions ≤ mark)) }
    ensures fault { IfErr result IsReadFault }
    ensures reads { D.state disk.new ≡ after_reads result (D.state disk.old) }
{
    if name.extents == 0 {
        return Ok(Some(no_anchors(alloc)));
    }
    read_named(alloc, disk, heap, space, mark, name)
}
