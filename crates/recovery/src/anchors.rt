//! The chain of the anchors: what a reclaim left of the versions that were valid at its mark.

ghost use Rattle.std.specs.Prelude.{◌≡◌, ◌≤◌, ◌<◌, ◌^◌, ◌∷◌, [], IsTrue, IfOk, IfErr, IfSome, MatchOption, Some, length, map};
ghost use Rattle.chains.specs.KeyWrites.{latest};
ghost use Rattle.deltas.specs.Chains.{AreRecordsOf, IsPermitted};
ghost use Rattle.deltas.specs.Records.{from_of, value_of};
ghost use Rattle.deltas.specs.declared.chain.Kinds.TheVariants.{OfAnchors};
ghost use Rattle.recovery.specs.Answers.{after_reads};
ghost use Rattle.recovery.specs.Faults.{IsReadFault};
ghost use Rattle.recovery.specs.Anchored.{anchors_name, anchor_writes, HoldsAnchors, HasNoAnchors};

use crate::fault::OpenFault;
use crate::records::read_records;
use crate::recovered::HeapRead;
use chains::{Frozen, SharedValue};
use deltas::{ChainName, Content, Kinds, Record};
use disk::Disk;
use extents::Extents;
use history::TimedWrite;
use std::alloc::{AllocError, Global};
use wire::Anchors;

fn name_of(anchors: &Anchors) -> ChainName
    ensures { result ≡ anchors_name anchors.now }
{
    ChainName {
        first: anchors.first,
        extents: anchors.extents,
        records: anchors.records,
    }
}

// The write that an anchor up to the mark stands for.
fn anchor_write(mark: u64, anchor: &Record) -> Result<TimedWrite<SharedValue>, AllocError>
    requires { IsPermitted (OfAnchors mark) anchor.now.content }
    ensures { IfOk result (λ w. w ≡ record { time = from_of anchor.now.content; write = Some (value_of anchor.now.content) }) }
{
    match &anchor.content {
        Content::Old { from, value } => {
            let shared = SharedValue::new(value.share()?);
            Ok(TimedWrite {
                time: *from,
                write: Some(shared),
            })
        }
        _ => unreachable!(),
    }
}

/// The writes of these anchors up to the mark, each key's own.
pub fn anchored(alloc: Global, mark: u64, anchors: &[Record]) -> Result<Frozen, AllocError>
    requires in_range { mark < 2 ^ 63 }
    requires anchors { AreRecordsOf (OfAnchors mark) anchors.now }
    ensures is { IfOk result (λ f. f ≡ map anchor_writes anchors.now) }
    ensures latest { IfOk result (λ f. latest f ≤ mark) }
{
    let mut chains = Frozen::new();
    let mut rest = anchors;
    while let Some((anchor, after)) = rest.split_first() {
        let write = anchor_write(mark, anchor)?;
        chains = chains.with_key(alloc, anchor.key, write)?;
        rest = after;
    }
    Ok(chains)
}

/// The heap with the chain of these anchors alone. None where that chain is not right.
pub fn read_anchors<D: Disk>(
    alloc: Global,
    disk: &mut D,
    heap_len: u64,
    anchors: &Anchors,
) -> Result<Option<HeapRead>, OpenFault>
    requires len { IsTrue D.tells → heap_len ≡ length (D.state disk.old).areas.heap.bytes }
    requires in_range { anchors.now.upto < 2 ^ 63 }
    ensures last { IfOk result (λ o. IfSome o (λ heap. heap.last ≡ anchors.now.upto)) }
    ensures found { IsTrue D.tells → IfOk result (λ o. MatchOption o (HasNoAnchors (D.state disk.old).areas.heap.bytes anchors.now)
        (HoldsAnchors (D.state disk.old).areas.heap.bytes anchors.now)) }
    ensures fault { IfErr result IsReadFault }
    ensures reads { D.state disk.new ≡ after_reads result (D.state disk.old) }
{
    let mut extents = Extents::new(alloc)?;
    let (name, kinds) = (name_of(anchors), Kinds::OfAnchors(anchors.upto));
    let Some(read) = read_records(alloc, disk, heap_len, &mut extents, name, kinds)? else {
        return Ok(None);
    };
    let chains = anchored(alloc, anchors.upto, &read.records)?;
    Ok(Some(HeapRead {
        extents,
        live: Vec::new(alloc),
        chains,
        last: anchors.upto,
    }))
}
