//! The records of a chain.

ghost use Rattle.std.specs.Prelude.{◌≡◌, IsTrue, IfOk, IfErr, IfSome, MatchOption, length};
ghost use Rattle.std.specs.List.{AllByRecursion};
ghost use Rattle.std.specs.List.Sorted.{IsStrictlySortedBy};
ghost use Rattle.recovery.specs.Answers.{after_reads};
ghost use Rattle.recovery.specs.Faults.{IsReadFault};
ghost use Rattle.deltas.specs.Chains.{AreRecordsOf};
ghost use Rattle.recovery.specs.Chains.{HasNoRecords, AreReadRecords};

use crate::chain::read_chain;
use crate::fault::OpenFault;
use deltas::{ChainName, Kinds, Record, unpack};
use disk::Disk;
use extents::Extents;
use std::alloc::Global;

/// What was read of a chain: the numbers of its extents, and its records.
#[derive(Drop)]
pub struct ReadRecords {
    pub numbers: Vec<u32>,
    pub records: Vec<Record>,
}

/// Reads the chain of this name, and counts its extents as used. None where they are not just records of
/// these kinds.
pub fn read_records<D: Disk>(
    alloc: Global,
    disk: &mut D,
    heap_len: u64,
    extents: &mut Extents,
    name: ChainName,
    kinds: Kinds,
) -> Result<Option<ReadRecords>, OpenFault>
    requires { IsTrue D.tells → heap_len ≡ length (D.state disk.old).areas.heap.bytes }
    ensures of_kinds { IfOk result (λ o. IfSome o (λ read. AreRecordsOf kinds read.records.items)) }
    ensures found { IsTrue D.tells → IfOk result (λ o. MatchOption o (HasNoRecords (D.state disk.old).areas.heap.bytes heap_len extents.old name kinds)
        (AreReadRecords (D.state disk.old).areas.heap.bytes heap_len extents.old name kinds extents.new)) }
    ensures fault { IfErr result IsReadFault }
    ensures reads { D.state disk.new ≡ after_reads result (D.state disk.old) }
{
    let Some(chain) = read_chain(alloc, disk, heap_len, extents, name.first, name.extents)? else {
        return Ok(None);
    };
    let Some(records) = unpack(alloc, name, kinds, &chain.images)? else {
        return Ok(None);
    };
    Ok(Some(ReadRecords {
        numbers: chain.numbers,
        records,
    }))
}
