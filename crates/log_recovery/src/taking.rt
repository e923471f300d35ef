//! A chain of extents, read from the heap.

ghost use Rattle.std.specs.Prelude.{◌≡◌, ◌↔◌, ◌≤◌, ◌<◌, ◌*◌, ◌+◌, ◌^◌, Bool, true, IsTrue, IfOk, IfErr, OnOk, IfSome, MatchOption, length};
ghost use Rattle.std.specs.Prelude.{slice_range, if◌then◌else◌};
ghost use Rattle.deltas.specs.Extents.{extent_start};
ghost use Rattle.log_extents.specs.Taking.{IsLinkOf};
ghost use Rattle.log_space.specs.Uses.{IsFree, with_use};
ghost use Rattle.recovery.specs.Answers.{after_reads};
ghost use Rattle.recovery.specs.Faults.{IsReadFault};
ghost use Rattle.log_recovery.specs.Taking.{IsTakenChain, HasNoChain, free_left};

use deltas::EXTENT_LEN;
use disk::{Area, Disk};
use log_extents::{ChainKind, ChainParts, ChainReader, Taken};
use log_space::Space;
use recovery::OpenFault;
use std::alloc::Global;

/// How many bytes an extent has.
pub(crate) const EXTENT_BYTES: u64 = EXTENT_LEN as u64;

/// How large a heap is: how many extents it may have, and how many bytes there are.
#[derive(Clone, Copy, Debug)]
pub struct HeapSize {
    pub most: u32,
    pub len: u64,
}

// Takes an extent, if it lies within a heap of this length and is free.
fn claim(space: &mut Space, heap_len: u64, number: u32) -> bool
    ensures claimed { IsTrue result ↔ (number * 8192 ≤ heap_len) × IsFree space.old number }
    ensures used { space.new ≡ (if result then with_use space.old number true else space.old) }
{
    u64::from(number) * EXTENT_BYTES <= heap_len && space.claim(number)
}

// Reads the bytes of an extent.
fn read_into<D: Disk>(
    disk: &mut D,
    number: u32,
    image: &mut [u8; EXTENT_LEN],
) -> Result<(), OpenFault>
    requires low { 0 < number }
    requires inside { IsTrue D.tells → number * 8192 ≤ length (D.state disk.old).areas.heap.bytes }
    ensures bytes { IsTrue D.tells
        → OnOk result (image.new ≡ slice_range (D.state disk.old).areas.heap.bytes (extent_start number) (extent_start number + 8192)) }
    ensures fault { IfErr result IsReadFault }
    ensures reads { D.state disk.new ≡ after_reads result (D.state disk.old) }
{
    match disk.read(Area::Heap, u64::from(number - 1) * EXTENT_BYTES, image) {
        Ok(()) => Ok(()),
        Err(_) => Err(OpenFault::Device),
    }
}

/// Reads the chain of this kind that begins at this extent, and takes its extents. None where none does whose
/// extents are all free.
pub(crate) fn read_chain<D: Disk>(
    alloc: Global,
    disk: &mut D,
    heap: HeapSize,
    space: &mut Space,
    kind: ChainKind,
    number: u32,
) -> Result<Option<ChainParts>, OpenFault>
    requires len { IsTrue D.tells → heap.len ≡ length (D.state disk.old).areas.heap.bytes }
    requires most { heap.most < 2 ^ 32 }
    ensures found { IsTrue D.tells
        → IfOk result (λ o. MatchOption o (HasNoChain kind heap.most number (D.state disk.old).areas.heap.bytes space.old)
        (IsTakenChain kind heap.most number (D.state disk.old).areas.heap.bytes space.old space.new)) }
    ensures fewer { IfOk result (λ o. IfSome o (λ parts. free_left space.new < free_left space.old)) }
    ensures link { IfOk result (λ o. IfSome o (λ parts. IsLinkOf kind heap.most parts.link)) }
    ensures fault { IfErr result IsReadFault }
    ensures reads { D.state disk.new ≡ after_reads result (D.state disk.old) }
{
    let mut reader = ChainReader::new(alloc, kind, heap.most, number);
    let mut image = [0; EXTENT_LEN];
    let mut next = number;
    while claim(space, heap.len, next) {
        read_into(disk, next, &mut image)?;
        match reader.take(&image)? {
            Taken::More(another) => next = another,
            Taken::Whole => return Ok(Some(reader.into_parts())),
            Taken::Bad => return Ok(None),
        }
    }
    Ok(None)
}
