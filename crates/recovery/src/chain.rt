//! The extents of a chain, read from the heap.

ghost use Rattle.std.specs.Prelude.{◌≡◌, ◌↔◌, ◌≤◌, ◌*◌, ◌+◌, IsTrue, IfOk, IfErr, OnOk, MatchOption, length, map, if◌then◌else◌};
ghost use Rattle.extents.specs.Usages.{IsFree, with_usage};
ghost use Rattle.extents.specs.declared.usage.Usage.TheVariants.{Kept};
ghost use Rattle.recovery.specs.Answers.{after_reads};
ghost use Rattle.recovery.specs.Faults.{IsReadFault};
ghost use Rattle.recovery.specs.Walk.{extent_at, numbers_at, IsThere, claimed, AreClaimable};
ghost use Rattle.recovery.specs.ReadChains.{IsReadChain};

use crate::fault::OpenFault;
use deltas::{EXTENT_LEN, Image};
use disk::{Area, Disk};
use extents::{Extents, LAST_EXTENT};
use std::alloc::{AllocError, Global};

const EXTENT_BYTES: u64 = EXTENT_LEN as u64;

// Keeps an extent, if it lies in a heap of this length and is free.
fn claim(extents: &mut Extents, heap_len: u64, number: u32) -> bool
    ensures claimed { IsTrue result ↔ IsThere heap_len number × IsFree extents.old number }
    ensures kept { extents.new ≡ (if result then with_usage extents.old number Kept else extents.old) }
{
    if number < 1 || number > LAST_EXTENT || number as u64 * EXTENT_BYTES > heap_len {
        return false;
    }
    extents.claim(number).is_ok()
}

// Room for that many bytes.
fn room(alloc: Global, len: usize) -> Result<Vec<u8>, AllocError>
    ensures { IfOk result (λ room. length room.items ≡ len) }
{
    vec![in alloc; 0; len]
}

// Reads an extent.
fn read_into<D: Disk>(disk: &mut D, number: u32, image: &mut [u8]) -> Result<(), OpenFault>
    requires low { 1 ≤ number }
    requires len { length image.old ≡ 8192 }
    requires inside { IsTrue D.tells → number * 8192 ≤ length (D.state disk.old).areas.heap.bytes }
    ensures bytes { IsTrue D.tells → OnOk result (image.new ≡ extent_at (D.state disk.old).areas.heap.bytes number) }
    ensures fault { IfErr result IsReadFault }
    ensures reads { D.state disk.new ≡ after_reads result (D.state disk.old) }
{
    match disk.read(Area::Heap, (number as u64 - 1) * EXTENT_BYTES, image) {
        Ok(()) => Ok(()),
        Err(_) => Err(OpenFault::Device),
    }
}

// An extent as it stands in the heap.
fn read_extent<D: Disk>(alloc: Global, disk: &mut D, number: u32) -> Result<Image, OpenFault>
    requires low { 1 ≤ number }
    requires inside { IsTrue D.tells → number * 8192 ≤ length (D.state disk.old).areas.heap.bytes }
    ensures bytes { IsTrue D.tells → IfOk result (λ image. image ≡ extent_at (D.state disk.old).areas.heap.bytes number) }
    ensures fault { IfErr result IsReadFault }
    ensures reads { D.state disk.new ≡ after_reads result (D.state disk.old) }
{
    let Ok(mut bytes) = room(alloc, EXTENT_LEN) else {
        return Err(OpenFault::NoMemory);
    };
    match read_into(disk, number, &mut bytes) {
        Ok(()) => match Image::of(bytes) {
            Some(image) => Ok(image),
            None => unreachable!(),
        },
        Err(fault) => Err(fault),
    }
}

/// The extents that were read of a chain: their numbers, and the bytes of each.
#[derive(Drop)]
pub struct ReadChain {
    pub numbers: Vec<u32>,
    pub images: Vec<Image>,
}

/// Reads this many extents, each named by the one before it, and counts them as used. None where one of them does not lie in the heap or is
/// not free.
pub fn read_chain<D: Disk>(
    alloc: Global,
    disk: &mut D,
    heap_len: u64,
    extents: &mut Extents,
    first: u32,
    count: u32,
) -> Result<Option<ReadChain>, OpenFault>
    requires { IsTrue D.tells → heap_len ≡ length (D.state disk.old).areas.heap.bytes }
    ensures chain { IsTrue D.tells → IfOk result (λ o. MatchOption o
        (¬ AreClaimable heap_len extents.old (numbers_at (D.state disk.old).areas.heap.bytes first count))
        (IsReadChain (D.state disk.old).areas.heap.bytes heap_len extents.old first count extents.new)) }
    ensures fault { IfErr result IsReadFault }
    ensures reads { D.state disk.new ≡ after_reads result (D.state disk.old) }
{
    let mut numbers = Vec::new(alloc);
    let mut images = Vec::new(alloc);
    let mut next = first;
    for _i in 0..count {
        if !claim(extents, heap_len, next) {
            return Ok(None);
        }
        let image = read_extent(alloc, disk, next)?;
        numbers.push(next)?;
        next = image.next();
        images.push(image)?;
    }
    Ok(Some(ReadChain { numbers, images }))
}
