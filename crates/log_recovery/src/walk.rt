//! The chains of the log, read one after the other from the root on.

ghost use Rattle.std.specs.Prelude.{◌≡◌, ◌↔◌, ◌≤◌, ◌<◌, ◌^◌, IsTrue, IfOk, IfErr, IfSome, MatchOption, length};
ghost use Rattle.disk.specs.declared.area.Area.TheVariants.{Heap};
ghost use Rattle.log_extents.specs.Chains.{IsNumberOf};
ghost use Rattle.std.specs.List.{AllByRecursion};
ghost use Rattle.log_entries.specs.Ranges.{IsEntry};
ghost use Rattle.recovery.specs.Answers.{after_reads};
ghost use Rattle.recovery.specs.Faults.{IsReadFault};
ghost use Rattle.log_recovery.specs.Taking.{free_left};
ghost use Rattle.log_recovery.specs.Chains.{HasOpenGate, HasNoLogChain, TakesChain, HoldsChains, uses_of, HasEntry};
ghost use Rattle.log_recovery.specs.Opening.{IsChainFault};

use crate::chain::LogChain;
use crate::taking::{EXTENT_BYTES, HeapSize, read_chain};
use disk::{Area, Disk};
use log_entries::decode;
use log_extents::{ChainKind, is_open};
use log_space::Space;
use recovery::OpenFault;
use std::alloc::Global;

/// The chains of a log, the extent where it ends, and which extents its chains have.
#[derive(Drop)]
pub struct ChainsRead {
    pub chains: Vec<LogChain>,
    pub next: u32,
    pub space: Space,
}

/// Whether the first byte of this extent is an open gate.
///
/// # Errors
///
/// `Device` where the disk refused the read.
pub fn has_open_gate<D: Disk>(disk: &mut D, heap_len: u64, number: u32) -> Result<bool, OpenFault>
    requires low { 0 < number }
    requires len { IsTrue D.tells → heap_len ≡ length (D.state disk.old).areas.heap.bytes }
    ensures gate { IsTrue D.tells → IfOk result (λ b. IsTrue b ↔ HasOpenGate (D.state disk.old).areas.heap.bytes number) }
    ensures fault { IfErr result IsReadFault }
    ensures reads { D.state disk.new ≡ after_reads result (D.state disk.old) }
{
    let place = u64::from(number - 1) * EXTENT_BYTES;
    if heap_len <= place {
        return Ok(false);
    }
    let mut gate = [0; 1];
    match disk.read(Area::Heap, place, &mut gate) {
        Ok(()) => Ok(is_open(gate[0])),
        Err(_) => Err(OpenFault::Device),
    }
}

/// The chain of the log that begins at this extent, whose extents are taken now. None where none does whose
/// extents are all free.
///
/// # Errors
///
/// `Device` where the disk refused a read; `NoMemory`.
pub fn read_log_chain<D: Disk>(
    alloc: Global,
    disk: &mut D,
    heap: HeapSize,
    space: &mut Space,
    number: u32,
) -> Result<Option<LogChain>, OpenFault>
    requires len { IsTrue D.tells → heap.len ≡ length (D.state disk.old).areas.heap.bytes }
    requires most { heap.most < 2 ^ 32 }
    ensures found { IsTrue D.tells
        → IfOk result (λ o. MatchOption o (HasNoLogChain heap.most (D.state disk.old).areas.heap.bytes number space.old)
        (TakesChain heap.most (D.state disk.old).areas.heap.bytes number space.old space.new)) }
    ensures fewer { IfOk result (λ o. IfSome o (λ chain. free_left space.new < free_left space.old)) }
    ensures link { IfOk result (λ o. IfSome o (λ chain. IsNumberOf heap.most chain.link)) }
    ensures entry { IfOk result (λ o. IfSome o (λ chain. IsEntry heap.most chain.entry)) }
    ensures fault { IfErr result IsReadFault }
    ensures reads { D.state disk.new ≡ after_reads result (D.state disk.old) }
{
    let Some(parts) = read_chain(alloc, disk, heap, space, ChainKind::Log, number)? else {
        return Ok(None);
    };
    let Some(entry) = decode(alloc, heap.most, &parts.content)? else {
        return Ok(None);
    };
    Ok(Some(LogChain {
        numbers: parts.numbers,
        link: parts.link,
        entry,
        len: parts.content.len(),
    }))
}

/// The chains of the log from the root on.
///
/// # Errors
///
/// `Damaged` with the first extent of the first chain that is not right; `Device` where the disk refused a read;
/// `NoMemory`.
pub(crate) fn read_chains<D: Disk>(
    alloc: Global,
    disk: &mut D,
    heap: HeapSize,
    root: u32,
) -> Result<ChainsRead, OpenFault>
    requires len { IsTrue D.tells → heap.len ≡ length (D.state disk.old).areas.heap.bytes }
    requires most { heap.most < 2 ^ 32 }
    requires root { IsNumberOf heap.most root }
    ensures chains { IsTrue D.tells → IfOk result (λ read. HoldsChains heap.most root (D.state disk.old).areas.heap.bytes read.chains.items read.next) }
    ensures space { IsTrue D.tells → IfOk result (λ read. read.space ≡ uses_of heap.most read.chains.items) }
    ensures entries { IfOk result (λ read. AllByRecursion (HasEntry heap.most) read.chains.items) }
    ensures next { IfOk result (λ read. IsNumberOf heap.most read.next) }
    ensures fault { IsTrue D.tells → IfErr result (IsChainFault heap.most root (D.state disk.old).areas.heap.bytes) }
    ensures reads { D.state disk.new ≡ after_reads result (D.state disk.old) }
{
    let mut space = Space::new(alloc, heap.most)?;
    let mut chains = Vec::new(alloc);
    let mut next = root;
    while has_open_gate(disk, heap.len, next)? {
        let Some(chain) = read_log_chain(alloc, disk, heap, &mut space, next)? else {
            return Err(OpenFault::Damaged(Area::Heap, u64::from(next)));
        };
        next = chain.link;
        chains.push(chain)?;
    }
    Ok(ChainsRead {
        chains,
        next,
        space,
    })
}
