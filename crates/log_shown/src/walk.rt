//! The chains of a log, up to the first that is not right.

ghost use Rattle.std.specs.Prelude.{◌≡◌, ◌<◌, ◌^◌, IsTrue, IfOk, IfErr, length, true};
ghost use Rattle.log_extents.specs.Chains.{IsNumberOf};
ghost use Rattle.std.specs.List.{AllByRecursion};
ghost use Rattle.recovery.specs.Answers.{after_reads};
ghost use Rattle.recovery.specs.Faults.{IsReadFault};
ghost use Rattle.log_recovery.specs.Chains.{uses_of, HasEntry};
ghost use Rattle.log_shown.specs.Shown.{IsFront};

use disk::Disk;
use log_recovery::{ChainsRead, HeapSize, has_open_gate, read_log_chain};
use log_space::Space;
use recovery::OpenFault;
use std::alloc::Global;

/// The chains of a log, or those before the first that is not right.
#[derive(Drop)]
pub(crate) struct FrontRead {
    pub read: ChainsRead,
    /// Whether no chain follows these.
    pub whole: bool,
}

/// The chains of the log from the root on, up to the first that is not right.
///
/// # Errors
///
/// `Device` where the disk refused a read; `NoMemory`.
pub(crate) fn read_front<D: Disk>(
    alloc: Global,
    disk: &mut D,
    heap: HeapSize,
    root: u32,
) -> Result<FrontRead, OpenFault>
    requires len { IsTrue D.tells → heap.len ≡ length (D.state disk.old).areas.heap.bytes }
    requires most { heap.most < 2 ^ 32 }
    requires root { IsNumberOf heap.most root }
    ensures front { IsTrue D.tells → IfOk result (λ front. IsFront front.whole heap.most root (D.state disk.old).areas.heap.bytes front.read.chains.items
        front.read.next) }
    ensures space { IsTrue D.tells → IfOk result (λ front. front.whole ≡ true → front.read.space ≡ uses_of heap.most front.read.chains.items) }
    ensures entries { IfOk result (λ front. AllByRecursion (HasEntry heap.most) front.read.chains.items) }
    ensures next { IfOk result (λ front. IsNumberOf heap.most front.read.next) }
    ensures fault { IfErr result IsReadFault }
    ensures reads { D.state disk.new ≡ after_reads result (D.state disk.old) }
{
    let mut space = Space::new(alloc, heap.most)?;
    let mut chains = Vec::new(alloc);
    let mut next = root;
    while has_open_gate(disk, heap.len, next)? {
        let Some(chain) = read_log_chain(alloc, disk, heap, &mut space, next)? else {
            let read = ChainsRead {
                chains,
                next,
                space,
            };
            return Ok(FrontRead { read, whole: false });
        };
        next = chain.link;
        chains.push(chain)?;
    }
    let read = ChainsRead {
        chains,
        next,
        space,
    };
    Ok(FrontRead { read, whole: true })
}
