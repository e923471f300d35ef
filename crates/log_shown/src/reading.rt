//! What is shown of the heap: the checks of opening in their order, up to the first that fails.

ghost use Rattle.std.specs.Prelude.{◌≡◌, ℕ, List, ◌≤◌, IsTrue, IfOk, IfErr, length};
ghost use Rattle.std.specs.List.{AllByRecursion};
ghost use Rattle.chains.specs.KeyWrites.{latest};
ghost use Rattle.log_extents.specs.Chains.{IsNumberOf};
ghost use Rattle.recovery.specs.Answers.{after_reads};
ghost use Rattle.recovery.specs.Faults.{IsReadFault};
ghost use Rattle.log_recovery.specs.Chains.{HasEntry, HoldsChains, uses_of};
ghost use Rattle.log_recovery.specs.Rules.{mark_of};
ghost use Rattle.log_recovery.specs.Following.{IsEndOf};
ghost use Rattle.log_recovery.specs.Read.{IsLogRead, IsAnchoredLog};
ghost use Rattle.log_shown.specs.declared.reading.ShownEnd.TheVariants as ends;
ghost use Rattle.log_shown.specs.Shown.{items_of, IsHeapShown, IsNoMemory};

use crate::items::{LogItem, items_before, items_of, items_of_first};
use crate::walk::{FrontRead, read_front};
use disk::Disk;
use log_recovery::{
    AnchoredLog, ChainsRead, HeapSize, LogRead, RuleCheck, are_anchors_small, check_rules,
    is_end_right, kept_log, read_base, read_members, seen_log,
};
use recovery::OpenFault;
use std::alloc::Global;

/// The extents of a log that is right.
#[derive(Clone, Copy, Debug, PartialEq, Eq)]
pub struct LogExtents {
    /// The extent where the log goes on.
    pub next: u32,
    /// How many extents the live chains have: those of the log, and that of the anchors.
    pub used: u32,
    /// How many extents count as the log's: those of its chains, the base's aside, and the one where it goes on.
    pub log: u32,
}

/// Where what is shown of a log ends.
#[derive(Clone, Copy, Debug, PartialEq, Eq)]
pub enum ShownEnd {
    /// All is right.
    Right(LogExtents),
    /// A check fails, and is told with this extent of the heap.
    Damaged(u64),
}

/// What is shown of a heap.
#[derive(Drop)]
pub(crate) struct HeapShown {
    pub items: Vec<LogItem>,
    pub end: ShownEnd,
}

impl HeapShown {
    // What is said up to a check that fails.
    fn damaged(items: Vec<LogItem>, place: u64) -> HeapShown
        ensures items { result.items.items ≡ items.items }
        ensures end { result.end ≡ ends.Damaged place }
    {
        HeapShown {
            items,
            end: ShownEnd::Damaged(place),
        }
    }
}

// What is shown of chains that keep the rules between them, with the anchors that they name.
fn show_members(
    alloc: Global,
    heap: HeapSize,
    root: u32,
    items: Vec<LogItem>,
    read: AnchoredLog,
) -> Result<HeapShown, OpenFault>
    requires most { heap.most ≤ 1048576 }
    requires items { items.items ≡ items_of read.log.chains.items }
    requires entries { AllByRecursion (HasEntry heap.most) read.log.chains.items }
    requires end { IsEndOf (mark_of read.log.chains.items) read.log.chains.items read.log.end }
    requires next { IsNumberOf heap.most read.log.next }
    requires latest { latest read.anchors.versions ≤ read.log.end.mark }
    ensures shown { (bytes : List ℕ) → heap.len ≡ length bytes → IsAnchoredLog heap.most root bytes read
        → IfOk result (λ shown. IsHeapShown heap.most root bytes shown.items.items shown.end) }
    ensures fault { IfErr result IsNoMemory }
{
    let AnchoredLog { log, anchors } = read;
    let kept = kept_log(heap.most, &log.chains, &log.end);
    let ends_right = is_end_right(heap.len, log.next, &log.space, &log.end);
    let used = log.space.used();
    let len = anchors.len as u64;
    let members = match read_members(alloc, log.end.mark, anchors.versions, len, log.chains) {
        Ok(members) => members,
        Err(OpenFault::Damaged(_, place)) => {
            return Ok(HeapShown::damaged(items_before(place, items), place));
        }
        Err(_) => return Err(OpenFault::NoMemory),
    };
    let anchors_fit = are_anchors_small(heap.most, members.read.sizes);
    let Some(count) = seen_log(kept, ends_right, anchors_fit) else {
        return Ok(HeapShown::damaged(items, u64::from(root)));
    };
    let extents = LogExtents {
        next: log.next,
        used,
        log: count as u32 + 1,
    };
    Ok(HeapShown {
        items,
        end: ShownEnd::Right(extents),
    })
}

// What is shown of chains that keep the rules between them.
fn show_anchored<D: Disk>(
    alloc: Global,
    disk: &mut D,
    heap: HeapSize,
    root: u32,
    items: Vec<LogItem>,
    log: LogRead,
) -> Result<HeapShown, OpenFault>
    requires len { IsTrue D.tells → heap.len ≡ length (D.state disk.old).areas.heap.bytes }
    requires most { heap.most ≤ 1048576 }
    requires items { items.items ≡ items_of log.chains.items }
    requires entries { AllByRecursion (HasEntry heap.most) log.chains.items }
    requires end { IsEndOf (mark_of log.chains.items) log.chains.items log.end }
    requires next { IsNumberOf heap.most log.next }
    requires read { IsTrue D.tells → IsLogRead heap.most root (D.state disk.old).areas.heap.bytes log }
    ensures shown { IsTrue D.tells → IfOk result (λ shown. IsHeapShown heap.most root (D.state disk.old).areas.heap.bytes shown.items.items shown.end) }
    ensures fault { IsTrue D.tells → IfErr result IsReadFault }
    ensures reads { D.state disk.new ≡ after_reads result (D.state disk.old) }
{
    let mut log = log;
    match read_base(alloc, disk, heap, &mut log.space, log.end.mark, &log.chains) {
        Ok(anchors) => show_members(alloc, heap, root, items, AnchoredLog { log, anchors }),
        Err(OpenFault::Damaged(_, place)) => {
            let base = items_of_first(alloc, &log.chains)?;
            Ok(HeapShown::damaged(base, place))
        }
        Err(fault) => Err(fault),
    }
}

// What is shown of chains that are right.
fn show_rules<D: Disk>(
    alloc: Global,
    disk: &mut D,
    heap: HeapSize,
    root: u32,
    items: Vec<LogItem>,
    read: ChainsRead,
) -> Result<HeapShown, OpenFault>
    requires len { IsTrue D.tells → heap.len ≡ length (D.state disk.old).areas.heap.bytes }
    requires most { heap.most ≤ 1048576 }
    requires items { items.items ≡ items_of read.chains.items }
    requires entries { AllByRecursion (HasEntry heap.most) read.chains.items }
    requires next { IsNumberOf heap.most read.next }
    requires chains { IsTrue D.tells → HoldsChains heap.most root (D.state disk.old).areas.heap.bytes read.chains.items read.next }
    requires space { IsTrue D.tells → read.space ≡ uses_of heap.most read.chains.items }
    ensures shown { IsTrue D.tells → IfOk result (λ shown. IsHeapShown heap.most root (D.state disk.old).areas.heap.bytes shown.items.items shown.end) }
    ensures fault { IsTrue D.tells → IfErr result IsReadFault }
    ensures reads { D.state disk.new ≡ after_reads result (D.state disk.old) }
{
    match check_rules(alloc, &read.chains)? {
        RuleCheck::Keeps(end) => {
            let log = LogRead {
                chains: read.chains,
                next: read.next,
                space: read.space,
                end,
            };
            show_anchored(alloc, disk, heap, root, items, log)
        }
        RuleCheck::Breaks(head) => {
            let place = u64::from(head);
            Ok(HeapShown::damaged(items_before(place, items), place))
        }
    }
}

// What is shown of the heap, from this root on.
pub(crate) fn show_heap<D: Disk>(
    alloc: Global,
    disk: &mut D,
    heap: HeapSize,
    root: u32,
) -> Result<HeapShown, OpenFault>
    requires len { IsTrue D.tells → heap.len ≡ length (D.state disk.old).areas.heap.bytes }
    requires most { heap.most ≤ 1048576 }
    requires root { IsNumberOf heap.most root }
    ensures shown { IsTrue D.tells → IfOk result (λ shown. IsHeapShown heap.most root (D.state disk.old).areas.heap.bytes shown.items.items shown.end) }
    ensures fault { IsTrue D.tells → IfErr result IsReadFault }
    ensures reads { D.state disk.new ≡ after_reads result (D.state disk.old) }
{
    let FrontRead { read, whole } = match read_front(alloc, disk, heap, root) {
        Ok(front) => front,
        Err(fault) => return Err(fault),
    };
    let items = items_of(alloc, &read.chains)?;
    if !whole {
        return Ok(HeapShown::damaged(items, u64::from(read.next)));
    }
    show_rules(alloc, disk, heap, root, items, read)
}
