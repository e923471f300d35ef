//! What the heap of an image says: the checks of opening, in their order.

ghost use Rattle.std.specs.Prelude.{◌≡◌, ◌⊎◌, ◌↔◌, ℕ, List, ◌+◌, ◌<◌, ◌≤◌, ◌^◌, IsTrue, IfOk, IfErr, IfSome};
ghost use Rattle.std.specs.Prelude.{MatchOption, Some, is_some, length, option_to_list};
ghost use Rattle.std.specs.List.{AllByRecursion};
ghost use Rattle.wire.specs.Spelling.{IsRun};
ghost use Rattle.chains.specs.KeyWrites.{latest};
ghost use Rattle.log_entries.specs.Ranges.{AreNone, AreSome};
ghost use Rattle.log_recovery.specs.Chains.{HasEntry};
ghost use Rattle.log_recovery.specs.Rules.{mark_of};
ghost use Rattle.log_recovery.specs.Following.{IsEndOf};
ghost use Rattle.log_recovery.specs.Ends.{EndsEarly, end_parts};
ghost use Rattle.log_recovery.specs.Anchored.{first_names, TakesAnchors, IsAnchorsFault};
ghost use Rattle.log_extents.specs.Chains.{IsNumberOf};
ghost use Rattle.recovery.specs.Answers.{after_reads};
ghost use Rattle.log_recovery.specs.Opening.{IsHeapFault};
ghost use Rattle.log_recovery.specs.Read.{IsLogRead, IsAnchoredLog, IsHeapRead};
ghost use Rattle.log_recovery.specs.Live.{live_count};
ghost use Rattle.log_recovery.specs.Members.{IsInMemoryFault};

use crate::all_archives::archives_of;
use crate::anchors::{AnchorsRead, no_anchors, read_anchors};
use crate::chain::LogChain;
use crate::ending::{is_end_right, kept_log};
use crate::live::LiveChain;
use crate::members::read_members;
use crate::members_read::MembersRead;
use crate::rules::{LogEnd, RuleCheck, check_rules};
use crate::shares::are_anchors_small;
use crate::taking::HeapSize;
use crate::walk::read_chains;
use disk::{Area, Disk};
use log_entries::{AnchorName, Archive, Entry};
use log_space::Space;
use recovery::OpenFault;
use std::alloc::Global;

/// The chains of a log that obey the rules between them, and its end.
#[derive(Drop)]
pub struct LogRead {
    pub chains: Vec<LogChain>,
    /// The extent where the log goes on.
    pub next: u32,
    /// The extents of the chains are in use.
    pub space: Space,
    pub end: LogEnd,
}

// The chains of the log, which keep the rules between them.
fn read_rules<D: Disk>(
    alloc: Global,
    disk: &mut D,
    heap: HeapSize,
    root: u32,
) -> Result<LogRead, OpenFault>
    requires len { IsTrue D.tells → heap.len ≡ length (D.state disk.old).areas.heap.bytes }
    requires most { heap.most < 2 ^ 32 }
    requires root { IsNumberOf heap.most root }
    ensures entries { IfOk result (λ read. AllByRecursion (HasEntry heap.most) read.chains.items) }
    ensures end { IfOk result (λ read. IsEndOf (mark_of read.chains.items) read.chains.items read.end) }
    ensures next { IfOk result (λ read. IsNumberOf heap.most read.next) }
    ensures found { IsTrue D.tells → IfOk result (IsLogRead heap.most root (D.state disk.old).areas.heap.bytes) }
    ensures fault { IsTrue D.tells → IfErr result (IsHeapFault heap.most root (D.state disk.old).areas.heap.bytes) }
    ensures reads { D.state disk.new ≡ after_reads result (D.state disk.old) }
{
    let read = match read_chains(alloc, disk, heap, root) {
        Ok(read) => read,
        Err(fault) => return Err(fault),
    };
    match check_rules(alloc, &read.chains)? {
        RuleCheck::Keeps(end) => Ok(LogRead {
            chains: read.chains,
            next: read.next,
            space: read.space,
            end,
        }),
        RuleCheck::Breaks(head) => Err(OpenFault::Damaged(Area::Heap, u64::from(head))),
    }
}

// The anchors that the first chain names, if it is a base.
fn anchors_name(most: u32, chains: &[LogChain]) -> Option<AnchorName>
    requires { AllByRecursion (HasEntry most) chains.now }
    ensures is { option_to_list result ≡ first_names chains.now }
    ensures in_range { IfSome result (λ name. AreNone name ⊎ AreSome most name) }
{
    let [first, ..] = chains else {
        return None;
    };
    match &first.entry {
        Entry::Base(base) => Some(base.anchors),
        Entry::Group(_) => None,
        Entry::Archived(_) => None,
        Entry::Floor(_) => None,
    }
}

/// The anchors of a log of these chains, whose extents are taken now.
///
/// # Errors
///
/// `Damaged` with the first extent that the base names, where its anchors are not right; `Device` where the disk
/// refused a read; `NoMemory`.
pub fn read_base<D: Disk>(
    alloc: Global,
    disk: &mut D,
    heap: HeapSize,
    space: &mut Space,
    mark: u64,
    chains: &[LogChain],
) -> Result<AnchorsRead, OpenFault>
    requires len { IsTrue D.tells → heap.len ≡ length (D.state disk.old).areas.heap.bytes }
    requires most { heap.most < 2 ^ 32 }
    requires mark { mark < 2 ^ 63 }
    requires entries { AllByRecursion (HasEntry heap.most) chains.now }
    ensures found { IsTrue D.tells → IfOk result (TakesAnchors heap.most mark (D.state disk.old).areas.heap.bytes space.old space.new
        (first_names chains.now)) }
    ensures latest { IfOk result (λ read. latest read.versions ≤ mark) }
    ensures fault { IsTrue D.tells → IfErr result (IsAnchorsFault heap.most mark (D.state disk.old).areas.heap.bytes space.old (first_names chains.now)) }
    ensures reads { D.state disk.new ≡ after_reads result (D.state disk.old) }
{
    let Some(name) = anchors_name(heap.most, chains) else {
        return Ok(no_anchors(alloc));
    };
    match read_anchors(alloc, disk, heap, space, mark, &name) {
        Ok(Some(read)) => Ok(read),
        Ok(None) => Err(OpenFault::Damaged(Area::Heap, u64::from(name.first))),
        Err(fault) => Err(fault),
    }
}

/// A log with its anchors.
#[derive(Drop)]
pub struct AnchoredLog {
    pub log: LogRead,
    pub anchors: AnchorsRead,
}

// The chains of the log, which keep the rules between them, and the anchors that they name.
fn read_anchored<D: Disk>(
    alloc: Global,
    disk: &mut D,
    heap: HeapSize,
    root: u32,
) -> Result<AnchoredLog, OpenFault>
    requires len { IsTrue D.tells → heap.len ≡ length (D.state disk.old).areas.heap.bytes }
    requires most { heap.most < 2 ^ 32 }
    requires root { IsNumberOf heap.most root }
    ensures entries { IfOk result (λ read. AllByRecursion (HasEntry heap.most) read.log.chains.items) }
    ensures end { IfOk result (λ read. IsEndOf (mark_of read.log.chains.items) read.log.chains.items read.log.end) }
    ensures next { IfOk result (λ read. IsNumberOf heap.most read.log.next) }
    ensures latest { IfOk result (λ read. latest read.anchors.versions ≤ read.log.end.mark) }
    ensures found { IsTrue D.tells → IfOk result (IsAnchoredLog heap.most root (D.state disk.old).areas.heap.bytes) }
    ensures fault { IsTrue D.tells → IfErr result (IsHeapFault heap.most root (D.state disk.old).areas.heap.bytes) }
    ensures reads { D.state disk.new ≡ after_reads result (D.state disk.old) }
{
    let mut log = match read_rules(alloc, disk, heap, root) {
        Ok(log) => log,
        Err(fault) => return Err(fault),
    };
    match read_base(alloc, disk, heap, &mut log.space, log.end.mark, &log.chains) {
        Ok(anchors) => Ok(AnchoredLog { log, anchors }),
        Err(fault) => Err(fault),
    }
}

/// What the heap of an image says.
#[derive(Drop)]
pub struct LogHeap {
    /// The extent where the log goes on.
    pub next: u32,
    /// The extents of live chains are in use, and `next` is free.
    pub space: Space,
    /// How many extents count as the log's: those of its chains, the base's aside, and the one where it goes on.
    pub log: u32,
    /// The extents of the anchors.
    pub anchors: Vec<u32>,
    pub end: LogEnd,
    /// The chains of the log in their order.
    pub live: Vec<LiveChain>,
    /// The archives that the log names, those of its base first, also where another took the place of their run.
    pub archives: Vec<Archive>,
    pub members: MembersRead,
}

/// How many extents the log has, where it ends right and the anchors are within their share.
pub fn seen_log(kept: Option<usize>, ends_right: bool, anchors_fit: bool) -> Option<usize>
    ensures { MatchOption result (¬ (IsTrue (is_some kept) × IsTrue ends_right × IsTrue anchors_fit)) (λ count. (kept ≡ Some count) × IsTrue ends_right
        × IsTrue anchors_fit) }
{
    if ends_right && anchors_fit {
        kept
    } else {
        None
    }
}

// The members of a log, and where it ends.
fn finish_heap(
    alloc: Global,
    heap: HeapSize,
    root: u32,
    read: AnchoredLog,
) -> Result<LogHeap, OpenFault>
    requires most { heap.most ≤ 1048576 }
    requires entries { AllByRecursion (HasEntry heap.most) read.log.chains.items }
    requires end { IsEndOf (mark_of read.log.chains.items) read.log.chains.items read.log.end }
    requires next { IsNumberOf heap.most read.log.next }
    requires latest { latest read.anchors.versions ≤ read.log.end.mark }
    ensures ends_early { IfOk result (λ heap. AllByRecursion EndsEarly (end_parts heap.end)) }
    ensures mark { IfOk result (λ heap. heap.end.mark < 2 ^ 63) }
    ensures runs { IfOk result (λ heap. AllByRecursion IsRun heap.end.runs.items) }
    ensures counted { IfOk result (λ heap. heap.log ≡ live_count heap.live.items + 1) }
    ensures found { (bytes : List ℕ) → heap.len ≡ length bytes → IsAnchoredLog heap.most root bytes read → IfOk result (IsHeapRead heap.most root bytes) }
    ensures fault { (bytes : List ℕ) → heap.len ≡ length bytes → IsAnchoredLog heap.most root bytes read → IfErr result (IsHeapFault heap.most root bytes) }
    ensures in_memory { IfErr result IsInMemoryFault }
{
    let AnchoredLog { log, anchors } = read;
    let kept = kept_log(heap.most, &log.chains, &log.end);
    let ends_right = is_end_right(heap.len, log.next, &log.space, &log.end);
    let len = anchors.len as u64;
    let archives = archives_of(alloc, &log.chains)?;
    let members = match read_members(alloc, log.end.mark, anchors.versions, len, log.chains) {
        Ok(members) => members,
        Err(fault) => return Err(fault),
    };
    let anchors_fit = are_anchors_small(heap.most, members.read.sizes);
    let Some(count) = seen_log(kept, ends_right, anchors_fit) else {
        return Err(OpenFault::Damaged(Area::Heap, u64::from(root)));
    };
    Ok(LogHeap {
        log: count as u32 + 1,
        next: log.next,
        space: log.space,
        anchors: anchors.numbers,
        end: log.end,
        live: members.live,
        archives,
        members: members.read,
    })
}

// Reads the heap, from this root on.
pub(crate) fn read_heap<D: Disk>(
    alloc: Global,
    disk: &mut D,
    heap: HeapSize,
    root: u32,
) -> Result<LogHeap, OpenFault>
    requires len { IsTrue D.tells → heap.len ≡ length (D.state disk.old).areas.heap.bytes }
    requires most { heap.most ≤ 1048576 }
    requires root { IsNumberOf heap.most root }
    ensures ends_early { IfOk result (λ read. AllByRecursion EndsEarly (end_parts read.end)) }
    ensures mark { IfOk result (λ read. read.end.mark < 2 ^ 63) }
    ensures runs { IfOk result (λ read. AllByRecursion IsRun read.end.runs.items) }
    ensures counted { IfOk result (λ read. read.log ≡ live_count read.live.items + 1) }
    ensures found { IsTrue D.tells → IfOk result (IsHeapRead heap.most root (D.state disk.old).areas.heap.bytes) }
    ensures fault { IsTrue D.tells → IfErr result (IsHeapFault heap.most root (D.state disk.old).areas.heap.bytes) }
    ensures reads { D.state disk.new ≡ after_reads result (D.state disk.old) }
{
    match read_anchored(alloc, disk, heap, root) {
        Ok(read) => finish_heap(alloc, heap, root, read),
        Err(fault) => Err(fault),
    }
}
