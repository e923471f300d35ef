//! The room in a heap: which extents the log has, and which it will take.
ghost use Rattle.std.specs.Prelude.{ℕ, ◌≡◌, ◌≤◌, ◌<◌, ◌+◌, ◌*◌, ◌/◌, ◌^◌, ◌∷◌, ◌++◌, [], ◌↔◌, true, IsTrue, IfOk, OnErr, MatchOption, length};
ghost use Rattle.std.specs.List.{AllByRecursion};
ghost use Rattle.log_extents.specs.Chains.{count_of, IsNumberOf};
ghost use Rattle.log_space.specs.Uses.{with_use, IsLeastFree};
ghost use Rattle.law_log_sizes.specs.Sizes.{len_behind};
ghost use Rattle.log_sizes.specs.Counted.{values_in};
ghost use Rattle.log_room.specs.Bases.{has_base_room, has_floor_room};
ghost use Rattle.log_room.specs.Rooms.{fits, promised_to, has_entry_room, has_last_room, promised_entry, TakesChain, MayOpen, IsRoom};
ghost use Rattle.log_room.specs.Reserves.{Reserves, based_on, with_kept};

use crate::base_share::BaseParts;
use crate::taking::{take_free, take_least};
use chains::{Frozen, SharedValue};
use history::KeyWrite;
use log_sizes::AnchorSizes;
use log_space::Space;
use std::alloc::{AllocError, Global};
use std::marker::Model;

/// So many extents of the log's half are left by commits, for the entries of jobs.
const LEFT_BY_COMMITS: u32 = 4;

/// And so many by the entry of a floor, and by that of an archive which leaves something to be archived.
const LEFT_BY_ENTRIES: u32 = 2;

/// One extent in so many is the base's.
const BASE_SHARE: u32 = 16;

/// The extents of a heap: which are in use, where the log ends, how many it has, how many it will take for the commits that wait, and how
/// many are taken for a base in the making.
#[derive(Drop)]
pub struct HeapRoom {
    space: Space,
    next: u32,
    log: u32,
    promised: u32,
    anchors: u64,
    // How many extents are taken for the base that a reclaim makes, and for its anchors.
    reserved: u32,
}

/// The fewest extents that a heap has, and the most.
const LEAST_EXTENTS: u32 = 64;

const MOST_EXTENTS: u32 = 1 << 20;

// Whether a heap may be opened where these extents are in use, the log ends at `next` and has so many extents with that one, and the
// anchors of its last state have so many bytes.
fn may_open(space: &Space, next: u32, log: u32, anchors: u64) -> bool
    ensures { IsTrue result ↔ MayOpen space.now next log anchors }
{
    let len = space.len();
    LEAST_EXTENTS <= len
        && len <= MOST_EXTENTS
        && space.is_free(next)
        && log <= len / 2
        && space.used() + 1 <= log + len / 4
        && AnchorSizes::of(anchors).fit(len * 3 / 16)
}

/// The extents of a chain, its head first, and the one where the log goes on after it.
#[derive(Drop)]
pub struct TakenChain {
    pub numbers: Vec<u32>,
    pub link: u32,
}

/// The extents of anchors, and those of the base that names them.
#[derive(Drop)]
pub struct Reserved {
    pub anchors: Vec<u32>,
    pub base: Vec<u32>,
}

impl Model for HeapRoom {
    ghost use Rattle.log_room.specs.Rooms.{RoomValue, IsRoom};

    ghost Value = { RoomValue };

    ghost view = { λ r. record { used = r.space; next = r.next; log = r.log; promised = r.promised; anchors = r.anchors; reserved = r.reserved } };

    ghost invariant = { λ r. IsRoom (record {
      used = r.space;
      next = r.next;
      log = r.log;
      promised = r.promised;
      anchors = r.anchors;
      reserved = r.reserved;
    }) };
}

impl HeapRoom {
    /// The room in a heap that was opened. The extents of live chains are in use; the log ends at `next`. It has `log` extents, with
    /// that one, and the anchors of its last state have so many bytes.
    pub fn of_opened(mut space: Space, next: u32, log: u32, anchors: u64) -> HeapRoom
        requires { MayOpen space next log anchors }
        ensures { result ≡ record { used = with_use space next true; next = next; log = log; promised = 0; anchors = anchors; reserved = 0 } }
    {
        let _claimed = space.claim(next);
        HeapRoom {
            space,
            next,
            log,
            promised: 0,
            anchors,
            reserved: 0,
        }
    }

    /// As `of_opened`. None where such a heap may not be opened.
    pub fn opened(space: Space, next: u32, log: u32, anchors: u64) -> Option<HeapRoom>
        ensures { MatchOption result (¬ MayOpen space next log anchors)
            (λ room. MayOpen space next log anchors × (room ≡ record
            { used = with_use space next true; next = next; log = log; promised = 0; anchors = anchors; reserved = 0 })) }
    {
        if !may_open(&space, next, log, anchors) {
            return None;
        }
        Some(HeapRoom::of_opened(space, next, log, anchors))
    }

    /// How many extents the heap has. The log and the anchors are within their shares of it.
    pub fn len(&self) -> u32
        ensures is { result ≡ length self.now.used }
        ensures room { IsRoom self.now }
    {
        self.space.len()
    }

    /// The extent where the log ends.
    pub fn next(&self) -> u32
        ensures { result ≡ self.now.next }
    {
        self.next
    }

    /// The bytes of the anchors of the state after a commit of these writes, where these are the versions of the whole commit order.
    pub fn anchors_behind(&self, ordered: &Frozen, writes: &[KeyWrite<SharedValue>]) -> u64
        requires { length writes.now ≤ 1024 }
        ensures { result ≡ len_behind self.now.anchors (values_in ordered.now) writes.now }
    {
        AnchorSizes::of(self.anchors)
            .with_writes(ordered, writes)
            .len
    }

    /// Whether a commit of so many extents has room, after which the anchors have so many bytes.
    pub fn fits(&self, count: usize, anchors: u64) -> bool
        ensures { result ≡ fits self.now count anchors }
    {
        let most = self.space.len();
        let share = most * 3 / 16;
        let limit = most / 2 - LEFT_BY_COMMITS;
        let taken = self.log + self.promised;
        taken <= limit && count <= (limit - taken) as usize && AnchorSizes::of(anchors).fit(share)
    }

    /// A commit is promised so many extents; after it the anchors have so many bytes.
    pub fn promise(&mut self, count: usize, anchors: u64)
        requires log { self.old.log + self.old.promised + count ≤ length self.old.used / 2 }
        requires share { count_of anchors ≤ (3 * length self.old.used) / 16 }
        ensures is { self.new ≡ promised_to self.old count anchors }
        ensures few { self.new.promised ≤ 2 ^ 20 }
    {
        let promised = self.promised;
        self.promised = promised + count as u32;
        self.anchors = anchors;
    }

    /// Whether the entry of a floor has room, or of an archive that leaves something to be archived.
    pub fn has_entry_room(&self) -> bool
        ensures { result ≡ has_entry_room self.now }
    {
        self.log + self.promised + 1 <= self.space.len() / 2 - LEFT_BY_ENTRIES
    }

    /// Whether the entry of an archive has room that leaves nothing to be archived.
    pub fn has_last_room(&self) -> bool
        ensures { result ≡ has_last_room self.now }
    {
        self.log + self.promised + 1 <= self.space.len() / 2
    }

    /// Whether a base that names these parts, and two rolls and two archives more, is within its share of the
    /// heap.
    pub fn has_base_room(&self, parts: BaseParts) -> bool
        ensures { result ≡ has_base_room self.now parts }
    {
        parts.extents() <= u128::from(self.space.len() / BASE_SHARE)
    }

    /// Whether such a base is within half of its share where it names one floor more.
    pub fn has_floor_room(&self, parts: BaseParts) -> bool
        ensures { result ≡ has_floor_room self.now parts }
    {
        2 * parts.floored_extents() <= u128::from(self.space.len() / BASE_SHARE)
    }

    /// An entry is promised its extent.
    pub fn promise_entry(&mut self)
        requires { self.old.log + self.old.promised + 1 ≤ length self.old.used / 2 }
        ensures is { self.new ≡ promised_entry self.old }
        ensures few { self.new.promised ≤ 2 ^ 20 }
    {
        self.promised += 1;
    }

    /// Takes the extents of a chain of so many, which begins where the log ends, and the one where the log goes on after it. So many
    /// extents are promised no longer.
    pub fn take_chain(
        &mut self,
        alloc: Global,
        count: usize,
        promised: usize,
    ) -> Result<TakenChain, AllocError>
        requires some { 0 < count }
        requires within { count ≤ promised }
        requires promised { promised ≤ self.old.promised }
        ensures ok { IfOk result (λ chain. TakesChain self.old count promised chain.numbers.items chain.link self.new) }
        ensures in_range { IfOk result (λ chain. AllByRecursion (IsNumberOf (2 ^ 20)) (chain.link ∷ chain.numbers.items)) }
        ensures err { OnErr result (self.new ≡ self.old) }
    {
        let mut numbers = take_least(alloc, &mut self.space, self.next, count)?;
        match numbers.pop() {
            None => unreachable!(),
            Some(link) => {
                self.next = link;
                self.log += count as u32;
                self.promised -= promised as u32;
                Ok(TakenChain { numbers, link })
            }
        }
    }

    /// The free extent of the least number.
    pub fn least_free(&self) -> u32
        requires { self.now.reserved ≡ 0 }
        ensures { IsLeastFree self.now.used result }
    {
        match self.space.least() {
            Some(number) => number,
            None => unreachable!(),
        }
    }

    /// Takes so many extents for anchors and then so many for the base that names them, each the least free one. Memory comes first: without
    /// it nothing has changed.
    pub fn reserve(
        &mut self,
        alloc: Global,
        anchors: usize,
        base: usize,
    ) -> Result<Reserved, AllocError>
        requires none { self.old.reserved ≡ 0 }
        requires share { anchors + base ≤ length self.old.used / 4 }
        ensures many { IfOk result (λ taken. (length taken.anchors.items ≡ anchors) × (length taken.base.items ≡ base)) }
        ensures ok { IfOk result (λ taken. Reserves self.old (anchors + base) (taken.anchors.items ++ taken.base.items) self.new) }
        ensures in_range { IfOk result (λ taken. AllByRecursion (IsNumberOf (2 ^ 20)) taken.anchors.items
            × AllByRecursion (IsNumberOf (2 ^ 20)) taken.base.items) }
        ensures err { OnErr result (self.new ≡ self.old) }
    {
        let first = Vec::with_capacity(alloc, anchors)?;
        let second = Vec::with_capacity(alloc, base)?;
        let first = take_free(&mut self.space, first, anchors);
        let second = take_free(&mut self.space, second, base);
        self.reserved = (anchors + base) as u32;
        Ok(Reserved {
            anchors: first,
            base: second,
        })
    }

    /// The anchors and the base that a reclaim has made count, in these extents, and of the log nothing is counted: `keep` counts the chains
    /// that stay, and the extent where the log ends.
    pub fn put_base(&mut self, anchors: &[u32], base: &[u32])
        requires anchors { AllByRecursion (λ (number : ℕ). 0 < number) anchors.now }
        requires base { AllByRecursion (λ (number : ℕ). 0 < number) base.now }
        requires share { length anchors.now + length base.now ≤ length self.old.used / 4 }
        ensures { self.new ≡ based_on self.old anchors.now base.now }
    {
        self.space.clear();
        self.space.claim_all(anchors);
        self.space.claim_all(base);
        self.log = 0;
        self.reserved = 0;
    }

    /// These extents of the log stay.
    pub fn keep(&mut self, numbers: &[u32])
        requires numbers { AllByRecursion (λ (number : ℕ). 0 < number) numbers.now }
        requires half { self.old.log + length numbers.now + self.old.promised ≤ length self.old.used / 2 }
        ensures { self.new ≡ with_kept self.old numbers.now }
    {
        self.space.claim_all(numbers);
        self.log += numbers.len() as u32;
    }

    /// So does the one where the log ends.
    pub fn keep_next(&mut self)
        requires half { self.old.log + 1 + self.old.promised ≤ length self.old.used / 2 }
        ensures { self.new ≡ with_kept self.old (self.old.next ∷ []) }
    {
        let next = self.next;
        self.keep(&[next]);
    }
}
