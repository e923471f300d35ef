//! The members of the log: its commits later than the reclaim mark, each record over the value before it.

ghost use Rattle.std.specs.Prelude.{◌≡◌, ◌++◌, ◌∷◌, [], ◌≤◌, ◌<◌, ◌^◌, ℕ, List, IfOk, IfErr, IfSome, MatchOption, map};
ghost use Rattle.std.specs.List.{AllByRecursion};
ghost use Rattle.chains.specs.KeyWrites.{latest};
ghost use Rattle.law_image.specs.Reading.{Member as MemberTold, OldRecord};
ghost use Rattle.law_image.specs.Log.{AreRisingAfter, last_time_after};
ghost use Rattle.law_image.specs.Facts.{AreStored};
ghost use Rattle.law_log_layout.specs.HeapLog.{member_told};
ghost use Rattle.log_entries.specs.Ranges.{IsMember};
ghost use Rattle.log_extents.specs.Chains.{first_or};
ghost use Rattle.law_log_sizes.specs.Sizes.{anchors_len};
ghost use Rattle.log_sizes.specs.Counted.{AreSizes, AreSizesBehind};
ghost use Rattle.log_recovery.specs.Chains.{HasEntry};
ghost use Rattle.log_recovery.specs.Live.{live_of};
ghost use Rattle.log_recovery.specs.Members.{later_of, heads_told, HasFacts, values_behind, values_of, members_of_all};
ghost use Rattle.log_recovery.specs.Members.{AreAllStored, IsMembersFault, IsInMemoryFault, AreWritesOf};

use crate::chain::LogChain;
use crate::live::{EntryParts, LiveChain, take_apart};
use crate::members_read::{CommitName, MembersRead};
use chains::Frozen;
use disk::Area;
use log_entries::Member;
use log_sizes::AnchorSizes;
use recovery::{OpenFault, resolve};
use std::alloc::{AllocError, Global};

impl MembersRead {
    // No member yet, behind the anchors whose versions are these, and which take so many bytes.
    fn behind(alloc: Global, mark: u64, anchors: Frozen, len: u64) -> MembersRead
        requires { latest anchors ≤ mark }
        ensures versions { result.versions ≡ anchors }
        ensures commits { result.commits.items ≡ [] }
        ensures last { result.last ≡ mark }
        ensures sizes { AreSizes len len result.sizes }
    {
        MembersRead {
            versions: anchors,
            commits: Vec::new(alloc),
            last: mark,
            sizes: AnchorSizes::of(len),
        }
    }

    // One member more. None where a record of it is not the one that its write is stored as.
    fn with_member(self, alloc: Global, member: Member) -> Result<Option<MembersRead>, AllocError>
        requires is { IsMember member }
        requires later { self.last < member.time }
        ensures last { IfOk result (λ o. IfSome o (λ next. next.last ≡ member.time)) }
        ensures read { (mark : ℕ) (olds : List OldRecord) (before : List MemberTold) → HasFacts mark olds before self → IfOk result (λ o. MatchOption o
            (¬ AreStored (values_behind (values_of olds) before) (member_told member ∷ [])) (λ next. AreStored (values_behind (values_of olds) before)
            (member_told member ∷ []) × HasFacts mark olds (before ++ member_told member ∷ []) next)) }
        ensures sizes { (mark : ℕ) (olds : List OldRecord) (before : List MemberTold) → HasFacts mark olds before self
            → AreSizesBehind olds before self.sizes → IfOk result (λ o. IfSome o (λ next. AreSizesBehind olds (before ++ member_told member ∷ []) next.sizes)) }
    {
        let MembersRead {
            versions,
            mut commits,
            last: _,
            sizes,
        } = self;
        let time = member.time;
        commits.push(CommitName {
            time,
            label: member.label,
        })?;
        let records = member.records.into_vec();
        let Some(writes) = resolve(alloc, &versions, records)? else {
            return Ok(None);
        };
        let sizes = sizes.with_writes(&versions, &writes);
        let versions = versions.into_commit(alloc, time, &writes)?;
        Ok(Some(MembersRead {
            versions,
            commits,
            last: time,
            sizes,
        }))
    }

    // The later ones of a group's commits more.
    fn with_group(
        self,
        alloc: Global,
        mark: u64,
        members: Vec<Member>,
    ) -> Result<Option<MembersRead>, AllocError>
        requires each { AllByRecursion IsMember members.items }
        requires rising { AreRisingAfter self.last (heads_told (later_of mark members.items)) }
        ensures last { IfOk result (λ o. IfSome o (λ next. next.last ≡ last_time_after self.last (heads_told (later_of mark members.items)))) }
        ensures read { (olds : List OldRecord) (before : List MemberTold) → HasFacts mark olds before self → IfOk result (λ o. MatchOption o (¬ AreStored
            (values_behind (values_of olds) before) (later_of mark members.items)) (λ next. AreStored (values_behind (values_of olds) before)
            (later_of mark members.items) × HasFacts mark olds (before ++ later_of mark members.items) next)) }
        ensures sizes { (olds : List OldRecord) (before : List MemberTold) → HasFacts mark olds before self → AreSizesBehind olds before self.sizes
            → IfOk result (λ o. IfSome o (λ next. AreSizesBehind olds (before ++ later_of mark members.items) next.sizes)) }
    {
        let mut read = self;
        for member in members {
            if mark < member.time {
                let Some(next) = read.with_member(alloc, member)? else {
                    return Ok(None);
                };
                read = next;
            }
        }
        Ok(Some(read))
    }
}

// The first extent of a chain.
fn head_of(numbers: &[u32]) -> u32
    ensures { result ≡ first_or 0 numbers.now }
{
    match numbers {
        [] => 0,
        [first, ..] => *first,
    }
}

/// The members of a log, and its chains.
#[derive(Drop)]
pub struct LogMembers {
    pub read: MembersRead,
    /// The chains of the log in their order.
    pub live: Vec<LiveChain>,
}

/// The members of these chains, after the anchors whose versions are these, and which take so many bytes.
///
/// # Errors
///
/// `Damaged` with the first extent of the first chain that has a record which is not the one that its write is
/// stored as; `NoMemory`.
pub fn read_members(
    alloc: Global,
    mark: u64,
    anchors: Frozen,
    len: u64,
    chains: Vec<LogChain>,
) -> Result<LogMembers, OpenFault>
    requires entries { (most : ℕ) × AllByRecursion (HasEntry most) chains.items }
    requires rising { AreRisingAfter mark (heads_told (members_of_all mark chains.items)) }
    requires anchors { latest anchors ≤ mark }
    ensures read { (olds : List OldRecord) → AreWritesOf olds anchors → IfOk result (λ log. AreAllStored mark (values_of olds) chains.items
        × HasFacts mark olds (members_of_all mark chains.items) log.read) }
    ensures sizes { (olds : List OldRecord) → AreWritesOf olds anchors → anchors_len olds ≡ len → IfOk result (λ log. AreSizesBehind olds
        (members_of_all mark chains.items) log.read.sizes) }
    ensures live { IfOk result (λ log. log.live.items ≡ map live_of chains.items) }
    ensures in_memory { IfErr result IsInMemoryFault }
    ensures fault { (olds : List OldRecord) → AreWritesOf olds anchors → IfErr result (IsMembersFault mark (values_of olds) chains.items) }
{
    let mut read = MembersRead::behind(alloc, mark, anchors, len);
    let mut live = Vec::new(alloc);
    for chain in chains {
        let LogChain {
            numbers,
            link: _,
            entry,
            len: _,
        } = chain;
        let EntryParts { members, part } = take_apart(alloc, entry);
        let Some(next) = read.with_group(alloc, mark, members)? else {
            return Err(OpenFault::Damaged(Area::Heap, u64::from(head_of(&numbers))));
        };
        read = next;
        live.push(LiveChain { numbers, part })?;
    }
    Ok(LogMembers { read, live })
}
