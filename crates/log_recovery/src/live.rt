//! The chains of a log as memory has them.

ghost use Rattle.std.specs.Prelude.{◌≡◌, ℕ, map};
ghost use Rattle.std.specs.List.{AllByRecursion};
ghost use Rattle.law_image.specs.Log.{last_time_after};
ghost use Rattle.law_log_layout.specs.HeapLog.{member_told};
ghost use Rattle.log_entries.specs.Ranges.{IsMember, IsEntry};
ghost use Rattle.log_recovery.specs.Live.{part_of};
ghost use Rattle.log_recovery.specs.Members.{later_of, later_in, heads_told};

use log_entries::{Archive, Base, Entry, Member, RelationFloor};
use std::alloc::Global;
use std::marker::Model;

/// What a chain of the log says, but for the records of its commits.
#[derive(Drop)]
pub enum LivePart {
    /// Commits, of which the last has this time, in microseconds since 1970.
    Commits(u64),
    Archived(Archive),
    Floor(RelationFloor),
    Base(Base),
}

/// A chain of the log as memory has it: its extents, its head first, and what it says but for the records of its
/// commits.
#[derive(Drop)]
pub struct LiveChain {
    pub numbers: Vec<u32>,
    pub part: LivePart,
}

impl Model for LiveChain {
    ghost use Rattle.log_recovery.specs.Live.{LiveChainValue};

    ghost Value = { LiveChainValue };

    ghost view = { λ c. record { numbers = c.numbers.items; part = c.part } };
}

/// The commits of a chain, and what it says but for their records.
#[derive(Drop)]
pub(crate) struct EntryParts {
    pub(crate) members: Vec<Member>,
    pub(crate) part: LivePart,
}

// The time of the last of these commits; 0 where there is none.
fn last_of(members: &[Member]) -> u64
    ensures { result ≡ last_time_after 0 (heads_told (map member_told members.now)) }
{
    let mut last = 0;
    let mut rest = members;
    while let Some((member, after)) = rest.split_first() {
        last = member.time;
        rest = after;
    }
    last
}

/// Takes apart what a chain says.
pub(crate) fn take_apart(alloc: Global, entry: Entry) -> EntryParts
    requires { (most : ℕ) × IsEntry most entry }
    ensures each { AllByRecursion IsMember result.members.items }
    ensures members { (mark : ℕ) → later_of mark result.members.items ≡ later_in mark entry }
    ensures part { result.part ≡ part_of entry }
{
    match entry {
        Entry::Group(members) => {
            let last = last_of(members.as_slice());
            EntryParts {
                members: members.into_vec(),
                part: LivePart::Commits(last),
            }
        }
        Entry::Archived(archive) => EntryParts {
            members: Vec::new(alloc),
            part: LivePart::Archived(archive),
        },
        Entry::Floor(floor) => EntryParts {
            members: Vec::new(alloc),
            part: LivePart::Floor(floor),
        },
        Entry::Base(base) => EntryParts {
            members: Vec::new(alloc),
            part: LivePart::Base(base),
        },
    }
}
