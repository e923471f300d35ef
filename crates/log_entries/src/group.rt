//! The commits of a group at the beginning of bytes.

ghost use Rattle.std.specs.Prelude.{◌≡◌, ◌≢◌, ◌<◌, ◌≤◌, ◌↔◌, ◌++◌, ℕ, List, length, drop, IsTrue, IfOk, IfSome, MatchOption};
ghost use Rattle.deltas.specs.Records.{spelling};
ghost use Rattle.std.specs.List.{flat_map, AllByRecursion};
ghost use Rattle.log_entries.specs.declared.entry.Member.{Member};
ghost use Rattle.log_entries.specs.Spelling.{member_bytes};
ghost use Rattle.log_entries.specs.Ranges.{IsStored, IsMember, AreMembers};
ghost use Rattle.log_entries.specs.Reading.{head_at, IsHeadOf};
ghost use Rattle.log_entries.specs.Items.{HasFewer};
ghost use Rattle.log_entries.specs.Lengths.{member_some};

use crate::entry::Member;
use crate::item::{Item, has_kind, take_list};
use crate::listed::Listed;
use byteorder::{ByteOrder, LittleEndian};
use deltas::{Kinds, Record, are_rising, take_record_of};
use history::LAST_TIME;
use std::alloc::{AllocError, Global};

/// The byte that a COMMIT begins with.
pub(crate) const COMMIT: u8 = 5;

/// How many bytes a COMMIT has, its records aside.
pub(crate) const COMMIT_LEN: usize = 19;

/// The most records of a commit, and the most commits of a group.
const MOST: usize = 1024;

// So many records of a commit at the front, and what follows them.
fn take_records(
    alloc: Global,
    count: u16,
    bytes: &[u8],
) -> Result<Option<(Vec<Record>, &[u8])>, AllocError>
    ensures { IfOk result (λ o. MatchOption o (HasFewer spelling IsStored count bytes.now)
        (λ p. AllByRecursion IsStored p.0.items × (length p.0.items ≡ count) × (bytes.now ≡ flat_map spelling p.0.items ++ p.1.now))) }
{
    let mut found = Vec::new(alloc);
    let mut rest = bytes;
    for _ in 0..count {
        let Some((record, after)) = take_record_of(alloc, Kinds::OfCommit, rest)? else {
            return Ok(None);
        };
        found.push(record)?;
        rest = after;
    }
    Ok(Some((found, rest)))
}

// A COMMIT: the caller's number, the time, and how many records follow.
#[derive(Clone, Copy)]
struct Head {
    label: u64,
    time: u64,
    records: u16,
}

#[tactic(auto, unfolding(crate::specs::Reading::head_at))]
fn read_head(bytes: &[u8]) -> Head
    requires { 19 ≤ length bytes.now }
    ensures { result ≡ head_at bytes.now }
{
    Head {
        label: LittleEndian::read_u64(&bytes[1..]),
        time: LittleEndian::read_u64(&bytes[9..]),
        records: LittleEndian::read_u16(&bytes[17..]),
    }
}

// Whether it may be the COMMIT of these records.
fn is_commit(head: Head, records: &[Record]) -> bool
    ensures { IsTrue result ↔ IsHeadOf head records.now }
{
    1 <= head.time
        && head.time <= LAST_TIME
        && !records.is_empty()
        && records.len() <= MOST
        && are_rising(records)
}

impl Item for Member {
    ghost bytes_of = { member_bytes };

    ghost Is = { IsMember };

    ghost some = { member_some };

    fn take(alloc: Global, bytes: &[u8]) -> Result<Option<(Member, &[u8])>, AllocError> {
        if !has_kind(bytes, COMMIT, COMMIT_LEN) {
            return Ok(None);
        }
        let head = read_head(bytes);
        let after = &bytes[COMMIT_LEN..];
        let Some((records, rest)) = take_records(alloc, head.records, after)? else {
            return Ok(None);
        };
        if !is_commit(head, records.as_slice()) {
            return Ok(None);
        }
        let member = Member {
            label: head.label,
            time: head.time,
            records: Listed::of(records),
        };
        Ok(Some((member, rest)))
    }
}

// Whether a group may have so many commits.
fn is_count(members: &[Member]) -> bool
    ensures { IsTrue result ↔ ((0 < length members.now) × (length members.now ≤ 1024)) }
{
    !members.is_empty() && members.len() <= MOST
}

/// The commits of a group that has just these bytes.
pub(crate) fn take_group(alloc: Global, bytes: &[u8]) -> Result<Option<Listed<Member>>, AllocError>
    ensures { IfOk result (λ o. MatchOption o ((members : List Member) → AreMembers members → bytes.now ≢ flat_map member_bytes members)
        (λ members. AreMembers members × (bytes.now ≡ flat_map member_bytes members))) }
{
    let (members, rest) = take_list(alloc, bytes)?;
    if !rest.is_empty() {
        return Ok(None);
    }
    if !is_count(members.as_slice()) {
        return Ok(None);
    }
    Ok(Some(Listed::of(members)))
}
