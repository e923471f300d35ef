//! What chains of the endless profile's log hold, byte for byte, changed and cut.
use crate::worked_bytes::KEY;
use deltas::{Content, ContentRef, Record, RecordList, RecordRef};
use history::Key;
use log_entries::{
    AnchorName, Archive, Base, Entry, Listed, Member, RelationFloor, Roll, commit_len, decode,
    laws, push_archive, push_base, push_commit, push_floor, push_write,
};
use std::alloc::{AllocError, Global};
use wire::{Value, ValueFault};

/// How many extents the heap has.
const MOST: u32 = 64;

/// A commit of values, each of so many fields that are the same.
#[derive(Clone, Copy)]
struct Commit {
    label: u64,
    time: u64,
    keys: &'static [u64],
    value: &'static [&'static [u8]],
}

fn push_value(bytes: &mut Vec<u8>, record: u64, value: &Value) -> Result<(), AllocError> {
    push_write(
        bytes,
        RecordRef {
            key: Key {
                relation: KEY.relation,
                record,
            },
            content: ContentRef::Anchor(value),
        },
    )
}

fn push_values(alloc: Global, bytes: &mut Vec<u8>, commit: &Commit) -> Result<(), ValueFault> {
    let value = Value::new(alloc, commit.value)?;
    for key in commit.keys {
        if push_value(bytes, *key, &value).is_err() {
            return Err(ValueFault::NoMemory);
        }
    }
    Ok(())
}

/// The bytes of a group of these commits.
fn group_bytes(alloc: Global, commits: &[Commit]) -> Option<Vec<u8>> {
    let mut bytes = Vec::new(alloc);
    for commit in commits {
        let count = commit.keys.len().min(1024) as u16;
        if push_commit(&mut bytes, commit.label, commit.time, count).is_err()
            || push_values(alloc, &mut bytes, commit).is_err()
        {
            return None;
        }
    }
    Some(bytes)
}

fn is_commit(member: &Member, commit: &Commit) -> bool {
    let records = member.records.as_slice();
    member.label == commit.label
        && member.time == commit.time
        && records.len() == commit.keys.len()
        && matches!((records.last(), commit.keys.last()), (Some(record), Some(key)) if record.key.record == *key)
}

/// Whether these are the commits, one after the other.
fn are_commits(members: &[Member], commits: &[Commit]) -> bool {
    for (place, member) in members.iter().enumerate() {
        let Some(commit) = commits.get(place) else {
            return false;
        };
        if !is_commit(member, commit) {
            return false;
        }
    }
    members.len() == commits.len()
}

/// Whether these bytes are a group of these commits.
fn is_group(alloc: Global, bytes: &[u8], commits: &[Commit]) -> bool {
    match decode(alloc, MOST, bytes) {
        Ok(Some(Entry::Group(members))) => are_commits(members.as_slice(), commits),
        _ => false,
    }
}

/// Whether a group of these commits has just these bytes.
fn is_spelled(alloc: Global, commits: &[Commit], bytes: &[u8]) -> bool {
    match group_bytes(alloc, commits) {
        Some(spelled) => spelled.as_slice() == bytes && is_group(alloc, bytes, commits),
        None => false,
    }
}

const ONE: Commit = Commit {
    label: 9,
    time: 100,
    keys: &[7],
    value: &[b"a"],
};

const ONE_BYTES: &[u8] =
    b"\x05\x09\0\0\0\0\0\0\0\x64\0\0\0\0\0\0\0\x01\0\x01\x01\0\x07\0\0\0\0\0\0\0\x01\x01a";

/// How many bytes a commit of this one value has, as they are counted.
fn counted(alloc: Global, fields: &[&[u8]]) -> Option<usize> {
    let Ok(value) = Value::new(alloc, fields) else {
        return None;
    };
    let records = [Record {
        key: KEY,
        content: Content::Anchor(value),
    }];
    Some(commit_len(&mut RecordList::new(&records)))
}

#[test]
fn one_commit_is_spelled(rt: HostRuntime) {
    laws::one_entry();
    laws::commit_len();
    assert!(rt; is_spelled(rt.alloc(), &[ONE], ONE_BYTES));
    assert!(rt; counted(rt.alloc(), &[b"a"]) == Some(33));
}

const KEYS: [&[u64]; 17] = [
    &[0],
    &[1],
    &[2],
    &[3],
    &[4],
    &[5],
    &[6],
    &[7],
    &[8],
    &[9],
    &[10],
    &[11],
    &[12],
    &[13],
    &[14],
    &[15],
    &[16],
];

/// The commits of a group: labels from 0 on, times from 100 on, each of one value.
fn commits_of_a_group(alloc: Global) -> Result<Vec<Commit>, AllocError> {
    let mut commits = Vec::new(alloc);
    for label in 0..17 {
        commits.push(Commit {
            label,
            time: 100 + label,
            keys: KEYS[label as usize],
            value: &[b"a"],
        })?;
    }
    Ok(commits)
}

const FIRST_OF_17: &[u8] =
    b"\x05\0\0\0\0\0\0\0\0\x64\0\0\0\0\0\0\0\x01\0\x01\x01\0\0\0\0\0\0\0\0\0\x01\x01a";

const SECOND_OF_17: &[u8] =
    b"\x05\x01\0\0\0\0\0\0\0\x65\0\0\0\0\0\0\0\x01\0\x01\x01\0\x01\0\0\0\0\0\0\0\x01\x01a";

const LAST_OF_17: &[u8] =
    b"\x05\x10\0\0\0\0\0\0\0\x74\0\0\0\0\0\0\0\x01\0\x01\x01\0\x10\0\0\0\0\0\0\0\x01\x01a";

/// Whether these are the bytes of 17 commits of 33 bytes each.
fn are_17(bytes: &[u8]) -> bool {
    bytes.len() == 561
        && bytes.starts_with(FIRST_OF_17)
        && &bytes[33..66] == SECOND_OF_17
        && bytes.ends_with(LAST_OF_17)
}

/// Whether 17 commits are spelled one behind the other.
fn joins_17(alloc: Global) -> bool {
    let Ok(commits) = commits_of_a_group(alloc) else {
        return false;
    };
    let Some(bytes) = group_bytes(alloc, commits.as_slice()) else {
        return false;
    };
    are_17(bytes.as_slice()) && is_group(alloc, bytes.as_slice(), commits.as_slice())
}

#[test]
fn a_group_of_17_is_joined(rt: HostRuntime) {
    assert!(rt; joins_17(rt.alloc()));
}

const LONGEST: &[u8] = &[0x78; 255];

const LONG: Commit = Commit {
    label: 1,
    time: 100,
    keys: &[1, 2],
    value: &[LONGEST; 16],
};

const LONG_FRONT: &[u8] =
    b"\x05\x01\0\0\0\0\0\0\0\x64\0\0\0\0\0\0\0\x02\0\x01\x01\0\x01\0\0\0\0\0\0\0\x10\xffxxxx";

const SECOND_KEY: &[u8] = b"\x01\x01\0\x02\0\0\0\0\0\0\0";

/// Whether these are the bytes of two values of 16 fields of 255 bytes: 4,108 each behind their COMMIT.
fn are_long(bytes: &[u8]) -> bool {
    bytes.len() == 8235 && bytes.starts_with(LONG_FRONT) && &bytes[4127..4138] == SECOND_KEY
}

/// Whether a commit of these is spelled so.
fn is_long(alloc: Global) -> bool {
    match group_bytes(alloc, &[LONG]) {
        Some(bytes) => are_long(bytes.as_slice()) && is_group(alloc, bytes.as_slice(), &[LONG]),
        None => false,
    }
}

#[test]
fn a_long_commit_is_spelled(rt: HostRuntime) {
    assert!(rt; is_long(rt.alloc()));
}

/// A commit of a value, and one of another second field of it behind it.
const VALUE_THEN_DELTA: &[u8] =
    b"\x05\x01\0\0\0\0\0\0\0\x64\0\0\0\0\0\0\0\x01\0\x01\x01\0\x07\0\0\0\0\0\0\0\x02\x01a\x01b\
      \x05\x02\0\0\0\0\0\0\0\x65\0\0\0\0\0\0\0\x01\0\x02\x01\0\x07\0\0\0\0\0\0\0\x02\0\x01c";

fn has_two_of_one_key(alloc: Global) -> bool {
    match decode(alloc, MOST, VALUE_THEN_DELTA) {
        Ok(Some(Entry::Group(members))) => {
            matches!(members.as_slice(), [first, second] if first.time == 100 && second.time == 101)
        }
        _ => false,
    }
}

#[test]
fn two_commits_of_one_key_are_a_group(rt: HostRuntime) {
    assert!(rt; VALUE_THEN_DELTA.len() == 69 && has_two_of_one_key(rt.alloc()));
}

const FIRST_RUN: Archive = Archive {
    upto: 120,
    start: 0,
    len: 74,
    records: 2,
    runs: 0,
};

const EMPTY_RUN: Archive = Archive {
    upto: 130,
    start: 122,
    len: 0,
    records: 0,
    runs: 0,
};

const MERGED_RUN: Archive = Archive {
    upto: 180,
    start: 222,
    len: 259,
    records: 7,
    runs: 7,
};

const FIRST_RUN_BYTES: &[u8] =
    b"\x06\x78\0\0\0\0\0\0\0\0\0\0\0\0\0\0\0\x4a\0\0\0\0\0\0\0\x02\0\0\0\0\0\0\0\0\0";

const MERGED_RUN_BYTES: &[u8] =
    b"\x06\xb4\0\0\0\0\0\0\0\xde\0\0\0\0\0\0\0\x03\x01\0\0\0\0\0\0\x07\0\0\0\0\0\0\0\x07\0";

fn is_archive(alloc: Global, archive: &Archive, bytes: &[u8]) -> bool {
    let mut spelled = Vec::new(alloc);
    push_archive(&mut spelled, archive).is_ok()
        && spelled.as_slice() == bytes
        && matches!(decode(alloc, MOST, bytes), Ok(Some(Entry::Archived(read))) if read == *archive)
}

const FLOOR: RelationFloor = RelationFloor {
    relation: 1,
    floor: 130,
};

const FLOOR_BYTES: &[u8] = b"\x07\x82\0\0\0\0\0\0\0\x01\0";

fn is_floor(alloc: Global, floor: &RelationFloor, bytes: &[u8]) -> bool {
    let mut spelled = Vec::new(alloc);
    push_floor(&mut spelled, floor).is_ok()
        && spelled.as_slice() == bytes
        && matches!(decode(alloc, MOST, bytes), Ok(Some(Entry::Floor(read))) if read == *floor)
}

#[test]
fn jobs_entries_are_spelled(rt: HostRuntime) {
    let alloc = rt.alloc();
    assert!(rt; is_archive(alloc, &FIRST_RUN, FIRST_RUN_BYTES));
    assert!(rt; is_archive(alloc, &MERGED_RUN, MERGED_RUN_BYTES));
    assert!(rt; is_floor(alloc, &FLOOR, FLOOR_BYTES));
}

/// A base as a row of a table has it.
#[derive(Clone, Copy)]
struct Said {
    upto: u64,
    anchors: AnchorName,
    rolls: &'static [Roll],
    archives: &'static [Archive],
    floors: &'static [RelationFloor],
    bytes: &'static [u8],
}

const NO_ANCHORS: AnchorName = AnchorName {
    first: 0,
    extents: 0,
    records: 0,
};

const ONE_ANCHOR: AnchorName = AnchorName {
    first: 2,
    extents: 1,
    records: 1,
};

const FIRST_ROLL: Roll = Roll { start: 74, len: 48 };

const SECOND_ROLL: Roll = Roll {
    start: 122,
    len: 16,
};

const ROLLED: &[u8] =
    b"\x08\x78\0\0\0\0\0\0\0\0\0\0\0\0\0\0\0\0\0\0\0\x09\x4a\0\0\0\0\0\0\0\x30\0\0\0\0\0\0\0";

const ANCHORED: &[u8] =
    b"\x08\x82\0\0\0\0\0\0\0\x02\0\0\0\x01\0\0\0\x01\0\0\0\x09\x4a\0\0\0\0\0\0\0\x30\0\0\0\0\0\0\0\
      \x09\x7a\0\0\0\0\0\0\0\x10\0\0\0\0\0\0\0\x06\x78\0\0\0\0\0\0\0\0\0\0\0\0\0\0\0\x4a\0\0\0\0\0\0\0\
      \x02\0\0\0\0\0\0\0\0\0\x06\x82\0\0\0\0\0\0\0\x7a\0\0\0\0\0\0\0\0\0\0\0\0\0\0\0\0\0\0\0\0\0\0\0\0\0";

const FLOORED: &[u8] =
    b"\x08\x82\0\0\0\0\0\0\0\x02\0\0\0\x01\0\0\0\x01\0\0\0\x09\x4a\0\0\0\0\0\0\0\x30\0\0\0\0\0\0\0\
      \x09\x7a\0\0\0\0\0\0\0\x10\0\0\0\0\0\0\0\x06\x78\0\0\0\0\0\0\0\0\0\0\0\0\0\0\0\x4a\0\0\0\0\0\0\0\
      \x02\0\0\0\0\0\0\0\0\0\x06\x82\0\0\0\0\0\0\0\x7a\0\0\0\0\0\0\0\0\0\0\0\0\0\0\0\0\0\0\0\0\0\0\0\0\0\
      \x07\x82\0\0\0\0\0\0\0\x01\0";

/// The bases of three reclaims, one after the other: the last one has a floor more than the one
/// before it.
const BASES: &[Said] = &[
    Said {
        upto: 120,
        anchors: NO_ANCHORS,
        rolls: &[FIRST_ROLL],
        archives: &[],
        floors: &[],
        bytes: ROLLED,
    },
    Said {
        upto: 130,
        anchors: ONE_ANCHOR,
        rolls: &[FIRST_ROLL, SECOND_ROLL],
        archives: &[FIRST_RUN, EMPTY_RUN],
        floors: &[],
        bytes: ANCHORED,
    },
    Said {
        upto: 130,
        anchors: ONE_ANCHOR,
        rolls: &[FIRST_ROLL, SECOND_ROLL],
        archives: &[FIRST_RUN, EMPTY_RUN],
        floors: &[FLOOR],
        bytes: FLOORED,
    },
];

fn base_of(alloc: Global, said: &Said) -> Result<Base, AllocError> {
    Ok(Base {
        upto: said.upto,
        anchors: said.anchors,
        rolls: Listed::of(Vec::from_slice(alloc, said.rolls)?),
        archives: Listed::of(Vec::from_slice(alloc, said.archives)?),
        floors: Listed::of(Vec::from_slice(alloc, said.floors)?),
    })
}

fn reads_as(alloc: Global, said: &Said) -> bool {
    match decode(alloc, MOST, said.bytes) {
        Ok(Some(Entry::Base(base))) => {
            base.upto == said.upto
                && base.anchors == said.anchors
                && base.rolls.as_slice() == said.rolls
                && base.archives.as_slice() == said.archives
                && base.floors.as_slice() == said.floors
        }
        _ => false,
    }
}

fn is_base(alloc: Global, said: &Said) -> bool {
    let Ok(base) = base_of(alloc, said) else {
        return false;
    };
    let mut spelled = Vec::new(alloc);
    push_base(&mut spelled, &base).is_ok()
        && spelled.as_slice() == said.bytes
        && reads_as(alloc, said)
}

#[test]
fn bases_are_spelled(rt: HostRuntime) {
    for said in BASES {
        assert!(rt; is_base(rt.alloc(), said), "{} bytes", said.bytes.len());
    }
}

/// Bytes of an entry that are changed, and why they are none then.
const CHANGED: &[(&str, &[u8], u8, u8)] = &[
    ("an old version at the front", ROLLED, 0, 4),
    ("a base up to 0", ROLLED, 1, 0),
    ("a roll of 40 bytes", ROLLED, 30, 40),
    ("anchors of no record", ANCHORED, 17, 0),
    ("anchors in extent 65", ANCHORED, 9, 65),
    ("a run of a base in the place of one", ANCHORED, 88, 1),
    ("257 records", ONE_BYTES, 18, 1),
    ("no record", ONE_BYTES, 17, 0),
    ("a time of 0", ONE_BYTES, 9, 0),
    ("an old version in a commit", ONE_BYTES, 19, 4),
    ("a floor of 0", FLOOR_BYTES, 1, 0),
    ("a kind that is none", FLOOR_BYTES, 0, 10),
    (
        "a run that its records have not room for",
        FIRST_RUN_BYTES,
        17,
        71,
    ),
];

/// Whether these bytes are an entry, and none with one of them changed.
fn is_none_changed(alloc: Global, bytes: &[u8], at: u8, byte: u8) -> bool {
    let Ok(mut changed) = Vec::from_slice(alloc, bytes) else {
        return false;
    };
    let at = at as usize;
    if at < changed.len() {
        changed[at] = byte;
    }
    matches!(decode(alloc, MOST, bytes), Ok(Some(_)))
        && matches!(decode(alloc, MOST, changed.as_slice()), Ok(None))
}

#[test]
fn changed_bytes_are_no_entry(rt: HostRuntime) {
    for (what, bytes, at, byte) in CHANGED {
        assert!(rt; is_none_changed(rt.alloc(), bytes, *at, *byte), "{what}");
    }
}

const ROLL_ALONE: &[u8] = b"\x09\x4a\0\0\0\0\0\0\0\x30\0\0\0\0\0\0\0";

/// Entries of which any front that is shorter is none.
const CUT: &[&[u8]] = &[ONE_BYTES, FLOOR_BYTES, FIRST_RUN_BYTES];

/// Whether no front of these bytes is an entry.
fn are_none_cut(alloc: Global, bytes: &[u8]) -> bool {
    for len in 0..bytes.len() {
        if !matches!(decode(alloc, MOST, &bytes[..len]), Ok(None)) {
            return false;
        }
    }
    true
}

/// Whether two entries in one chain are none, but for commits.
fn are_none_joined(alloc: Global, front: &[u8], behind: &[u8]) -> bool {
    let Ok(mut bytes) = Vec::from_slice(alloc, front) else {
        return false;
    };
    bytes.extend_from_slice(behind).is_ok()
        && matches!(decode(alloc, MOST, bytes.as_slice()), Ok(None))
}

#[test]
fn other_bytes_are_no_entry(rt: HostRuntime) {
    let alloc = rt.alloc();
    for bytes in CUT {
        assert!(rt; are_none_cut(alloc, bytes), "{} bytes", bytes.len());
    }
    assert!(rt; are_none_joined(alloc, FLOOR_BYTES, FLOOR_BYTES));
    assert!(rt; are_none_joined(alloc, ONE_BYTES, FLOOR_BYTES));
    assert!(rt; are_none_joined(alloc, FLOORED, FLOOR_BYTES));
    assert!(rt; are_none_joined(alloc, ANCHORED, ROLL_ALONE));
}
