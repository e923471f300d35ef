//! What several examples share, byte for byte.
use crate::area_bytes::Parts;
use archive::RunEntry;
use arrayvec::ArrayVec;
use floors::Floors;
use history::Key;
use wire::{Anchors, Body, Member, Profile, Run};

pub const KEY: Key = Key {
    relation: 1,
    record: 7,
};

/// The front of a header of 16 slots, of profile 1. Zeros follow.
pub const HEADER: [u8; 16] = [
    0x4e, 0x4f, 0x4f, 0x56, 0x45, 0x52, 0x30, 0x31, 0x01, 0, 0, 0, 0x10, 0, 0, 0,
];

/// The same of profile 3, which a format writes.
pub const NEW_HEADER: [u8; 16] = [
    0x4e, 0x4f, 0x4f, 0x56, 0x45, 0x52, 0x30, 0x31, 0x03, 0, 0, 0, 0x10, 0, 0, 0,
];

/// A commit of one record in extent 1.
pub const MEMBER: Member = Member {
    label: 9,
    time: 100,
    first: 1,
    extents: 1,
    records: 1,
};

/// A slot of that commit alone.
pub fn one_commit() -> Body {
    let mut members = ArrayVec::new();
    members.push(MEMBER);
    Body::Commit(members)
}

/// What a slot says, as a row of a table has it.
#[derive(Clone, Copy)]
pub enum Said {
    /// That commit alone.
    Commit,
    Run(Run),
    Reclaim(Anchors),
    /// The floor of one relation, or of all.
    Floor(Option<u16>, u64),
}

/// The profile of this number; the newest where there is none.
pub fn profile_of(number: u32) -> Profile {
    Profile::of(number).unwrap_or(Profile::newest())
}

pub fn body_of(said: &Said) -> Body {
    match *said {
        Said::Commit => one_commit(),
        Said::Run(run) => Body::Archived(run),
        Said::Reclaim(anchors) => Body::Reclaimed(anchors),
        Said::Floor(relation, floor) => Body::Floor { relation, floor },
    }
}

/// The front of slot 0 with that commit, behind the gate. Zeros follow.
pub const COMMIT_BODY: [u8; 35] = [
    1, 1, 0, 0, 0, 0, 0, 9, 0, 0, 0, 0, 0, 0, 0, 100, 0, 0, 0, 0, 0, 0, 0, 1, 0, 0, 0, 1, 0, 0, 0,
    1, 0, 0, 0,
];

/// The front of extent 1, alone in its chain, with one record of 14 bytes.
pub const EXTENT_FRONT: [u8; 16] = [1, 0, 0, 0, 0, 0, 0, 0, 0x0e, 0, 0, 0, 0, 0, 0, 0];

/// The record that says that the key has the value a.
pub const ANCHOR: [u8; 14] = [1, 1, 0, 7, 0, 0, 0, 0, 0, 0, 0, 1, 1, 0x61];

/// Four slots, each of a commit whose chain is one extent: at 100 with the label 1 and extent 1, and
/// so forth at 110, 120 and 130.
pub const FOUR_COMMITS: Parts = &[
    (512, &[0xc7, 1, 1, 0, 0, 0, 0, 0, 1]),
    (528, &[100, 0, 0, 0, 0, 0, 0, 0, 1, 0, 0, 0, 1, 0, 0, 0, 1]),
    (1024, &[0xc7, 1, 1, 0, 1, 0, 0, 0, 2]),
    (1040, &[110, 0, 0, 0, 0, 0, 0, 0, 2, 0, 0, 0, 1, 0, 0, 0, 1]),
    (1536, &[0xc7, 1, 1, 0, 2, 0, 0, 0, 3]),
    (1552, &[120, 0, 0, 0, 0, 0, 0, 0, 3, 0, 0, 0, 1, 0, 0, 0, 1]),
    (2048, &[0xc7, 1, 1, 0, 3, 0, 0, 0, 4]),
    (2064, &[130, 0, 0, 0, 0, 0, 0, 0, 4, 0, 0, 0, 1, 0, 0, 0, 1]),
];

/// Their extents: the key has the value a, then b, then none, then c.
pub const FOUR_EXTENTS: Parts = &[
    (0, &[1, 0, 0, 0, 0, 0, 0, 0, 14]),
    (16, b"\x01\x01\0\x07\0\0\0\0\0\0\0\x01\x01a"),
    (8192, &[2, 0, 0, 0, 0, 0, 0, 0, 14]),
    (8208, b"\x01\x01\0\x07\0\0\0\0\0\0\0\x01\x01b"),
    (16_384, &[3, 0, 0, 0, 0, 0, 0, 0, 11]),
    (16_400, b"\x03\x01\0\x07"),
    (24_576, &[4, 0, 0, 0, 0, 0, 0, 0, 14]),
    (24_592, b"\x01\x01\0\x07\0\0\0\0\0\0\0\x01\x01c"),
];

/// A run of two records of the key: a from 100 to 110, and b from 110 to 120.
pub const RUN_BYTES: [u8; 74] = [
    1, 0, 7, 0, 0, 0, 0, 0, 0, 0, 0x64, 0, 0, 0, 0, 0, 0, 0, 0x6e, 0, 0, 0, 0, 0, 0, 0, 1, 1, 0x61,
    1, 0, 7, 0, 0, 0, 0, 0, 0, 0, 0x6e, 0, 0, 0, 0, 0, 0, 0, 0x78, 0, 0, 0, 0, 0, 0, 0, 1, 1, 0x62,
    0, 0, 0, 0, 0, 0, 0, 0, 0x1d, 0, 0, 0, 0, 0, 0, 0,
];

/// The same run, as its slot names it.
pub const RUN: Run = Run {
    upto: 120,
    start: 0,
    len: 74,
    records: 2,
};

/// That run, with no mark and no floors before its slot.
pub fn two_records() -> RunEntry {
    RunEntry {
        slot: RUN,
        mark: 0,
        floors: Floors::none(),
    }
}
