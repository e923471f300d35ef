//! Images of stores whose log lies in the heap, each with one change: what opening answers.
use crate::images::{Change, Left, disk_of};
use disk::{Area, MemDisk};
use log_store::LogStore;
use recovery::OpenFault;
use std::alloc::Global;
use std::test::Fail;

const LATE_BASE: &[u8] =
    b"\xc7\0\0\0\x04\0\0\0\0\0\0\0\x15\0\0\0\x05\0\0\0\0\0\0\0\x08x\0\0\0\0\0\0\0\0\0\0\0\0\0\0\0\0\0\0\0";

const LONG_DELTA: &[u8] =
    b"\xc7\0\0\0\x02\0\0\0\0\0\0\0\x22\0\0\0\x03\0\0\0\0\0\0\0\x05\x02\0\0\0\0\0\0\0n\0\0\0\0\0\0\0\x01\0\x02\x01\0\
      \x07\0\0\0\0\0\0\0\x01\0\x01b";

const GONE_AGAIN: &[u8] =
    b"\xc7\0\0\0\x04\0\0\0\0\0\0\0\x1e\0\0\0\x05\0\0\0\0\0\0\0\x05\x04\0\0\0\0\0\0\0\x82\0\0\0\0\0\0\0\x01\0\x03\x01\0\
      \x07\0\0\0\0\0\0\0";

/// What is changed in which image, and why it does not open then, or `None` where it does.
struct Case(&'static str, Left, &'static [Change], Option<OpenFault>);

const CASES: &[Case] = &[
    Case("nothing", Left::FourGroups, &[], None),
    Case("nothing", Left::Archived, &[], None),
    Case("nothing", Left::Reclaimed, &[], None),
    Case("nothing", Left::ArchivedAgain, &[], None),
    Case("nothing", Left::ReclaimedAgain, &[], None),
    Case("nothing", Left::Floored, &[], None),
    Case(
        "a short header",
        Left::Reclaimed,
        &[Change::Cut(Area::Status, 511)],
        Some(OpenFault::NotAStore),
    ),
    Case(
        "another first letter",
        Left::Reclaimed,
        &[Change::Put(Area::Status, 0, b"O")],
        Some(OpenFault::NotAStore),
    ),
    Case(
        "another profile",
        Left::Reclaimed,
        &[Change::Put(Area::Status, 8, b"\x05")],
        Some(OpenFault::NotAStore),
    ),
    Case(
        "48 extents",
        Left::Reclaimed,
        &[Change::Put(Area::Status, 12, b"0")],
        Some(OpenFault::NotAStore),
    ),
    Case(
        "72 extents",
        Left::Reclaimed,
        &[Change::Put(Area::Status, 12, b"H")],
        Some(OpenFault::NotAStore),
    ),
    Case(
        "a byte behind the turn gate",
        Left::Reclaimed,
        &[Change::Put(Area::Status, 17, b"\x01")],
        Some(OpenFault::NotAStore),
    ),
    Case(
        "root 0",
        Left::Reclaimed,
        &[Change::Put(Area::Status, 24, b"\0")],
        Some(OpenFault::NotAStore),
    ),
    Case(
        "root 65",
        Left::Reclaimed,
        &[Change::Put(Area::Status, 24, b"A")],
        Some(OpenFault::NotAStore),
    ),
    Case(
        "another root that does not count",
        Left::Reclaimed,
        &[Change::Put(Area::Status, 20, b"\xff")],
        None,
    ),
    Case(
        "a byte behind the roots",
        Left::Reclaimed,
        &[Change::Put(Area::Status, 28, b"\x01")],
        Some(OpenFault::NotAStore),
    ),
    Case(
        "a closed turn gate",
        Left::Reclaimed,
        &[Change::Put(Area::Status, 16, b"7")],
        None,
    ),
    Case(
        "a byte behind the header",
        Left::Reclaimed,
        &[Change::Put(Area::Status, 512, b"\x01")],
        None,
    ),
    Case(
        "a short base",
        Left::Reclaimed,
        &[Change::Cut(Area::Heap, 57343)],
        Some(OpenFault::Damaged(Area::Heap, 7)),
    ),
    Case(
        "a byte behind a gate",
        Left::Reclaimed,
        &[Change::Put(Area::Heap, 49153, b"\x01")],
        Some(OpenFault::Damaged(Area::Heap, 7)),
    ),
    Case(
        "another number",
        Left::Reclaimed,
        &[Change::Put(Area::Heap, 49156, b"\x08")],
        Some(OpenFault::Damaged(Area::Heap, 7)),
    ),
    Case(
        "an extent that goes on in itself",
        Left::Reclaimed,
        &[Change::Put(Area::Heap, 49160, b"\x07")],
        Some(OpenFault::Damaged(Area::Heap, 7)),
    ),
    Case(
        "no bytes in use",
        Left::Reclaimed,
        &[Change::Put(Area::Heap, 49164, b"\0")],
        Some(OpenFault::Damaged(Area::Heap, 7)),
    ),
    Case(
        "link 0",
        Left::Reclaimed,
        &[Change::Put(Area::Heap, 49168, b"\0")],
        Some(OpenFault::Damaged(Area::Heap, 7)),
    ),
    Case(
        "link 65",
        Left::Reclaimed,
        &[Change::Put(Area::Heap, 49168, b"A")],
        Some(OpenFault::Damaged(Area::Heap, 7)),
    ),
    Case(
        "a byte behind the link",
        Left::Reclaimed,
        &[Change::Put(Area::Heap, 49172, b"\x01")],
        Some(OpenFault::Damaged(Area::Heap, 7)),
    ),
    Case(
        "a byte behind the records",
        Left::Reclaimed,
        &[Change::Put(Area::Heap, 49214, b"\x01")],
        Some(OpenFault::Damaged(Area::Heap, 7)),
    ),
    Case(
        "a link to the base itself",
        Left::Reclaimed,
        &[Change::Put(Area::Heap, 49168, b"\x07")],
        Some(OpenFault::Damaged(Area::Heap, 7)),
    ),
    Case(
        "an anchor at the front",
        Left::Reclaimed,
        &[Change::Put(Area::Heap, 49176, b"\x04")],
        Some(OpenFault::Damaged(Area::Heap, 7)),
    ),
    Case(
        "a base up to 0",
        Left::Reclaimed,
        &[Change::Put(Area::Heap, 49177, b"\0")],
        Some(OpenFault::Damaged(Area::Heap, 7)),
    ),
    Case(
        "a roll that ends too soon",
        Left::Reclaimed,
        &[Change::Put(Area::Heap, 49164, b"%")],
        Some(OpenFault::Damaged(Area::Heap, 7)),
    ),
    Case(
        "a roll of 40 bytes",
        Left::Reclaimed,
        &[Change::Put(Area::Heap, 49206, b"(")],
        Some(OpenFault::Damaged(Area::Heap, 7)),
    ),
    Case(
        "anchors without records",
        Left::ReclaimedAgain,
        &[Change::Put(Area::Heap, 16425, b"\0")],
        Some(OpenFault::Damaged(Area::Heap, 3)),
    ),
    Case(
        "a run of the base in the place of others",
        Left::ReclaimedAgain,
        &[Change::Put(Area::Heap, 16496, b"\x01")],
        Some(OpenFault::Damaged(Area::Heap, 3)),
    ),
    Case(
        "257 records, of which one is there",
        Left::Reclaimed,
        &[Change::Put(Area::Heap, 24618, b"\x01")],
        Some(OpenFault::Damaged(Area::Heap, 4)),
    ),
    Case(
        "no records",
        Left::Reclaimed,
        &[Change::Put(Area::Heap, 24617, b"\0\0")],
        Some(OpenFault::Damaged(Area::Heap, 4)),
    ),
    Case(
        "floor 0",
        Left::Floored,
        &[Change::Put(Area::Heap, 25, b"\0\0\0\0\0\0\0\0")],
        Some(OpenFault::Damaged(Area::Heap, 1)),
    ),
    Case(
        "two commits of one time",
        Left::FourGroups,
        &[Change::Put(Area::Heap, 8225, b"d")],
        Some(OpenFault::Damaged(Area::Heap, 2)),
    ),
    Case(
        "a group up to the reclaim mark",
        Left::Reclaimed,
        &[Change::Put(Area::Heap, 49177, b"\x82")],
        Some(OpenFault::Damaged(Area::Heap, 4)),
    ),
    Case(
        "a run past the last commit",
        Left::Reclaimed,
        &[Change::Put(Area::Heap, 32793, b"\x83")],
        Some(OpenFault::Damaged(Area::Heap, 5)),
    ),
    Case(
        "a run in the place of one that is not there",
        Left::Reclaimed,
        &[Change::Put(Area::Heap, 32825, b"\x01")],
        Some(OpenFault::Damaged(Area::Heap, 5)),
    ),
    Case(
        "a second run up to the mark of the first",
        Left::ReclaimedAgain,
        &[Change::Put(Area::Heap, 16499, b"x")],
        Some(OpenFault::Damaged(Area::Heap, 3)),
    ),
    Case(
        "a run over the end of the one before it",
        Left::ReclaimedAgain,
        &[Change::Put(Area::Heap, 16507, b"I")],
        Some(OpenFault::Damaged(Area::Heap, 3)),
    ),
    Case(
        "a run past the reclaim mark",
        Left::ReclaimedAgain,
        &[Change::Put(Area::Heap, 16499, b"\x83")],
        Some(OpenFault::Damaged(Area::Heap, 3)),
    ),
    Case(
        "a roll over the start of the next one",
        Left::ReclaimedAgain,
        &[Change::Put(Area::Heap, 16430, b"{")],
        Some(OpenFault::Damaged(Area::Heap, 3)),
    ),
    Case(
        "a floor past the last commit",
        Left::Floored,
        &[Change::Put(Area::Heap, 25, b"\x83")],
        Some(OpenFault::Damaged(Area::Heap, 1)),
    ),
    Case(
        "a base behind other chains",
        Left::FourGroups,
        &[Change::Put(Area::Heap, 24576, LATE_BASE)],
        Some(OpenFault::Damaged(Area::Heap, 4)),
    ),
    Case(
        "a gate of anchors that is open",
        Left::ReclaimedAgain,
        &[Change::Put(Area::Heap, 8192, b"\xc7")],
        Some(OpenFault::Damaged(Area::Heap, 2)),
    ),
    Case(
        "a link of anchors",
        Left::ReclaimedAgain,
        &[Change::Put(Area::Heap, 8208, b"\x01")],
        Some(OpenFault::Damaged(Area::Heap, 2)),
    ),
    Case(
        "a record that is no anchor",
        Left::ReclaimedAgain,
        &[Change::Put(Area::Heap, 8216, b"\x01")],
        Some(OpenFault::Damaged(Area::Heap, 2)),
    ),
    Case(
        "an anchor past the reclaim mark",
        Left::ReclaimedAgain,
        &[Change::Put(Area::Heap, 8227, b"\x83")],
        Some(OpenFault::Damaged(Area::Heap, 2)),
    ),
    Case(
        "anchors in the extent of the base",
        Left::ReclaimedAgain,
        &[Change::Put(Area::Heap, 16417, b"\x03")],
        Some(OpenFault::Damaged(Area::Heap, 3)),
    ),
    Case(
        "two extents of anchors, where one is there",
        Left::ReclaimedAgain,
        &[Change::Put(Area::Heap, 16421, b"\x02")],
        Some(OpenFault::Damaged(Area::Heap, 2)),
    ),
    Case(
        "two anchors, where one is there",
        Left::ReclaimedAgain,
        &[Change::Put(Area::Heap, 16425, b"\x02")],
        Some(OpenFault::Damaged(Area::Heap, 2)),
    ),
    Case(
        "a delta that is longer than the value",
        Left::FourGroups,
        &[Change::Put(Area::Heap, 8192, LONG_DELTA)],
        Some(OpenFault::Damaged(Area::Heap, 2)),
    ),
    Case(
        "a key that is gone and goes again",
        Left::FourGroups,
        &[Change::Put(Area::Heap, 24576, GONE_AGAIN)],
        Some(OpenFault::Damaged(Area::Heap, 4)),
    ),
    Case(
        "no gate where the log ends",
        Left::FourGroups,
        &[Change::Cut(Area::Heap, 32768)],
        Some(OpenFault::Damaged(Area::Heap, 1)),
    ),
    Case(
        "a root with a closed gate",
        Left::Reclaimed,
        &[Change::Put(Area::Heap, 49152, b"7")],
        None,
    ),
    Case(
        "no root",
        Left::Reclaimed,
        &[Change::Cut(Area::Heap, 49152)],
        Some(OpenFault::Damaged(Area::Heap, 7)),
    ),
    Case(
        "a link past the end of the heap",
        Left::Reclaimed,
        &[Change::Put(Area::Heap, 49168, b"\x08")],
        Some(OpenFault::Damaged(Area::Heap, 7)),
    ),
    Case(
        "a log that ends in an extent of anchors",
        Left::ReclaimedAgain,
        &[Change::Put(Area::Heap, 16400, b"\x02")],
        Some(OpenFault::Damaged(Area::Heap, 3)),
    ),
    Case(
        "more reclaimed than archived",
        Left::Reclaimed,
        &[Change::Put(Area::Heap, 32793, b"n")],
        Some(OpenFault::Damaged(Area::Heap, 7)),
    ),
    Case(
        "a run over a roll",
        Left::Reclaimed,
        &[Change::Put(Area::Heap, 32801, b"\x08")],
        Some(OpenFault::Damaged(Area::Heap, 7)),
    ),
    Case(
        "a short run",
        Left::Reclaimed,
        &[Change::Cut(Area::Archive, 73)],
        Some(OpenFault::Damaged(Area::Archive, 0)),
    ),
    Case(
        "a short roll",
        Left::Reclaimed,
        &[Change::Cut(Area::Archive, 121)],
        Some(OpenFault::Damaged(Area::Archive, 74)),
    ),
    Case(
        "the index of a run, which is not read",
        Left::Reclaimed,
        &[Change::Put(Area::Archive, 58, b"\x01")],
        None,
    ),
    Case(
        "a time in a roll, which is not read",
        Left::Reclaimed,
        &[Change::Put(Area::Archive, 82, b"\0")],
        None,
    ),
    Case(
        "a reclaim mark of no history",
        Left::Reclaimed,
        &[Change::Put(Area::Heap, 49177, b"n")],
        None,
    ),
];

fn answer(alloc: Global, disk: MemDisk) -> Option<OpenFault> {
    match LogStore::open(alloc, disk, 1) {
        Ok(store) => {
            let _disk = store.close();
            None
        }
        Err((fault, _)) => Some(fault),
    }
}

#[test]
fn opening_tells_the_first_check_that_fails(rt: HostRuntime) -> Result<(), Fail> {
    for Case(what, left, changes, want) in CASES {
        let found = answer(rt.alloc(), disk_of(rt.alloc(), *left, changes)?);
        assert!(rt; found == *want, "{what}");
    }
    Ok(())
}
