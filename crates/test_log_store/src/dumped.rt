//! Dumps of stores whose log lies in the heap, and what is told of them.
use crate::images::{Change, Left, disk_of};
use crate::on_disk::{new_store, pumps, queue};
use disk::{Area, Disk, MemDisk};
use log_dump::read_dump;
use log_facts::read_heap_info;
use log_store::Did;
use recovery::OpenFault;
use std::alloc::Global;
use std::process::Abort;
use std::test::Fail;

/// What is changed in which image, the dump of it, and the check that fails then, or `None` where none does.
struct Case(
    &'static str,
    Left,
    &'static [Change],
    &'static [u8],
    Option<OpenFault>,
);

/// A group of two commits of one key: at 100, and at 101.
const TWICE: &[u8] =
    b"\xc7\0\0\0\x01\0\0\0\0\0\0\0E\0\0\0\x02\0\0\0\0\0\0\0\x05\x01\0\0\0\0\0\0\0d\0\0\0\0\0\0\0\x01\0\
      \x01\x01\0\x07\0\0\0\0\0\0\0\x02\x01a\x01b\x05\x02\0\0\0\0\0\0\0e\0\0\0\0\0\0\0\x01\0\x02\
      \x01\0\x07\0\0\0\0\0\0\0\x02\0\x01c";

/// The second group with a delta where the whole value is shorter.
const LONG_DELTA: &[u8] =
    b"\xc7\0\0\0\x02\0\0\0\0\0\0\0\x22\0\0\0\x03\0\0\0\0\0\0\0\x05\x02\0\0\0\0\0\0\0n\0\0\0\0\0\0\0\x01\0\x02\x01\0\
      \x07\0\0\0\0\0\0\0\x01\0\x01b";

/// The dump of one commit of two records, in a chain of two extents.
const TWO_EXTENTS: &[u8] =
    b"header extents 64 root 1\nchain 1 commits extents 2\nmember 1 100 2 1970-01-01T00:00:00Z\nnext 3\nused 2 of 64\n";

const CASES: &[Case] = &[
    Case(
        "a formatted store",
        Left::OneGroup,
        &[],
        b"header extents 64 root 1\nnext 1\nused 0 of 64\n",
        None,
    ),
    Case(
        "two commits of one key",
        Left::OneGroup,
        &[Change::Put(Area::Heap, 0, TWICE)],
        b"header extents 64 root 1\nchain 1 commits extents 1\nmember 1 100 1 1970-01-01T00:00:00Z\n\
          member 2 101 1 1970-01-01T00:00:00Z\nnext 2\nused 1 of 64\n",
        None,
    ),
    Case(
        "four groups",
        Left::FourGroups,
        &[],
        b"header extents 64 root 1\nchain 1 commits extents 1\nmember 1 100 1 1970-01-01T00:00:00Z\n\
          chain 2 commits extents 1\nmember 2 110 1 1970-01-01T00:00:00Z\n\
          chain 3 commits extents 1\nmember 3 120 1 1970-01-01T00:00:00Z\n\
          chain 4 commits extents 1\nmember 4 130 1 1970-01-01T00:00:00Z\nnext 5\nused 4 of 64\n",
        None,
    ),
    Case(
        "an archive of four groups",
        Left::Archived,
        &[],
        b"header extents 64 root 1\nchain 1 commits extents 1\nmember 1 100 1 1970-01-01T00:00:00Z\n\
          chain 2 commits extents 1\nmember 2 110 1 1970-01-01T00:00:00Z\n\
          chain 3 commits extents 1\nmember 3 120 1 1970-01-01T00:00:00Z\n\
          chain 4 commits extents 1\nmember 4 130 1 1970-01-01T00:00:00Z\n\
          chain 5 archived 120 0 74 2 0\nnext 6\nused 5 of 64\n",
        None,
    ),
    Case(
        "a base with a roll",
        Left::Reclaimed,
        &[],
        b"header extents 64 root 7\nchain 7 base 120 0 0 0\nroll 74 48\n\
          chain 4 commits extents 1\nmember 4 130 1 1970-01-01T00:00:00Z\n\
          chain 5 archived 120 0 74 2 0\nnext 6\nused 3 of 64\n",
        None,
    ),
    Case(
        "a base alone",
        Left::ReclaimedAgain,
        &[],
        b"header extents 64 root 3\nchain 3 base 130 2 1 1\nroll 74 48\nroll 122 16\n\
          archived 120 0 74 2 0\narchived 130 122 0 0 0\nnext 1\nused 2 of 64\n",
        None,
    ),
    Case(
        "a floor",
        Left::Floored,
        &[],
        b"header extents 64 root 3\nchain 3 base 130 2 1 1\nroll 74 48\nroll 122 16\n\
          archived 120 0 74 2 0\narchived 130 122 0 0 0\nchain 1 floor 130 relation 1\nnext 4\nused 3 of 64\n",
        None,
    ),
    Case(
        "a base with a floor",
        Left::FloorsReclaimed,
        &[],
        b"header extents 64 root 5\nchain 5 base 130 2 1 1\nroll 74 48\nroll 122 16\n\
          archived 120 0 74 2 0\narchived 130 122 0 0 0\nfloor 130 relation 1\nnext 4\nused 2 of 64\n",
        None,
    ),
    Case(
        "an archived time past the last commit",
        Left::Reclaimed,
        &[Change::Put(Area::Heap, 32_793, b"\x83")],
        b"header extents 64 root 7\nchain 7 base 120 0 0 0\nroll 74 48\n\
          chain 4 commits extents 1\nmember 4 130 1 1970-01-01T00:00:00Z\n",
        Some(OpenFault::Damaged(Area::Heap, 5)),
    ),
    Case(
        "a run over a roll",
        Left::Reclaimed,
        &[Change::Put(Area::Heap, 32_801, b"\x08")],
        b"header extents 64 root 7\nchain 7 base 120 0 0 0\nroll 74 48\n\
          chain 4 commits extents 1\nmember 4 130 1 1970-01-01T00:00:00Z\nchain 5 archived 120 8 74 2 0\n",
        Some(OpenFault::Damaged(Area::Heap, 7)),
    ),
    Case(
        "more records than there are",
        Left::Reclaimed,
        &[Change::Put(Area::Heap, 24_618, b"\x01")],
        b"header extents 64 root 7\nchain 7 base 120 0 0 0\nroll 74 48\n",
        Some(OpenFault::Damaged(Area::Heap, 4)),
    ),
    Case(
        "a gate of anchors",
        Left::ReclaimedAgain,
        &[Change::Put(Area::Heap, 8_192, b"\xc7")],
        b"header extents 64 root 3\nchain 3 base 130 2 1 1\nroll 74 48\nroll 122 16\n\
          archived 120 0 74 2 0\narchived 130 122 0 0 0\n",
        Some(OpenFault::Damaged(Area::Heap, 2)),
    ),
    Case(
        "a delta that is too long",
        Left::FourGroups,
        &[Change::Put(Area::Heap, 8_192, LONG_DELTA)],
        b"header extents 64 root 1\nchain 1 commits extents 1\nmember 1 100 1 1970-01-01T00:00:00Z\n",
        Some(OpenFault::Damaged(Area::Heap, 2)),
    ),
];

#[test]
fn a_dump_shows_the_chains(rt: HostRuntime) -> Result<(), Fail> {
    for case in CASES {
        let Case(name, left, changes, text, fault) = *case;
        let mut disk = disk_of(rt.alloc(), left, changes)?;
        match read_dump(rt.alloc(), &mut disk) {
            Ok(dump) => {
                assert!(rt; dump.text.as_slice() == text, "{name}");
                assert!(rt; dump.fault == fault, "{name}");
            }
            Err(fault) => panic!(rt; "{name}: {fault:?}"),
        }
    }
    Ok(())
}

#[test]
fn a_dump_wants_a_header(rt: HostRuntime) -> Result<(), Fail> {
    let changes = [Change::Put(Area::Status, 12, b"H")];
    let mut disk = disk_of(rt.alloc(), Left::Reclaimed, &changes)?;
    match read_dump(rt.alloc(), &mut disk) {
        Err(fault) => assert!(rt; fault == OpenFault::NotAStore),
        Ok(_) => panic!(rt; "a heap of 72 extents"),
    }
    Ok(())
}

#[test]
fn a_dump_shows_how_long_a_chain_is(rt: HostRuntime) -> Result<(), Fail> {
    let mut store = new_store(&rt, rt.alloc());
    let full: &[u8] = &[b'x'; 255];
    let ticket = queue(&rt, rt.alloc(), &mut store, &[1, 2], &[full; 16], 1);
    ticket.give_up();
    pumps(
        &rt,
        &mut store,
        &[
            Did::WroteExtent,
            Did::WroteExtent,
            Did::GateClosed,
            Did::HeapSynced,
            Did::GateWritten,
            Did::Published(1),
        ],
    );
    let mut disk = store.close();
    match read_dump(rt.alloc(), &mut disk) {
        Ok(dump) => assert!(rt; dump.text.as_slice() == TWO_EXTENTS),
        Err(fault) => panic!(rt; "{fault:?}"),
    }
    Ok(())
}

// Whether this is told of a store.
fn tells<D: Disk>(rt: &impl Abort, alloc: Global, disk: &mut D, json: bool, text: &[u8]) -> bool {
    match read_heap_info(alloc, disk, json) {
        Ok(told) => told.as_slice() == text,
        Err(fault) => panic!(rt; "{fault:?}"),
    }
}

#[test]
fn facts_are_told_of_a_heap(rt: HostRuntime) -> Result<(), Fail> {
    let mut disk: MemDisk = disk_of(rt.alloc(), Left::Archived, &[])?;
    assert!(rt;
        tells(
            &rt,
            rt.alloc(),
            &mut disk,
            false,
            b"profile 4\nheap 64\nextents 5\nlog 6\nfree 26\ncommits 4\nlast 130\narchived 120\narchive 74\n\
              reclaimed 0\n",
        )
    );
    let mut disk: MemDisk = disk_of(rt.alloc(), Left::Reclaimed, &[])?;
    assert!(rt;
        tells(
            &rt,
            rt.alloc(),
            &mut disk,
            false,
            b"profile 4\nheap 64\nextents 3\nlog 3\nfree 29\ncommits 4\nlast 130\narchived 120\narchive 122\n\
              reclaimed 120\n",
        )
    );
    let mut disk: MemDisk = disk_of(rt.alloc(), Left::Floored, &[])?;
    assert!(rt;
        tells(
            &rt,
            rt.alloc(),
            &mut disk,
            true,
            b"{\"profile\":4,\"heap\":64,\"extents\":3,\"log\":2,\"free\":30,\"commits\":4,\"last\":130,\
              \"archived\":130,\"archive\":138,\"reclaimed\":130,\"floors\":[{\"relation\":1,\"floor\":130}]}\n",
        )
    );
    let changes = [Change::Put(Area::Heap, 8_192, b"\xc7")];
    let mut disk: MemDisk = disk_of(rt.alloc(), Left::ReclaimedAgain, &changes)?;
    match read_heap_info(rt.alloc(), &mut disk, false) {
        Err(fault) => assert!(rt; fault == OpenFault::Damaged(Area::Heap, 2)),
        Ok(_) => panic!(rt; "a gate of anchors"),
    }
    Ok(())
}
