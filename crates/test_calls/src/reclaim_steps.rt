//! Reclaims of a store, call by call.
use crate::held::Which;
use crate::published::SEVEN;
use crate::store_cases::{
    ARCHIVED, AtRest, Case, ONE_FLOOR, Part, RECLAIMED, SLOT, TWO_COMMITS, TWO_MORE, go, new_disk,
    opened, takes,
};
use crate::store_steps::Step;
use disk::{Area, MemDisk};
use std::alloc::Global;
use std::process::Abort;
use std::test::Fail;
use store::{Did, JobDid, QueryFault, StartFault, Store};

/// The first bytes of slot 5 once it names a reclaim up to 120 that left no anchors.
const NO_ANCHORS: [u8; 28] = [
    0xc7, 3, 0, 0, 5, 0, 0, 0, 0x78, 0, 0, 0, 0, 0, 0, 0, 0, 0, 0, 0, 0, 0, 0, 0, 0, 0, 0, 0,
];

/// The first bytes of slot 3 once it names a reclaim up to 105, whose one anchor is in extent 3.
const ONE_ANCHOR: [u8; 28] = [
    0xc7, 3, 0, 0, 3, 0, 0, 0, 0x69, 0, 0, 0, 0, 0, 0, 0, 3, 0, 0, 0, 1, 0, 0, 0, 1, 0, 0, 0,
];

/// Extent 3, the last of its chain, with 22 bytes of records: a, which stands from 100 on.
const ANCHOR_FRONT: [u8; 38] = [
    3, 0, 0, 0, 0, 0, 0, 0, 0x16, 0, 0, 0, 0, 0, 0, 0, 4, 1, 0, 7, 0, 0, 0, 0, 0, 0, 0, 0x64, 0, 0,
    0, 0, 0, 0, 0, 1, 1, 0x61,
];

/// Extent 1, the last of its chain, with 14 bytes of records: the value d.
const NEXT_FRONT: [u8; 30] = [
    1, 0, 0, 0, 0, 0, 0, 0, 0x0e, 0, 0, 0, 0, 0, 0, 0, 1, 1, 0, 7, 0, 0, 0, 0, 0, 0, 0, 1, 1, 0x64,
];

/// Extents 1, 2 and 3 are free then: the next commit takes extent 1.
const FREES: &[Step] = &[
    Step::Reclaim(Ok(())),
    Step::Reclaim(Err(StartFault::JobBusy)),
    Step::Jobs(&[JobDid::HeapSynced]),
    Step::Jobs(SLOT),
    Step::Reclaim(Err(StartFault::NothingToDo)),
    Step::Queue(Some("d"), 140),
    Step::PumpTo(Did::Idle),
];

/// Nothing ended by 105, and what stands then is an anchor.
const LEAVES_AN_ANCHOR: &[Step] = &[
    Step::Archive(105, Ok(())),
    Step::Jobs(&[JobDid::RunSynced]),
    Step::Jobs(SLOT),
    Step::Reclaim(Ok(())),
    Step::Jobs(&[JobDid::WroteExtent, JobDid::HeapSynced]),
    Step::Jobs(SLOT),
    Step::Queue(Some("d"), 120),
    Step::PumpTo(Did::Idle),
];

const BEGUN_BELOW: &[Step] = &[
    Step::Reclaim(Err(StartFault::NothingToDo)),
    Step::Begin,
    Step::Queue(None, 120),
    Step::PumpTo(Did::Idle),
];

const BARRED: &[Step] = &[
    Step::Reclaim(Err(StartFault::InUse(110))),
    Step::Abort,
    Step::Reclaim(Ok(())),
];

const NOT_YET: QueryFault = QueryFault::NotYet(130);

/// Views from before and after answer from the archive below the mark, 120. Memory alone has what stood
/// from the mark on; the view from before has all.
const BOTH_ANSWER: &[Step] = &[
    Step::At(Which::First, SEVEN, 99, Ok(None)),
    Step::At(Which::First, SEVEN, 100, Ok(Some("a"))),
    Step::At(Which::First, SEVEN, 119, Ok(Some("b"))),
    Step::At(Which::First, SEVEN, 120, Ok(None)),
    Step::At(Which::First, SEVEN, 130, Ok(Some("c"))),
    Step::At(Which::First, SEVEN, 131, Err(NOT_YET)),
    Step::View(Which::Second),
    Step::At(Which::Second, SEVEN, 99, Ok(None)),
    Step::At(Which::Second, SEVEN, 100, Ok(Some("a"))),
    Step::At(Which::Second, SEVEN, 119, Ok(Some("b"))),
    Step::At(Which::Second, SEVEN, 120, Ok(None)),
    Step::At(Which::Second, SEVEN, 130, Ok(Some("c"))),
    Step::At(Which::Second, SEVEN, 131, Err(NOT_YET)),
    Step::Recent(Which::Second, 119, Err(QueryFault::NeedsDisk)),
    Step::Recent(Which::Second, 120, Ok(None)),
    Step::Recent(Which::First, 119, Ok(Some("b"))),
    Step::End(Which::First),
    Step::End(Which::Second),
];

/// d ends c, which a second run then has as well as memory.
const SHOWS_EACH_ONCE: &[Step] = &[
    Step::Queue(Some("d"), 140),
    Step::PumpTo(Did::Idle),
    Step::Archive(140, Ok(())),
    Step::Jobs(&[JobDid::WroteRun, JobDid::RunSynced]),
    Step::Jobs(SLOT),
    Step::View(Which::First),
    Step::Between(
        Which::First,
        105,
        141,
        Ok(&[
            (105, 110, "a"),
            (110, 120, "b"),
            (130, 140, "c"),
            (140, 141, "d"),
        ]),
    ),
    Step::End(Which::First),
];

/// A key that is a from 100 on and b from 110 on, and another that is x from 105 on.
const TWO_KEYS: &[Step] = &[
    Step::Queue(Some("a"), 100),
    Step::PumpTo(Did::Idle),
    Step::QueueRecord(8, "x", 105),
    Step::PumpTo(Did::Idle),
    Step::Queue(Some("b"), 110),
    Step::PumpTo(Did::Idle),
];

/// Nothing ended by 105, and the two values of then are anchors in extent 4. Memory alone has what stood
/// from 105 on.
const LEAVES_TWO_ANCHORS: &[Step] = &[
    Step::Archive(105, Ok(())),
    Step::Jobs(&[JobDid::RunSynced]),
    Step::Jobs(SLOT),
    Step::Reclaim(Ok(())),
    Step::Jobs(&[JobDid::WroteExtent, JobDid::HeapSynced]),
    Step::Jobs(SLOT),
    Step::View(Which::First),
    Step::Between(
        Which::First,
        100,
        111,
        Ok(&[(100, 110, "a"), (110, 111, "b")]),
    ),
    Step::Recent(Which::First, 104, Err(QueryFault::NeedsDisk)),
    Step::Recent(Which::First, 105, Ok(Some("a"))),
    Step::End(Which::First),
];

/// Extents 1 and 2 are free then and 3 stays: the next three commits take 1, 2 and 5.
const TAKES_THREE: &[Step] = &[
    Step::Queue(Some("d"), 120),
    Step::PumpTo(Did::Idle),
    Step::Queue(Some("e"), 130),
    Step::PumpTo(Did::Idle),
    Step::Queue(Some("f"), 140),
    Step::PumpTo(Did::Idle),
];

/// The first bytes of slot 4 once it names a reclaim up to 105, whose two anchors are in extent 4.
const TWO_ANCHORS: [u8; 28] = [
    0xc7, 3, 0, 0, 4, 0, 0, 0, 0x69, 0, 0, 0, 0, 0, 0, 0, 4, 0, 0, 0, 1, 0, 0, 0, 2, 0, 0, 0,
];

/// Extent 4, the last of its chain, with 44 bytes of records: a, which stands from 100 on, and x, which
/// does from 105 on.
const TWO_ANCHORS_FRONT: [u8; 60] = [
    4, 0, 0, 0, 0, 0, 0, 0, 0x2c, 0, 0, 0, 0, 0, 0, 0, //
    4, 1, 0, 7, 0, 0, 0, 0, 0, 0, 0, 0x64, 0, 0, 0, 0, 0, 0, 0, 1, 1, 0x61, //
    4, 1, 0, 8, 0, 0, 0, 0, 0, 0, 0, 0x69, 0, 0, 0, 0, 0, 0, 0, 1, 1, 0x78,
];

/// Extent 3, as the commit of b left it, and those of the next three commits.
const THIRD_FRONT: [u8; 30] = [
    3, 0, 0, 0, 0, 0, 0, 0, 0x0e, 0, 0, 0, 0, 0, 0, 0, 1, 1, 0, 7, 0, 0, 0, 0, 0, 0, 0, 1, 1, 0x62,
];

const SECOND_FRONT: [u8; 30] = [
    2, 0, 0, 0, 0, 0, 0, 0, 0x0e, 0, 0, 0, 0, 0, 0, 0, 1, 1, 0, 7, 0, 0, 0, 0, 0, 0, 0, 1, 1, 0x65,
];

const FIFTH_FRONT: [u8; 30] = [
    5, 0, 0, 0, 0, 0, 0, 0, 0x0e, 0, 0, 0, 0, 0, 0, 0, 1, 1, 0, 7, 0, 0, 0, 0, 0, 0, 0, 1, 1, 0x66,
];

/// All rows of the four commits, and those from 105 up to 121, once the archive alone has some.
const SCANS_BOTH_HOMES: &[Step] = &[
    Step::View(Which::First),
    Step::ScanAt(Which::First, 105, &[(7, "a")]),
    Step::ScanBetween(
        Which::First,
        100,
        131,
        &[
            (7, (100, 110, "a")),
            (7, (110, 120, "b")),
            (7, (130, 131, "c")),
        ],
    ),
    Step::ScanBetween(
        Which::First,
        105,
        121,
        &[(7, (105, 110, "a")), (7, (110, 120, "b"))],
    ),
    Step::End(Which::First),
];

/// Record 3 is x from 115 on, between two commits of record 7.
const X_BETWEEN: &[Step] = &[Step::QueueRecord(3, "x", 115), Step::PumpTo(Did::Idle)];

const SCANS_TWO_RECORDS: &[Step] = &[
    Step::View(Which::First),
    Step::ScanAt(Which::First, 115, &[(3, "x"), (7, "b")]),
    Step::ScanAt(Which::First, 125, &[(3, "x")]),
    Step::NoneAt(Which::First, 2, 115),
    Step::ScanBetween(
        Which::First,
        112,
        131,
        &[
            (3, (115, 131, "x")),
            (7, (112, 120, "b")),
            (7, (130, 131, "c")),
        ],
    ),
    Step::Between(Which::First, 140, 140, Err(NOT_YET)),
    Step::End(Which::First),
];

const CASES: &[Case] = &[
    Case(
        "a scan shows each record's rows by their times",
        16,
        ONE_FLOOR,
        &[Part(&[TWO_COMMITS, X_BETWEEN, TWO_MORE, SCANS_TWO_RECORDS], &[])],
    ),
    Case(
        "a scan shows the rows of both homes",
        16,
        ONE_FLOOR,
        &[
            Part(
                &[TWO_COMMITS, TWO_MORE, ARCHIVED, RECLAIMED, SCANS_BOTH_HOMES],
                &[],
            ),
            Part(&[SCANS_BOTH_HOMES], &[]),
        ],
    ),
    Case(
        "two values that stand at the mark are anchors",
        16,
        ONE_FLOOR,
        &[
            Part(
                &[TWO_KEYS, LEAVES_TWO_ANCHORS],
                &[
                    AtRest::Bytes(Area::Status, 2560, &TWO_ANCHORS),
                    AtRest::Bytes(Area::Heap, 24_576, &TWO_ANCHORS_FRONT),
                    AtRest::Len(Area::Heap, 32_768),
                ],
            ),
            Part(
                &[TAKES_THREE],
                &[
                    AtRest::Bytes(Area::Heap, 0, &NEXT_FRONT),
                    AtRest::Bytes(Area::Heap, 8192, &SECOND_FRONT),
                    AtRest::Bytes(Area::Heap, 16_384, &THIRD_FRONT),
                    AtRest::Bytes(Area::Heap, 24_576, &TWO_ANCHORS_FRONT),
                    AtRest::Bytes(Area::Heap, 32_768, &FIFTH_FRONT),
                    AtRest::Len(Area::Heap, 40_960),
                ],
            ),
        ],
    ),
    Case(
        "a reclaim frees what ended",
        16,
        ONE_FLOOR,
        &[Part(
            &[TWO_COMMITS, TWO_MORE, ARCHIVED, FREES],
            &[
                AtRest::Bytes(Area::Status, 3072, &NO_ANCHORS),
                AtRest::Bytes(Area::Heap, 0, &NEXT_FRONT),
            ],
        )],
    ),
    Case(
        "what stands at the mark is an anchor",
        16,
        ONE_FLOOR,
        &[Part(
            &[TWO_COMMITS, LEAVES_AN_ANCHOR],
            &[
                AtRest::Bytes(Area::Status, 2048, &ONE_ANCHOR),
                AtRest::Bytes(Area::Heap, 16_384, &ANCHOR_FRONT),
                AtRest::Bytes(Area::Heap, 0, &NEXT_FRONT),
            ],
        )],
    ),
    Case(
        "a transaction below the mark bars a reclaim",
        16,
        ONE_FLOOR,
        &[Part(&[TWO_COMMITS, BEGUN_BELOW, ARCHIVED, BARRED], &[])],
    ),
    Case(
        "views answer from the archive below the reclaim mark",
        16,
        ONE_FLOOR,
        &[Part(
            &[
                TWO_COMMITS,
                TWO_MORE,
                &[Step::View(Which::First)],
                ARCHIVED,
                RECLAIMED,
                BOTH_ANSWER,
            ],
            &[],
        )],
    ),
    Case(
        "a version in both homes is shown once",
        16,
        ONE_FLOOR,
        &[Part(
            &[TWO_COMMITS, TWO_MORE, ARCHIVED, RECLAIMED, SHOWS_EACH_ONCE],
            &[],
        )],
    ),
];

#[test]
fn reclaims_go_step_by_step(rt: HostRuntime) -> Result<(), Fail> {
    for case in CASES {
        go(&rt, rt.alloc(), case)?;
    }
    Ok(())
}

/// A store of four commits.
fn four_commits(rt: &impl Abort, alloc: Global, disk: MemDisk) -> Store<MemDisk> {
    let mut store = opened(rt, alloc, disk);
    takes(
        rt,
        alloc,
        &mut store,
        "four commits",
        &[TWO_COMMITS, TWO_MORE],
    );
    store
}

const OWN: &[Step] = &[
    Step::View(Which::First),
    Step::At(Which::First, SEVEN, 130, Ok(Some("c"))),
];

/// A view of one store that another store is asked with.
fn asks_a_stranger(rt: &impl Abort, other: &mut Store<MemDisk>, store: &mut Store<MemDisk>) {
    let view = match other.view() {
        Ok(view) => view,
        Err(fault) => panic!(rt; "{fault:?}"),
    };
    assert!(rt; matches!(store.at(&view, SEVEN, 130), Err(QueryFault::Stranger)));
    other.end(view);
}

#[test]
fn a_view_of_other_runs_is_a_strangers(rt: HostRuntime) -> Result<(), Fail> {
    let alloc = rt.alloc();
    let first = new_disk(alloc, 16, ONE_FLOOR)?;
    let second = new_disk(alloc, 16, ONE_FLOOR)?;
    let mut store = four_commits(&rt, alloc, first);
    let mut other = four_commits(&rt, alloc, second);
    takes(&rt, alloc, &mut other, "another store", &[ARCHIVED, OWN]);
    asks_a_stranger(&rt, &mut other, &mut store);
    let _disks = (other.close(), store.close());
    Ok(())
}
