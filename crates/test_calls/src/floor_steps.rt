//! Floors of a store, call by call.
use crate::held::Which;
use crate::published::SEVEN;
use crate::store_cases::{
    ARCHIVED, AtRest, Case, ONE_FLOOR, Part, RECLAIMED, SLOT, TWO_COMMITS, TWO_MORE, go, new_disk,
    opened, takes,
};
use crate::store_steps::Step;
use disk::{Area, Fault, FaultDisk, MemDisk};
use std::test::Fail;
use store::{Did, JobDid, PumpFault, QueryFault, StartFault};

/// The first bytes of slot 6 once it names the floor 120.
const FLOOR_SLOT: [u8; 17] = [0xc7, 4, 0, 0, 6, 0, 0, 0, 0x78, 0, 0, 0, 0, 0, 0, 0, 0];

const BEFORE_120: QueryFault = QueryFault::BeforeKept(120);

/// The view from before has the floor of its moment.
const BARS_BEFORE_120: &[Step] = &[
    Step::Floor(None, 120, Ok(())),
    Step::Jobs(SLOT),
    Step::FloorIs(None, 120),
    Step::View(Which::Second),
    Step::At(Which::Second, SEVEN, 0, Err(BEFORE_120)),
    Step::At(Which::Second, SEVEN, 105, Err(BEFORE_120)),
    Step::At(Which::Second, SEVEN, 119, Err(BEFORE_120)),
    Step::At(Which::Second, SEVEN, 120, Ok(None)),
    Step::At(Which::Second, SEVEN, 130, Ok(Some("c"))),
    Step::At(Which::First, SEVEN, 105, Ok(Some("a"))),
    Step::End(Which::First),
    Step::End(Which::Second),
];

const STAYS_UNTIL_OPEN: &[Step] = &[
    Step::Floor(None, 0, Err(StartFault::NothingToDo)),
    Step::Floor(None, 131, Err(StartFault::NotYet(130))),
    Step::Floor(None, u64::MAX, Err(StartFault::NotYet(130))),
    Step::Floor(None, 120, Ok(())),
    Step::Floor(None, 0, Err(StartFault::JobBusy)),
    Step::Floor(None, 131, Err(StartFault::JobBusy)),
    Step::Jobs(&[JobDid::BodyWritten]),
    Step::FloorIs(None, 0),
    Step::Floor(None, 0, Err(StartFault::JobBusy)),
    Step::Floor(None, 131, Err(StartFault::JobBusy)),
    Step::Jobs(&[JobDid::BodySynced]),
    Step::FloorIs(None, 0),
    Step::Floor(None, 0, Err(StartFault::JobBusy)),
    Step::Floor(None, 131, Err(StartFault::JobBusy)),
    Step::Jobs(&[JobDid::GateWritten]),
    Step::FloorIs(None, 0),
    Step::Jobs(&[JobDid::JobDone, JobDid::Idle]),
    Step::FloorIs(None, 120),
    Step::Floor(None, 119, Err(StartFault::NothingToDo)),
    Step::Floor(None, 120, Err(StartFault::NothingToDo)),
    Step::Floor(None, 131, Err(StartFault::NotYet(130))),
];

const BARRED_BY_A_READER: &[Step] = &[
    Step::Floor(None, 111, Err(StartFault::InUse(110))),
    Step::Floor(None, 120, Err(StartFault::InUse(110))),
    Step::Floor(None, 131, Err(StartFault::NotYet(130))),
    Step::Floor(None, 110, Ok(())),
    Step::Jobs(SLOT),
    Step::FloorIs(None, 110),
    Step::Abort,
    Step::Floor(None, 120, Ok(())),
    Step::Jobs(SLOT),
    Step::FloorIs(None, 120),
];

const TAKES_TURNS: &[Step] = &[
    Step::Queue(Some("c"), 130),
    Step::PumpTo(Did::BodyWritten),
    Step::Floor(None, 110, Ok(())),
    Step::JobFault(PumpFault::Busy),
    Step::PumpTo(Did::Published(1)),
    Step::Jobs(&[JobDid::BodyWritten]),
    Step::Queue(Some("d"), 140),
    Step::PumpTo(Did::HeapSynced),
    Step::Pump(Err(PumpFault::Busy)),
    Step::Jobs(&[
        JobDid::BodySynced,
        JobDid::GateWritten,
        JobDid::JobDone,
        JobDid::Idle,
    ]),
    Step::PumpTo(Did::Published(1)),
    Step::FloorIs(None, 110),
    Step::Last(140),
];

/// Commits leave two slots of 16, which floors take.
const TAKES_A_SLOT: &[Step] = &[
    Step::Commits(1, 15),
    Step::Floor(None, 1, Ok(())),
    Step::Jobs(SLOT),
    Step::FloorIs(None, 1),
    Step::Floor(None, 2, Ok(())),
    Step::Jobs(SLOT),
    Step::FloorIs(None, 2),
    Step::Floor(None, 2, Err(StartFault::NothingToDo)),
    Step::Floor(None, 3, Err(StartFault::StatusFull)),
    Step::Floor(None, 15, Err(StartFault::NotYet(14))),
];

const FLOOR_115: &[Step] = &[
    Step::Floor(None, 115, Ok(())),
    Step::Jobs(SLOT),
    Step::FloorIs(None, 115),
];

/// What stood from 115 on is told, and nothing of before.
const KEEPS_FROM_115: &[Step] = &[
    Step::FloorIs(None, 115),
    Step::View(Which::First),
    Step::Between(
        Which::First,
        115,
        131,
        Ok(&[(115, 120, "b"), (130, 131, "c")]),
    ),
    Step::Between(Which::First, 114, 131, Err(QueryFault::BeforeKept(115))),
    Step::End(Which::First),
];

const FLOOR_120: &[Step] = &[
    Step::Floor(None, 120, Ok(())),
    Step::Jobs(SLOT),
    Step::FloorIs(None, 120),
];

const CASES: &[Case] = &[
    Case(
        "a floor bars what stood before it",
        16,
        ONE_FLOOR,
        &[Part(
            &[
                TWO_COMMITS,
                TWO_MORE,
                &[Step::View(Which::First)],
                ARCHIVED,
                RECLAIMED,
                BARS_BEFORE_120,
            ],
            &[AtRest::Bytes(Area::Status, 3584, &FLOOR_SLOT)],
        )],
    ),
    Case(
        "the floor stays until its slot is open",
        16,
        ONE_FLOOR,
        &[Part(&[TWO_COMMITS, TWO_MORE, STAYS_UNTIL_OPEN], &[])],
    ),
    Case(
        "a transaction below the floor bars it",
        16,
        ONE_FLOOR,
        &[Part(
            &[TWO_COMMITS, &[Step::Begin], TWO_MORE, BARRED_BY_A_READER],
            &[],
        )],
    ),
    Case(
        "a floor and a group take turns",
        16,
        ONE_FLOOR,
        &[Part(&[TWO_COMMITS, TAKES_TURNS], &[])],
    ),
    Case(
        "a floor takes a slot",
        16,
        ONE_FLOOR,
        &[Part(&[TAKES_A_SLOT], &[])],
    ),
    Case(
        "an archive leaves out what ended by the floor: its one record is b, also when the store is opened again",
        16,
        ONE_FLOOR,
        &[
            Part(
                &[TWO_COMMITS, TWO_MORE, FLOOR_115, ARCHIVED, KEEPS_FROM_115],
                &[AtRest::Len(Area::Archive, 37)],
            ),
            Part(&[KEEPS_FROM_115, FLOOR_120], &[]),
        ],
    ),
];

#[test]
fn floors_are_raised_step_by_step(rt: HostRuntime) -> Result<(), Fail> {
    for case in CASES {
        go(&rt, rt.alloc(), case)?;
    }
    Ok(())
}

const FAILS: &[Step] = &[
    Step::Floor(None, 110, Ok(())),
    Step::JobFault(PumpFault::Failed),
    Step::Floor(None, 110, Err(StartFault::Failed)),
    Step::JobFault(PumpFault::Failed),
    Step::FloorIs(None, 0),
];

const REFUSED: Fault = Fault {
    calls_before: 0,
    write_reaches: false,
    stops: false,
};

#[test]
fn a_failed_store_raises_no_floor(rt: HostRuntime) -> Result<(), Fail> {
    let alloc = rt.alloc();
    let mut store = opened(&rt, alloc, new_disk(alloc, 16, ONE_FLOOR)?);
    takes(&rt, alloc, &mut store, "two commits", &[TWO_COMMITS]);
    let (mut store, _disk) = store.over(FaultDisk::new(MemDisk::new(alloc), REFUSED));
    takes(&rt, alloc, &mut store, "a failed store", &[FAILS]);
    let _disk = store.close();
    Ok(())
}
