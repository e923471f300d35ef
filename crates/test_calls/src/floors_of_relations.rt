//! Floors of single relations, call by call.
use crate::held::Which;
use crate::published::SEVEN;
use crate::store_cases::{
    ARCHIVED, AtRest, Case, ONE_FLOOR, OWN_FLOORS, Part, SLOT, TWO_COMMITS, TWO_MORE, go,
};
use crate::store_steps::Step;
use disk::Area;
use history::Key;
use std::test::Fail;
use store::{Did, QueryFault, StartFault};

/// The same record of relation 2, which is never written.
const OTHER: Key = Key {
    relation: 2,
    record: 7,
};

/// The first bytes of slot 4 once it names the floor 115 of relation 1.
const FLOOR_SLOT: [u8; 18] = [0xc7, 4, 0, 0, 4, 0, 0, 0, 0x73, 0, 0, 0, 0, 0, 0, 0, 1, 0];

const BEFORE_115: QueryFault = QueryFault::BeforeKept(115);

const BEFORE_120: QueryFault = QueryFault::BeforeKept(120);

/// The floor 115 of relation 1.
const FIRST_115: &[Step] = &[
    Step::Floor(Some(1), 115, Ok(())),
    Step::Jobs(SLOT),
    Step::FloorIs(Some(1), 115),
];

const FIRST_120: &[Step] = &[
    Step::Floor(Some(1), 120, Ok(())),
    Step::Jobs(SLOT),
    Step::FloorIs(Some(1), 120),
];

/// The floor 120 of relation 2.
const SECOND_120: &[Step] = &[
    Step::Floor(Some(2), 120, Ok(())),
    Step::Jobs(SLOT),
    Step::FloorIs(Some(2), 120),
];

/// The view from before has the floors of its moment.
const BARS_EACH_ALONE: &[Step] = &[
    Step::View(Which::Second),
    Step::At(Which::Second, SEVEN, 114, Err(BEFORE_115)),
    Step::At(Which::Second, SEVEN, 115, Ok(Some("b"))),
    Step::At(Which::Second, OTHER, 119, Err(BEFORE_120)),
    Step::At(Which::Second, OTHER, 120, Ok(None)),
    Step::NoneAt(Which::Second, 3, 0),
    Step::At(Which::First, SEVEN, 105, Ok(Some("a"))),
    Step::End(Which::First),
    Step::End(Which::Second),
];

const REFUSED_IN_ORDER: &[Step] = &[
    Step::Floor(Some(1), 0, Err(StartFault::NothingToDo)),
    Step::Floor(Some(1), 131, Err(StartFault::NotYet(130))),
    Step::Floor(None, 120, Err(StartFault::WrongProfile)),
    Step::Floor(Some(1), 120, Ok(())),
    Step::Floor(Some(2), 120, Err(StartFault::JobBusy)),
    Step::Floor(None, 120, Err(StartFault::WrongProfile)),
    Step::FloorIs(Some(1), 0),
    Step::Jobs(SLOT),
    Step::Floor(Some(1), 120, Err(StartFault::NothingToDo)),
    Step::Floor(Some(2), 119, Ok(())),
    Step::Jobs(SLOT),
    Step::FloorIs(Some(2), 119),
    Step::FloorIs(Some(1), 120),
    Step::FloorIs(None, 0),
];

const OF_ALL_IS_NONE_OF_ONE: &[Step] = &[
    Step::Floor(Some(1), 120, Err(StartFault::WrongProfile)),
    Step::Floor(None, 120, Ok(())),
    Step::Floor(Some(1), 120, Err(StartFault::WrongProfile)),
];

const BARRED_BY_A_READER: &[Step] = &[
    Step::Begin,
    Step::Queue(Some("d"), 140),
    Step::PumpTo(Did::Idle),
    Step::Floor(Some(2), 131, Err(StartFault::InUse(130))),
    Step::Floor(Some(2), 130, Ok(())),
    Step::Jobs(SLOT),
    Step::FloorIs(Some(2), 130),
    Step::Abort,
    Step::Floor(Some(2), 140, Ok(())),
    Step::Jobs(SLOT),
    Step::FloorIs(Some(2), 140),
];

/// What stood of relation 1 from 115 on is told, and nothing of before.
const KEEPS_FROM_115: &[Step] = &[
    Step::View(Which::First),
    Step::Between(
        Which::First,
        115,
        131,
        Ok(&[(115, 120, "b"), (130, 131, "c")]),
    ),
    Step::At(Which::First, SEVEN, 114, Err(BEFORE_115)),
    Step::At(Which::First, OTHER, 119, Err(BEFORE_120)),
    Step::End(Which::First),
];

const HAS_A: &[Step] = &[
    Step::View(Which::First),
    Step::At(Which::First, SEVEN, 105, Ok(Some("a"))),
    Step::End(Which::First),
];

const CASES: &[Case] = &[
    Case(
        "a floor bars its relation alone",
        16,
        OWN_FLOORS,
        &[Part(
            &[
                TWO_COMMITS,
                TWO_MORE,
                &[Step::View(Which::First)],
                FIRST_115,
                SECOND_120,
                BARS_EACH_ALONE,
            ],
            &[AtRest::Bytes(Area::Status, 2560, &FLOOR_SLOT)],
        )],
    ),
    Case(
        "floors of relations are refused in order",
        16,
        OWN_FLOORS,
        &[Part(&[TWO_COMMITS, TWO_MORE, REFUSED_IN_ORDER], &[])],
    ),
    Case(
        "one floor of all relations is none of one",
        16,
        ONE_FLOOR,
        &[Part(&[TWO_COMMITS, TWO_MORE, OF_ALL_IS_NONE_OF_ONE], &[])],
    ),
    Case(
        "a transaction below the floor bars that of its relation",
        16,
        OWN_FLOORS,
        &[Part(&[TWO_COMMITS, TWO_MORE, BARRED_BY_A_READER], &[])],
    ),
    Case(
        "an archive leaves out what ended by its relation's floor: its one record is b, also when the store is opened again",
        16,
        OWN_FLOORS,
        &[
            Part(
                &[
                    TWO_COMMITS,
                    TWO_MORE,
                    SECOND_120,
                    FIRST_115,
                    ARCHIVED,
                    KEEPS_FROM_115,
                ],
                &[AtRest::Len(Area::Archive, 37)],
            ),
            Part(&[&[Step::OwnFloors(2)], KEEPS_FROM_115, FIRST_120], &[]),
        ],
    ),
    Case(
        "an archive has what a floor of another relation is past",
        16,
        OWN_FLOORS,
        &[Part(
            &[TWO_COMMITS, TWO_MORE, SECOND_120, ARCHIVED, HAS_A],
            &[AtRest::Len(Area::Archive, 74)],
        )],
    ),
];

#[test]
fn floors_of_relations_are_raised_step_by_step(rt: HostRuntime) -> Result<(), Fail> {
    for case in CASES {
        go(&rt, rt.alloc(), case)?;
    }
    Ok(())
}
