//! Growths of a store, call by call.
use crate::held::Which;
use crate::published::SEVEN;
use crate::store_cases::{
    ARCHIVED, AtRest, Case, ONE_FLOOR, OWN_FLOORS, Part, SLOT, TWO_COMMITS, are_at_rest, go,
    new_disk, opened, takes,
};
use crate::store_steps::Step;
use disk::{Area, Disk, Fault, FaultDisk, MemDisk};
use std::alloc::Global;
use std::process::Abort;
use std::test::Fail;
use store::{Did, JobDid, StartFault, Store};

/// The zeros of 13 parts of a piece.
const THIRTEEN: &[JobDid] = &[JobDid::WroteZeros; 13];

/// All device calls of a growth: the zeros of 16 parts, and the gate.
const GROWS: &[Step] = &[
    Step::Grow(Ok(())),
    Step::Jobs(&[JobDid::WroteZeros; 3]),
    Step::Jobs(THIRTEEN),
    Step::Jobs(&[
        JobDid::ZerosSynced,
        JobDid::GateWritten,
        JobDid::JobDone,
        JobDid::Idle,
    ]),
];

/// What a store of 16 slots has at rest that grew once, and twice.
const GREW: &[AtRest] = &[
    AtRest::Len(Area::Status, 139_776),
    AtRest::Bytes(Area::Status, 16, &[0xc7, 0]),
];

const GREW_TWICE: &[AtRest] = &[
    AtRest::Len(Area::Status, 270_848),
    AtRest::Bytes(Area::Status, 16, &[0xc7, 0xc7]),
];

/// A store of 16 slots takes 14 groups of commits.
const FILLS: &[Step] = &[
    Step::Commits(1, 14),
    Step::QueueOther(14, true),
    Step::QueueOther(15, false),
];

/// It takes 256 more once it grew: two commits took one slot, and two slots stay for an archive and a
/// reclaim.
const FILLS_AGAIN: &[Step] = &[
    Step::QueueOther(15, true),
    Step::PumpTo(Did::Idle),
    Step::Fill(16, 272 - 2 - 14),
];

const RECLAIMED: &[Step] = &[
    Step::Reclaim(Ok(())),
    Step::Jobs(&[JobDid::WroteExtent, JobDid::HeapSynced]),
    Step::Jobs(SLOT),
];

const NO_SLOT_LEFT: &[Step] = &[Step::Floor(None, 20, Err(StartFault::StatusFull))];

const A_SLOT_AGAIN: &[Step] = &[Step::Floor(None, 20, Ok(())), Step::Jobs(SLOT)];

const BESIDE_A_GROUP: &[Step] = &[
    Step::Queue(Some("c"), 120),
    Step::Grow(Ok(())),
    Step::Grow(Err(StartFault::JobBusy)),
    Step::Archive(110, Err(StartFault::JobBusy)),
    Step::Pump(Ok(Did::WroteExtent)),
    Step::Jobs(&[JobDid::WroteZeros]),
    Step::Pump(Ok(Did::HeapSynced)),
    Step::Jobs(&[JobDid::WroteZeros]),
    Step::Pump(Ok(Did::BodyWritten)),
    Step::Jobs(&[JobDid::WroteZeros]),
    Step::Jobs(THIRTEEN),
    Step::Jobs(&[JobDid::ZerosSynced]),
    Step::Pump(Ok(Did::BodySynced)),
    Step::Jobs(&[JobDid::GateWritten]),
    Step::Pump(Ok(Did::GateWritten)),
    Step::Jobs(&[JobDid::JobDone, JobDid::Idle]),
    Step::Pump(Ok(Did::Published(1))),
    Step::Last(120),
];

const NOT_GROWABLE: &[Step] = &[Step::Grow(Err(StartFault::NotGrowable))];

const CASES: &[Case] = &[
    Case(
        "a full store grows, and again when it has no slot left",
        16,
        ONE_FLOOR,
        &[
            Part(&[FILLS, GROWS, FILLS_AGAIN, ARCHIVED, RECLAIMED], GREW),
            Part(&[NO_SLOT_LEFT, GROWS, A_SLOT_AGAIN], GREW_TWICE),
        ],
    ),
    Case(
        "a growth and a group hold up neither",
        16,
        ONE_FLOOR,
        &[
            Part(&[TWO_COMMITS, BESIDE_A_GROUP], GREW),
            Part(&[&[Step::Last(120)]], &[]),
        ],
    ),
    Case(
        "more than 65,280 slots do not grow",
        65_281,
        OWN_FLOORS,
        &[Part(&[NOT_GROWABLE], &[])],
    ),
    Case(
        "65,280 slots grow once",
        65_280,
        OWN_FLOORS,
        &[Part(&[GROWS, NOT_GROWABLE], &[])],
    ),
    Case(
        "profile 1 does not grow",
        16,
        ONE_FLOOR,
        &[
            Part(&[TWO_COMMITS], &[AtRest::Put(8, 1)]),
            Part(&[&[Step::Last(110)], NOT_GROWABLE], &[]),
        ],
    ),
];

#[test]
fn stores_grow_step_by_step(rt: HostRuntime) -> Result<(), Fail> {
    for case in CASES {
        go(&rt, rt.alloc(), case)?;
    }
    Ok(())
}

/// Whether a store grows for so many device calls, is refused the next one, and has failed then.
fn stops(store: &mut Store<FaultDisk>, calls: u64) -> bool {
    if store.grow_start() != Ok(()) {
        return false;
    }
    for _ in 0..calls {
        if store.job_pump().is_err() {
            return false;
        }
    }
    store.job_pump().is_err() && store.grow_start() == Err(StartFault::Failed)
}

/// The disk of a store of two commits whose machine stops at a device call of its growth: what no
/// sync settled is this byte.
fn stopped(
    rt: &impl Abort,
    alloc: Global,
    calls: u64,
    write_reaches: bool,
    fill: u8,
) -> Result<MemDisk, Fail> {
    let mut store = opened(rt, alloc, new_disk(alloc, 16, ONE_FLOOR)?);
    takes(rt, alloc, &mut store, "two commits", &[TWO_COMMITS]);
    let (store, disk) = store.over(MemDisk::new(alloc));
    let fault = Fault {
        calls_before: calls,
        write_reaches,
        stops: true,
    };
    let (mut store, _none) = store.over(FaultDisk::new(disk, fault));
    assert!(rt; stops(&mut store, calls), "{calls} calls");
    Ok(store.close().left(alloc, fill, b"")?)
}

const HAS_BOTH: &[Step] = &[
    Step::Last(110),
    Step::View(Which::First),
    Step::At(Which::First, SEVEN, 100, Ok(Some("a"))),
    Step::At(Which::First, SEVEN, 110, Ok(Some("b"))),
    Step::End(Which::First),
];

/// Whether the write that is refused reaches the disk, and the byte that torn places have.
const STOPS: &[(bool, u8)] = &[(false, 0), (true, 0), (true, 0x37), (true, 0xc7)];

/// The piece counts where its gate was left open.
fn grows_again(
    rt: &impl Abort,
    alloc: Global,
    calls: u64,
    (write_reaches, fill): (bool, u8),
) -> Result<(), Fail> {
    let disk = stopped(rt, alloc, calls, write_reaches, fill)?;
    let mut store = opened(rt, alloc, disk);
    takes(rt, alloc, &mut store, "a stop", &[HAS_BOTH, GROWS]);
    let grew = fill == 0xc7 && 17 <= calls;
    let looks = if grew { GREW_TWICE } else { GREW };
    are_at_rest(rt, &mut store.close(), "a stop", looks);
    Ok(())
}

/// A stop at each device call of a growth leaves the log as it was, and lets the store grow again.
#[test]
fn a_growth_that_stops_leaves_the_log(rt: HostRuntime) -> Result<(), Fail> {
    for calls in 0..19 {
        for stop in STOPS {
            grows_again(&rt, rt.alloc(), calls, *stop)?;
        }
    }
    Ok(())
}
