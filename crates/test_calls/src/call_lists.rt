//! Lists of calls over a disk in memory, with their answers.
use crate::list_answers::{Want, is_answer};
use crate::list_calls::{Ask, Rows, answers_to, call_of, calls_of, first_wrong, is_spent, opened};
use any_store::{Did, FormatFault, JobDid, Layout, PumpFault, QueryFault, StartFault, Store};
use disk::{Area, MemDisk};
use run::{Call, Held, RedeemOutcome, close, format, give_back, open, run, run_on, step};
use std::alloc::{AllocError, Global};
use std::test::Fail;

/// Record 7 is put at 100, by calls in places 0 to 8.
const COMMIT: Rows = &[
    (Ask::Begin, Want::Begun),
    (Ask::Put(0), Want::Put),
    (Ask::Submit(0), Want::Queued),
    (Ask::Pump, Want::Pump(Ok(Did::WroteExtent))),
    (Ask::Pump, Want::Pump(Ok(Did::HeapSynced))),
    (Ask::Pump, Want::Pump(Ok(Did::BodyWritten))),
    (Ask::Pump, Want::Pump(Ok(Did::BodySynced))),
    (Ask::Pump, Want::Pump(Ok(Did::GateWritten))),
    (Ask::Pump, Want::Pump(Ok(Did::Published(1)))),
];

const REDEEMED_ONCE: Rows = &[
    (Ask::Begin, Want::Begun),
    (Ask::Put(0), Want::Put),
    (Ask::Get(0), Want::Value),
    (Ask::Scan(0), Want::Records(&[7])),
    (Ask::Submit(0), Want::Queued),
    (Ask::Redeem(4), Want::Redeem(RedeemOutcome::Waiting)),
    (Ask::Pump, Want::Pump(Ok(Did::WroteExtent))),
    (Ask::Pump, Want::Pump(Ok(Did::HeapSynced))),
    (Ask::Pump, Want::Pump(Ok(Did::BodyWritten))),
    (Ask::Pump, Want::Pump(Ok(Did::BodySynced))),
    (Ask::Pump, Want::Pump(Ok(Did::GateWritten))),
    (Ask::Pump, Want::Pump(Ok(Did::Published(1)))),
    (Ask::Redeem(4), Want::Redeem(RedeemOutcome::Done(100))),
    (Ask::Redeem(4), Want::Unknown),
    (Ask::View, Want::Viewed),
    (Ask::At(14, 100), Want::ValueAt),
    (Ask::TimesOf, Want::Times(&[100])),
    (Ask::End(14), Want::Ended),
];

const WITHOUT_THE_VALUE: Rows = &[
    (Ask::Get(1), Want::Unknown),
    (Ask::Begin, Want::Begun),
    (Ask::Redeem(1), Want::Unknown),
    (Ask::Delete(1), Want::Missing),
    (Ask::Abort(1), Want::Aborted),
    (Ask::Abort(1), Want::Unknown),
    (Ask::GiveUp(9), Want::Unknown),
    (Ask::End(4), Want::Unknown),
];

const LEFT_OVER: Rows = &[
    (Ask::Begin, Want::Begun),
    (Ask::Put(0), Want::Put),
    (Ask::Submit(0), Want::Queued),
    (Ask::Begin, Want::Begun),
    (Ask::View, Want::Viewed),
    (Ask::Begin, Want::Begun),
    (Ask::Submit(5), Want::ReadOnly(0)),
];

const GIVEN_UP: Rows = &[
    (Ask::Begin, Want::Begun),
    (Ask::Put(0), Want::Put),
    (Ask::Delete(0), Want::Deleted),
    (Ask::Put(0), Want::Put),
    (Ask::Submit(0), Want::Queued),
    (Ask::GiveUp(4), Want::GivenUp),
    (Ask::Redeem(4), Want::Unknown),
];

/// Behind the commit: a view in place 9.
const INTERVALS: Rows = &[
    (Ask::View, Want::Viewed),
    (Ask::ScanAt(9, 100), Want::RecordsAt(&[7])),
    (Ask::Between(9, 0, 101), Want::Rows(&[(100, 101)])),
    (Ask::ScanBetween(9, 0, 100), Want::NoRows),
    (
        Ask::Between(9, 0, 102),
        Want::RowsRefused(QueryFault::NotYet(100)),
    ),
    (Ask::ScanAt(2, 100), Want::Unknown),
    (Ask::End(9), Want::Ended),
    (Ask::GiveUp(2), Want::GivenUp),
];

/// Behind the commit: an archive from place 9 on, and a commit from place 14 on.
const ARCHIVES: Rows = &[
    (
        Ask::Archive(101),
        Want::Archive(Err(StartFault::NotYet(100))),
    ),
    (Ask::Archive(100), Want::Archive(Ok(()))),
    (Ask::Archive(100), Want::Archive(Err(StartFault::JobBusy))),
    (Ask::JobPump, Want::Job(JobDid::RunSynced)),
    (Ask::JobPump, Want::Job(JobDid::BodyWritten)),
    (Ask::Begin, Want::Begun),
    (Ask::Put(14), Want::Put),
    (Ask::Submit(14), Want::Queued),
    (Ask::Pump, Want::Pump(Ok(Did::WroteExtent))),
    (Ask::Pump, Want::Pump(Ok(Did::HeapSynced))),
    (Ask::Pump, Want::Pump(Err(PumpFault::Busy))),
    (Ask::JobPump, Want::Job(JobDid::BodySynced)),
    (Ask::JobPump, Want::Job(JobDid::GateWritten)),
    (Ask::JobPump, Want::Job(JobDid::JobDone)),
    (Ask::JobPump, Want::Job(JobDid::Idle)),
    (Ask::Pump, Want::Pump(Ok(Did::BodyWritten))),
    (
        Ask::Archive(100),
        Want::Archive(Err(StartFault::NothingToDo)),
    ),
];

/// Behind the commit: a transaction and a view, a commit at 101 behind them, and from place 20 on floors
/// of its relation that are begun, steps of the one that is, and views that are asked before it.
const FLOORS: Rows = &[
    (Ask::Begin, Want::Begun),
    (Ask::View, Want::Viewed),
    (Ask::Begin, Want::Begun),
    (Ask::Put(11), Want::Put),
    (Ask::Submit(11), Want::Queued),
    (Ask::Pump, Want::Pump(Ok(Did::WroteExtent))),
    (Ask::Pump, Want::Pump(Ok(Did::HeapSynced))),
    (Ask::Pump, Want::Pump(Ok(Did::BodyWritten))),
    (Ask::Pump, Want::Pump(Ok(Did::BodySynced))),
    (Ask::Pump, Want::Pump(Ok(Did::GateWritten))),
    (Ask::Pump, Want::Pump(Ok(Did::Published(1)))),
    (Ask::Floor(102), Want::Floor(Err(StartFault::NotYet(101)))),
    (Ask::Floor(101), Want::Floor(Err(StartFault::InUse(100)))),
    (Ask::Floor(100), Want::Floor(Ok(()))),
    (Ask::Floor(100), Want::Floor(Err(StartFault::JobBusy))),
    (Ask::JobPump, Want::Job(JobDid::BodyWritten)),
    (Ask::JobPump, Want::Job(JobDid::BodySynced)),
    (Ask::JobPump, Want::Job(JobDid::GateWritten)),
    (Ask::JobPump, Want::Job(JobDid::JobDone)),
    (Ask::Floor(100), Want::Floor(Err(StartFault::NothingToDo))),
    (Ask::At(10, 99), Want::NoneAt),
    (Ask::View, Want::Viewed),
    (
        Ask::At(30, 99),
        Want::AtRefused(QueryFault::BeforeKept(100)),
    ),
    (Ask::At(30, 100), Want::ValueAt),
];

/// Behind the commit: one more of the same key at 101, and a view in place 18. The version of 100 is then
/// archived and reclaimed, and a second view in place 35.
const RECENTLY: Rows = &[
    (Ask::Begin, Want::Begun),
    (Ask::Put(9), Want::Put),
    (Ask::Submit(9), Want::Queued),
    (Ask::Pump, Want::Pump(Ok(Did::WroteExtent))),
    (Ask::Pump, Want::Pump(Ok(Did::HeapSynced))),
    (Ask::Pump, Want::Pump(Ok(Did::BodyWritten))),
    (Ask::Pump, Want::Pump(Ok(Did::BodySynced))),
    (Ask::Pump, Want::Pump(Ok(Did::GateWritten))),
    (Ask::Pump, Want::Pump(Ok(Did::Published(1)))),
    (Ask::View, Want::Viewed),
    (Ask::Recent(18, 100), Want::RecentValue),
    (Ask::Archive(101), Want::Archive(Ok(()))),
    (Ask::JobPump, Want::Job(JobDid::WroteRun)),
    (Ask::JobPump, Want::Job(JobDid::RunSynced)),
    (Ask::JobPump, Want::Job(JobDid::BodyWritten)),
    (Ask::JobPump, Want::Job(JobDid::BodySynced)),
    (Ask::JobPump, Want::Job(JobDid::GateWritten)),
    (Ask::JobPump, Want::Job(JobDid::JobDone)),
    (Ask::Reclaim, Want::Reclaim(Ok(()))),
    (Ask::JobPump, Want::Job(JobDid::WroteExtent)),
    (Ask::JobPump, Want::Job(JobDid::HeapSynced)),
    (Ask::JobPump, Want::Job(JobDid::BodyWritten)),
    (Ask::JobPump, Want::Job(JobDid::BodySynced)),
    (Ask::JobPump, Want::Job(JobDid::GateWritten)),
    (Ask::JobPump, Want::Job(JobDid::JobDone)),
    (Ask::Recent(18, 100), Want::RecentValue),
    (Ask::View, Want::Viewed),
    (
        Ask::Recent(35, 100),
        Want::RecentRefused(QueryFault::NeedsDisk),
    ),
    (Ask::Recent(35, 101), Want::RecentValue),
    (
        Ask::Recent(35, 102),
        Want::RecentRefused(QueryFault::NotYet(101)),
    ),
    (Ask::Recent(2, 100), Want::Unknown),
    (Ask::At(35, 100), Want::ValueAt),
    (Ask::End(35), Want::Ended),
    (Ask::Recent(35, 101), Want::Unknown),
];

/// What a list shows, its calls in two parts, and how many places hold something at the end.
#[derive(Clone, Copy)]
struct List(&'static str, Rows, Rows, u32);

const LISTS: &[List] = &[
    List(
        "a commit is redeemed once and then seen",
        REDEEMED_ONCE,
        &[],
        0,
    ),
    List(
        "a place without the value is unknown",
        WITHOUT_THE_VALUE,
        &[],
        0,
    ),
    List("what is left over stays in its place", LEFT_OVER, &[], 3),
    List("a put is deleted and a ticket given up", GIVEN_UP, &[], 0),
    List("a view is asked of intervals", COMMIT, INTERVALS, 0),
    List("an archive goes on beside a commit", COMMIT, ARCHIVES, 2),
    List("a floor bars later views and no reader", COMMIT, FLOORS, 5),
    List(
        "a view answers from memory from the reclaim mark on",
        COMMIT,
        RECENTLY,
        3,
    ),
];

/// All rows of a list, the second part behind the first.
fn rows_of(alloc: Global, list: &List) -> Result<Vec<(Ask, Want)>, AllocError> {
    let mut rows = Vec::new(alloc);
    rows.extend_from_slice(list.1)?;
    rows.extend_from_slice(list.2)?;
    Ok(rows)
}

/// The place of the first answer that is another one, and how many places hold something at the end.
fn outcome_of(alloc: Global, list: &List) -> Result<(Option<usize>, u32), Fail> {
    let rows = rows_of(alloc, list)?;
    let calls = calls_of(alloc, &rows)?;
    let (answers, left) = answers_to(alloc, &calls)?;
    Ok((first_wrong(&answers, &rows), left))
}

#[test]
fn lists_of_calls_are_answered(rt: HostRuntime) -> Result<(), Fail> {
    for list in LISTS {
        assert_eq!(rt; outcome_of(rt.alloc(), list)?, (None, list.3), "{}", list.0);
    }
    Ok(())
}

#[test]
fn a_list_gives_back_what_is_left_over(rt: HostRuntime) -> Result<(), Fail> {
    let calls = calls_of(rt.alloc(), LEFT_OVER)?;
    let mut store = opened(rt.alloc())?;
    let outcome = run(rt.alloc(), &mut store, &calls);
    let _disk = close(store);
    assert!(rt; first_wrong(&outcome?, LEFT_OVER).is_none());
    Ok(())
}

const BEGAN: Rows = &[
    (Ask::Begin, Want::Begun),
    (Ask::Put(0), Want::Put),
    (Ask::Submit(0), Want::Queued),
    (Ask::View, Want::Viewed),
];

const WENT_ON: Rows = &[
    (Ask::Pump, Want::Pump(Ok(Did::WroteExtent))),
    (Ask::Pump, Want::Pump(Ok(Did::HeapSynced))),
    (Ask::Pump, Want::Pump(Ok(Did::BodyWritten))),
    (Ask::Pump, Want::Pump(Ok(Did::BodySynced))),
    (Ask::Pump, Want::Pump(Ok(Did::GateWritten))),
    (Ask::Pump, Want::Pump(Ok(Did::Published(1)))),
    (Ask::At(3, 100), Want::AtRefused(QueryFault::NotYet(0))),
    (Ask::Redeem(2), Want::Redeem(RedeemOutcome::Done(100))),
    (Ask::Redeem(2), Want::Unknown),
    (Ask::View, Want::Viewed),
    (Ask::At(13, 100), Want::ValueAt),
];

/// Whether two lists on an empty store are answered, the second of which goes on with the places of the
/// first. What is left over is given back.
fn go_on(alloc: Global, first: &[Call<'_>], second: &[Call<'_>]) -> Result<bool, Fail> {
    let mut store = opened(alloc)?;
    let mut places = Vec::new(alloc);
    let began = run_on(alloc, &mut store, &mut places, first);
    let went_on = run_on(alloc, &mut store, &mut places, second);
    give_back(places);
    let _disk = close(store);
    Ok(first_wrong(&began?, BEGAN).is_none() && first_wrong(&went_on?, WENT_ON).is_none())
}

#[test]
fn a_list_goes_on_with_what_an_earlier_one_left(rt: HostRuntime) -> Result<(), Fail> {
    let first = calls_of(rt.alloc(), BEGAN)?;
    let second = calls_of(rt.alloc(), WENT_ON)?;
    assert!(rt; go_on(rt.alloc(), &first, &second)?);
    Ok(())
}

/// Whether a step is answered so, and its place holds something.
fn steps(
    alloc: Global,
    store: &mut Store<MemDisk>,
    places: &mut Vec<Held>,
    (ask, want): (Ask, Want),
    holds: bool,
) -> bool {
    let (answer, held) = step(alloc, store, places, call_of(ask));
    is_spent(held) == holds && is_answer(&answer, &want)
}

#[test]
fn a_step_is_one_call(rt: HostRuntime) -> Result<(), Fail> {
    let alloc = rt.alloc();
    let calls = [
        call_of(Ask::Begin),
        call_of(Ask::Put(0)),
        call_of(Ask::Submit(0)),
    ];
    let mut store = opened(alloc)?;
    let mut places = Vec::new(alloc);
    let began = run_on(alloc, &mut store, &mut places, &calls);
    let right = steps(
        alloc,
        &mut store,
        &mut places,
        (Ask::GiveUp(2), Want::GivenUp),
        false,
    ) && steps(
        alloc,
        &mut store,
        &mut places,
        (Ask::GiveUp(2), Want::Unknown),
        false,
    ) && steps(
        alloc,
        &mut store,
        &mut places,
        (Ask::Begin, Want::Begun),
        true,
    );
    give_back(places);
    let _disk = close(store);
    assert!(rt; right && began?.len() == 3);
    Ok(())
}

#[test]
fn no_slots_are_formatted_over_a_log_in_the_heap(rt: HostRuntime) -> Result<(), Fail> {
    let alloc = rt.alloc();
    let mut disk = MemDisk::new(alloc);
    format(alloc, &mut disk, Layout::Log(64))?;
    assert_eq!(rt;
        format(alloc, &mut disk, Layout::Slots(16)),
        Err(FormatFault::Occupied)
    );
    assert_eq!(rt;
        format(alloc, &mut disk, Layout::Log(64)),
        Err(FormatFault::Occupied)
    );
    let store = match open(alloc, disk, 1) {
        Ok(store) => store,
        Err((fault, _)) => panic!(rt; "{fault:?}"),
    };
    let area = store.log_area();
    let _disk = close(store);
    assert_eq!(rt; area, Area::Heap);
    Ok(())
}
