//! Lists of calls.
ghost use Rattle.std.specs.Prelude.{◌≡◌, ◌≤◌, ◌+◌, ◌++◌, ◌∷◌, [], List, length, IfOk, OnErr};
ghost use Rattle.any_store.specs.Values.{disk_of};
ghost use Rattle.run.specs.Kinds.{IsInTransaction, IsOfView, IsOfStore};
ghost use Rattle.run.specs.Runs.{Goes, MakesFew};
ghost use Rattle.run.specs.Promise.{KeepsPromise, LinksOne};

use crate::calls::{Answer, Call};
use crate::held::{Held, discard};
use crate::redeeming::{give_up, redeem};
use crate::transacting::{abort, begin, delete, get, put, scan, submit};
use crate::viewing::{at, between, end, recent, scan_at, scan_between, times_of, view};
use any_store::Store;
use disk::Disk;
use std::alloc::{AllocError, Global};

/// Makes the calls in turn, and gives the answer to each. A call names a transaction, a ticket or a view
/// by the place in the list of the call that gave it. Where that call gave none, or its value is spent,
/// the answer is `Unknown` and nothing changes. What is left over at the end is given back unspent.
///
/// # Errors
///
/// Where there is no memory for the answers and the places. Then no call is made.
pub fn run<D: Disk>(
    alloc: Global,
    store: &mut Store<D>,
    calls: &[Call<'_>],
) -> Result<Vec<Answer>, AllocError>
    // From each moment of the store: the answers are those of a run of the machine, and whatever a stop may leave
    // before, within or after any of the calls is kept as what is published then or, once the gate of the group may be
    // open, as that with the whole group; it has every commit of which Done was answered. The places hold at the end
    // what is given back.
    ensures run { IfOk result (λ answers. (left : List Held) × KeepsPromise D.tells store.old [] calls.now answers.items store.new left) }
    // Each call makes at most one write or sync of the disk.
    ensures made { (disk_of store.new).made ≤ (disk_of store.old).made + length calls.now }
    ensures err { OnErr result (store.new ≡ store.old) }
{
    let mut places = Vec::new(alloc);
    let answers = run_on(alloc, store, &mut places, calls);
    give_back(places);
    answers
}

/// Goes on with the places of earlier lists, in which a call may name what an earlier list left. What
/// is left over at the end is the caller's: a later list may name it, and `give_back` gives it back.
///
/// # Errors
///
/// Where there is no memory for the answers and the places. Then no call is made.
pub fn run_on<D: Disk>(
    alloc: Global,
    store: &mut Store<D>,
    places: &mut Vec<Held>,
    calls: &[Call<'_>],
) -> Result<Vec<Answer>, AllocError>
    ensures run { IfOk result (λ answers. KeepsPromise D.tells store.old places.old.items calls.now answers.items store.new places.new.items) }
    ensures made { (disk_of store.new).made ≤ (disk_of store.old).made + length calls.now }
    ensures err { OnErr result (store.new ≡ store.old) }
    ensures left { OnErr result (places.new.items ≡ places.old.items) }
{
    let mut answers = Vec::with_capacity(alloc, calls.len())?;
    places.reserve(calls.len())?;
    for call in calls {
        let (answer, held) = step(alloc, store, places, *call);
        answers.push_reserved(answer);
        places.push_reserved(held);
    }
    Ok(answers)
}

/// Gives back what calls left in their places. No store is asked, and none changes.
pub fn give_back(mut places: Vec<Held>) {
    while let Some(held) = places.pop() {
        discard(held);
    }
    places.destroy_empty();
}

/// One call: its answer, and what its place holds from then on, which is the next one after the
/// places that the call may name.
pub fn step<D: Disk>(
    alloc: Global,
    store: &mut Store<D>,
    places: &mut [Held],
    call: Call<'_>,
) -> (Answer, Held)
    // From each moment of the store and the places the call leads to one of theirs after it.
    ensures links { LinksOne D.tells store.old places.old call.entry result.0 store.new (places.new ++ result.1 ∷ []) }
    ensures made { MakesFew store.old store.new }
{
    answer_call(alloc, store, places, call)
}

// One call: its answer, and what its place holds from then on.
fn answer_call<D: Disk>(
    alloc: Global,
    store: &mut Store<D>,
    places: &mut [Held],
    call: Call<'_>,
) -> (Answer, Held)
    ensures goes { Goes D.tells store.old places.old call.entry result.0 store.new (places.new ++ result.1 ∷ []) }
    ensures made { MakesFew store.old store.new }
{
    match call {
        Call::Begin => begin(store, places),
        Call::Submit {
            transaction,
            label,
            now,
        } => submit(store, places, transaction, label, now),
        Call::View => view(store, places),
        Call::Put { .. }
        | Call::Delete { .. }
        | Call::Get { .. }
        | Call::Scan { .. }
        | Call::Abort { .. } => (
            answer_in_transaction(alloc, store, places, call),
            Held::Nothing,
        ),
        Call::At { .. }
        | Call::ScanAt { .. }
        | Call::Between { .. }
        | Call::ScanBetween { .. }
        | Call::Recent { .. }
        | Call::End { .. } => (answer_by_view(store, places, call), Held::Nothing),
        _ => (answer_by_store(store, places, call), Held::Nothing),
    }
}

// The answer to a call that names a transaction and leaves nothing in its place.
fn answer_in_transaction<D: Disk>(
    alloc: Global,
    store: &mut Store<D>,
    places: &mut [Held],
    call: Call<'_>,
) -> Answer
    requires { IsInTransaction call }
    ensures goes { Goes D.tells store.old places.old call.entry result store.new (places.new ++ Held.Nothing ∷ []) }
    ensures made { MakesFew store.old store.new }
{
    match call {
        Call::Put {
            transaction,
            key,
            fields,
        } => put(alloc, store, places, transaction, key, fields),
        Call::Delete { transaction, key } => delete(store, places, transaction, key),
        Call::Get { transaction, key } => get(store, places, transaction, key),
        Call::Scan {
            transaction,
            relation,
        } => scan(alloc, store, places, transaction, relation),
        Call::Abort { transaction } => abort(store, places, transaction),
        _ => unreachable!(),
    }
}

// The answer to a call that names a view.
fn answer_by_view<D: Disk>(store: &mut Store<D>, places: &mut [Held], call: Call<'_>) -> Answer
    requires { IsOfView call }
    ensures goes { Goes D.tells store.old places.old call.entry result store.new (places.new ++ Held.Nothing ∷ []) }
    ensures made { MakesFew store.old store.new }
{
    match call {
        Call::At {
            view: place,
            key,
            time,
        } => at(store, places, place, key, time),
        Call::ScanAt {
            view: place,
            relation,
            time,
        } => scan_at(store, places, place, relation, time),
        Call::Between {
            view: place,
            key,
            a,
            b,
        } => between(store, places, place, key, a, b),
        Call::ScanBetween {
            view: place,
            relation,
            a,
            b,
        } => scan_between(store, places, place, relation, a, b),
        Call::Recent {
            view: place,
            key,
            time,
        } => recent(store, places, place, key, time),
        Call::End { view: place } => end(store, places, place),
        _ => unreachable!(),
    }
}

// The answer to a call of a group, a ticket, a label or a job.
fn answer_by_store<D: Disk>(store: &mut Store<D>, places: &mut [Held], call: Call<'_>) -> Answer
    requires { IsOfStore call }
    ensures goes { Goes D.tells store.old places.old call.entry result store.new (places.new ++ Held.Nothing ∷ []) }
    ensures made { MakesFew store.old store.new }
{
    match call {
        Call::Pump => pump(store, places),
        Call::Redeem { ticket } => redeem(store, places, ticket),
        Call::GiveUp { ticket } => give_up(store, places, ticket),
        Call::TimesOf { label } => times_of(store, places, label),
        Call::Archive { upto } => archive(store, places, upto),
        Call::Reclaim => reclaim(store, places),
        Call::Floor { scope, floor } => raise_floor(store, places, scope, floor),
        Call::Grow => grow(store, places),
        Call::JobPump => job_pump(store, places),
        _ => unreachable!(),
    }
}

fn pump<D: Disk>(store: &mut Store<D>, places: &[Held]) -> Answer
    ensures goes { Goes D.tells store.old places.now Call.Pump result store.new (places.now ++ Held.Nothing ∷ []) }
    ensures made { MakesFew store.old store.new }
{
    let _ = places;
    Answer::Pump(store.pump())
}

fn archive<D: Disk>(store: &mut Store<D>, places: &[Held], upto: u64) -> Answer
    ensures goes { Goes D.tells store.old places.now (Call.Archive upto) result store.new (places.now ++ Held.Nothing ∷ []) }
    ensures made { MakesFew store.old store.new }
{
    let _ = places;
    Answer::Archive(store.archive_start(upto))
}

fn reclaim<D: Disk>(store: &mut Store<D>, places: &[Held]) -> Answer
    ensures goes { Goes D.tells store.old places.now Call.Reclaim result store.new (places.now ++ Held.Nothing ∷ []) }
    ensures made { MakesFew store.old store.new }
{
    let _ = places;
    Answer::Reclaim(store.reclaim_start())
}

fn raise_floor<D: Disk>(
    store: &mut Store<D>,
    places: &[Held],
    scope: Option<u16>,
    floor: u64,
) -> Answer
    ensures goes { Goes D.tells store.old places.now (Call.Floor scope floor) result store.new (places.now ++ Held.Nothing ∷ []) }
    ensures made { MakesFew store.old store.new }
{
    let _ = places;
    Answer::Floor(store.start_floor(scope, floor))
}

fn grow<D: Disk>(store: &mut Store<D>, places: &[Held]) -> Answer
    ensures goes { Goes D.tells store.old places.now Call.Grow result store.new (places.now ++ Held.Nothing ∷ []) }
    ensures made { MakesFew store.old store.new }
{
    let _ = places;
    Answer::Grow(store.grow_start())
}

fn job_pump<D: Disk>(store: &mut Store<D>, places: &[Held]) -> Answer
    ensures goes { Goes D.tells store.old places.now Call.JobPump result store.new (places.now ++ Held.Nothing ∷ []) }
    ensures made { MakesFew store.old store.new }
{
    let _ = places;
    Answer::JobPump(store.job_pump())
}
