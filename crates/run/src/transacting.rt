//! The calls of transactions. One that asks nothing of the store takes it all the same, since its
//! contract speaks of it.
ghost use Rattle.std.specs.Prelude.{◌≡◌, ◌++◌, ◌∷◌, [], IfOk};
ghost use Rattle.std.specs.Option.{option_copied};
ghost use Rattle.run.specs.declared.calls.Call.{Call};
ghost use Rattle.run.specs.Places.{begin_answer, submit_answer};
ghost use Rattle.run.specs.Runs.{Goes, MakesFew};

use crate::calls::{Answer, SubmitOutcome};
use crate::held::{Held, put_back, take_transaction, transaction_at};
use any_store::{BeginFault, SharedValue, Store, SubmitFault, Submitted, Txn};
use disk::Disk;
use history::Key;
use std::alloc::{AllocError, Global};

pub(crate) fn begin<D: Disk>(store: &mut Store<D>, places: &[Held]) -> (Answer, Held)
    ensures goes { Goes D.tells store.old places.now Call.Begin result.0 store.new (places.now ++ result.1 ∷ []) }
    ensures made { MakesFew store.old store.new }
{
    let _ = places;
    begun(store.begin())
}

fn begun(outcome: Result<Txn, BeginFault>) -> (Answer, Held)
    ensures { result ≡ begin_answer outcome }
{
    match outcome {
        Ok(txn) => (Answer::Begin(Ok(())), Held::Transaction(txn)),
        Err(fault) => (Answer::Begin(Err(fault)), Held::Nothing),
    }
}

pub(crate) fn put<D: Disk>(
    alloc: Global,
    store: &Store<D>,
    places: &mut [Held],
    transaction: usize,
    key: Key,
    fields: &[&[u8]],
) -> Answer
    ensures { Goes D.tells store.now places.old (Call.Put transaction key fields.entry) result store.now (places.new ++ Held.Nothing ∷ []) }
{
    let _ = store;
    let Some(mut txn) = take_transaction(places, transaction) else {
        return Answer::Unknown;
    };
    let outcome = txn.put(alloc, key, fields);
    put_back(places, transaction, Held::Transaction(txn));
    Answer::Put(outcome)
}

pub(crate) fn delete<D: Disk>(
    store: &Store<D>,
    places: &mut [Held],
    transaction: usize,
    key: Key,
) -> Answer
    ensures { Goes D.tells store.now places.old (Call.Delete transaction key) result store.now (places.new ++ Held.Nothing ∷ []) }
{
    let _ = store;
    let Some(mut txn) = take_transaction(places, transaction) else {
        return Answer::Unknown;
    };
    let outcome = txn.delete(key);
    put_back(places, transaction, Held::Transaction(txn));
    Answer::Delete(outcome)
}

pub(crate) fn get<D: Disk>(
    store: &Store<D>,
    places: &[Held],
    transaction: usize,
    key: Key,
) -> Answer
    ensures { Goes D.tells store.now places.now (Call.Get transaction key) result store.now (places.now ++ Held.Nothing ∷ []) }
{
    let _ = store;
    let Some(txn) = transaction_at(places, transaction) else {
        return Answer::Unknown;
    };
    Answer::Get(shared(txn.get(key)))
}

// One more holder of the value that was found.
fn shared(found: Option<&SharedValue>) -> Result<Option<SharedValue>, AllocError>
    ensures { IfOk result (λ value. value ≡ option_copied found.entry) }
{
    match found {
        None => Ok(None),
        Some(value) => Ok(Some(value.share()?)),
    }
}

pub(crate) fn scan<D: Disk>(
    alloc: Global,
    store: &Store<D>,
    places: &[Held],
    transaction: usize,
    relation: u16,
) -> Answer
    ensures { Goes D.tells store.now places.now (Call.Scan transaction relation) result store.now (places.now ++ Held.Nothing ∷ []) }
{
    let _ = store;
    let Some(txn) = transaction_at(places, transaction) else {
        return Answer::Unknown;
    };
    Answer::Scan(txn.scan(alloc, relation))
}

pub(crate) fn submit<D: Disk>(
    store: &mut Store<D>,
    places: &mut [Held],
    transaction: usize,
    label: u64,
    now: u64,
) -> (Answer, Held)
    ensures goes { Goes D.tells store.old places.old (Call.Submit transaction label now) result.0 store.new (places.new ++ result.1 ∷ []) }
    ensures made { MakesFew store.old store.new }
{
    let Some(txn) = take_transaction(places, transaction) else {
        return (Answer::Unknown, Held::Nothing);
    };
    // A transaction's writes are in range.
    let _count = txn.writes().len();
    submitted(store.submit(txn, label, now))
}

fn submitted(outcome: Result<Submitted, SubmitFault>) -> (Answer, Held)
    ensures { result ≡ submit_answer outcome }
{
    match outcome {
        Ok(Submitted::ReadOnly(snapshot)) => (
            Answer::Submit(Ok(SubmitOutcome::ReadOnly(snapshot))),
            Held::Nothing,
        ),
        Ok(Submitted::Queued(ticket)) => (
            Answer::Submit(Ok(SubmitOutcome::Queued)),
            Held::Ticket(ticket),
        ),
        Err(fault) => (Answer::Submit(Err(fault)), Held::Nothing),
    }
}

pub(crate) fn abort<D: Disk>(
    store: &mut Store<D>,
    places: &mut [Held],
    transaction: usize,
) -> Answer
    ensures goes { Goes D.tells store.old places.old (Call.Abort transaction) result store.new (places.new ++ Held.Nothing ∷ []) }
    ensures made { MakesFew store.old store.new }
{
    let Some(txn) = take_transaction(places, transaction) else {
        return Answer::Unknown;
    };
    // A transaction's writes are in range.
    let _count = txn.writes().len();
    store.abort(txn);
    Answer::Abort
}
