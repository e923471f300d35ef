//! The calls of a store, each by itself.
use crate::examples::NEW;
use crate::machine::{KEY, Machine, PROFILES};
use any_store::{
    Did, QueryFault, Redeemed, SharedValue, Store, SubmitFault, Submitted, Ticket, Txn,
};
use disk::{Area, Disk, FaultDisk};
use history::Key;
use std::alloc::Global;
use std::test::Fail;

/// The store of the examples, and its mark.
pub type Opened = Store<FaultDisk>;

const OWN_MARK: u64 = 5;

/// An empty store of this profile and with this mark, opened.
pub fn opened(alloc: Global, mark: u64, profile: u8) -> Option<Opened> {
    let mut machine = Machine::new(alloc, profile);
    if !machine.goes(NEW) {
        return None;
    }
    match Store::open(alloc, machine.taken(), mark) {
        Ok(store) => Some(store),
        Err(_) => None,
    }
}

/// The ticket of what was queued.
fn queued(submitted: Result<Submitted, SubmitFault>) -> Option<Ticket> {
    match submitted {
        Ok(Submitted::Queued(ticket)) => Some(ticket),
        Ok(Submitted::ReadOnly(_)) => None,
        Err(_) => None,
    }
}

/// A commit of one record of relation 1 that waits.
fn submitted(alloc: Global, store: &mut Opened, record: u64, now: u64) -> Option<Ticket> {
    let key = Key {
        relation: 1,
        record,
    };
    let Ok(mut txn) = store.begin() else {
        return None;
    };
    let _ = txn.put(alloc, key, &[b"a".as_slice()]);
    queued(store.submit(txn, 9, now))
}

/// Takes steps until nothing is left to do; says how many were taken.
fn pumped(store: &mut Opened) -> u32 {
    for steps in 0..100 {
        match store.pump() {
            Ok(Did::Idle) => return steps,
            Ok(_) => {}
            Err(_) => return 100,
        }
    }
    100
}

/// Queues a commit, whose ticket is given up. Whether it waits.
fn queues(alloc: Global, store: &mut Opened, record: u64, now: u64) -> bool {
    match submitted(alloc, store, record, now) {
        Some(ticket) => {
            ticket.give_up();
            true
        }
        None => false,
    }
}

/// Makes a commit, in six steps.
fn commits(alloc: Global, store: &mut Opened, record: u64, now: u64) -> bool {
    queues(alloc, store, record, now) && pumped(store) == 6
}

/// Whether a value has this one field.
fn is_field(value: &SharedValue, field: &[u8]) -> bool {
    value.value().len() == 1 && value.value().field(0) == Some(field)
}

/// Whether the commit is published with this time.
fn is_done(store: &mut Opened, ticket: Ticket, time: u64) -> bool {
    match store.redeem(ticket) {
        Redeemed::Done(done) => done == time,
        Redeemed::Waiting(ticket) => {
            ticket.give_up();
            false
        }
        Redeemed::InDoubt | Redeemed::Stranger => false,
    }
}

/// Whether the commits of the examples' label have just these times.
fn has_times(store: &mut Opened, times: &[u64]) -> bool {
    match store.times_of(9) {
        Ok(found) => found.as_slice() == times,
        Err(_) => false,
    }
}

/// A store is written, and asked.
fn is_written(alloc: Global, store: &mut Opened) -> bool {
    let is_fresh = (store.last(), store.floors().every()) == (0, 0);
    let Some(ticket) = submitted(alloc, store, 7, 100) else {
        return false;
    };
    let is_queued = (ticket.mark(), ticket.time()) == (OWN_MARK, 100);
    let is_pumped = pumped(store) == 6;
    let is_done = is_done(store, ticket, 100);
    let is_last = (store.last(), store.floors().every()) == (100, 0);
    is_fresh && is_queued && is_pumped && is_done && is_last && has_times(store, &[100])
}

/// Whether a view of the store has this one field at a time.
fn shows(store: &mut Opened, time: u64, field: &[u8]) -> bool {
    let Ok(view) = store.view() else {
        return false;
    };
    let shows = match store.at(&view, KEY, time) {
        Ok(Some(value)) => is_field(&value, field),
        _ => false,
    };
    store.end(view);
    shows
}

/// A view shows nothing that came after it.
fn keeps_its_moment(alloc: Global, store: &mut Opened) -> bool {
    let is_first = commits(alloc, store, 7, 100) && shows(store, 100, b"a");
    let Ok(view) = store.view() else {
        return false;
    };
    let is_second = commits(alloc, store, 7, 110);
    let keeps = view.mark() == OWN_MARK
        && matches!(store.at(&view, KEY, 99), Ok(None))
        && matches!(store.at(&view, KEY, 100), Ok(Some(_)))
        && matches!(view.recent(KEY, 110), Err(QueryFault::NotYet(100)));
    store.end(view);
    is_first && is_second && keeps && shows(store, 110, b"a")
}

/// Whether records 3 and 5 were found.
fn are_three_and_five(found: &[(u64, SharedValue)]) -> bool {
    match found {
        [three, five] => {
            let are_records = three.0 == 3 && five.0 == 5;
            are_records && is_field(&three.1, b"a") && is_field(&five.1, b"b")
        }
        _ => false,
    }
}

/// Whether the transaction, once it has put record 5 and deleted record 7, scans what it wrote and not
/// what it deleted.
fn scans(alloc: Global, txn: &mut Txn) -> bool {
    let five = Key {
        relation: 1,
        record: 5,
    };
    let is_changed = txn.put(alloc, five, &[b"b".as_slice()]).is_ok() && txn.delete(KEY).is_ok();
    match (txn.scan(alloc, 1), txn.scan(alloc, 2)) {
        (Ok(found), Ok(none)) => is_changed && are_three_and_five(&found) && none.is_empty(),
        _ => false,
    }
}

/// A scan of a transaction has what it wrote, and not what it deleted.
fn scans_its_own_writes(alloc: Global, store: &mut Opened) -> bool {
    let is_pumped = queues(alloc, store, 3, 100)
        && queues(alloc, store, 7, 110)
        && pumped(store) == 7;
    let Ok(mut txn) = store.begin() else {
        return false;
    };
    let scans = scans(alloc, &mut txn);
    store.abort(txn);
    is_pumped && scans
}

/// Whether a submit was refused as a stranger's.
fn is_strangers_submit(submitted: Result<Submitted, SubmitFault>) -> bool {
    match submitted {
        Ok(Submitted::Queued(ticket)) => {
            ticket.give_up();
            false
        }
        Ok(Submitted::ReadOnly(_)) => false,
        Err(fault) => fault == SubmitFault::Stranger,
    }
}

/// Whether a ticket was refused as a stranger's.
fn is_strangers_ticket(redeemed: Redeemed) -> bool {
    match redeemed {
        Redeemed::Waiting(ticket) => {
            ticket.give_up();
            false
        }
        Redeemed::Stranger => true,
        Redeemed::Done(_) | Redeemed::InDoubt => false,
    }
}

/// A store only spends another store's transactions.
fn spends_txns(own: &mut Opened, other: &mut Opened) -> bool {
    let Ok(txn) = other.begin() else {
        return false;
    };
    let is_refused = is_strangers_submit(own.submit(txn, 9, 100));
    match other.begin() {
        Ok(txn) => {
            own.abort(txn);
            is_refused
        }
        Err(_) => false,
    }
}

/// It only spends another store's ticket.
fn spends_ticket(alloc: Global, own: &mut Opened, other: &mut Opened) -> bool {
    match submitted(alloc, other, 7, 100) {
        Some(ticket) => is_strangers_ticket(own.redeem(ticket)),
        None => false,
    }
}

/// It does not answer another store's view, and ends it.
fn spends_view(own: &mut Opened, other: &Opened) -> bool {
    let Ok(view) = other.view() else {
        return false;
    };
    let is_refused = matches!(own.at(&view, KEY, 0), Err(QueryFault::Stranger));
    own.end(view);
    is_refused
}

/// A store refuses what another store gave, and its own transaction goes on.
fn spends_all(alloc: Global, own: &mut Opened, other: &mut Opened) -> bool {
    let Ok(kept) = own.begin() else {
        return false;
    };
    let is_spent = spends_txns(own, other)
        && spends_ticket(alloc, own, other)
        && spends_view(own, other);
    match own.submit(kept, 9, 100) {
        Ok(Submitted::ReadOnly(snapshot)) => is_spent && snapshot == 0,
        Ok(Submitted::Queued(ticket)) => {
            ticket.give_up();
            false
        }
        Err(_) => false,
    }
}

/// A store with another mark gives what this one only spends.
fn refuses_a_strangers(alloc: Global, own: &mut Opened, profile: u8) -> bool {
    let Some(mut other) = opened(alloc, 6, profile) else {
        return false;
    };
    let is_spent = spends_all(alloc, own, &mut other);
    let _disk = other.close();
    is_spent
}

/// What is asked of a store.
enum Case {
    Written,
    Moment,
    OwnWrites,
    Strangers,
}

/// Each case, by its name, and how many bytes of extents it leaves in the heap.
const CASES: &[(&str, Case, u64)] = &[
    ("a_store_is_opened_written_and_asked", Case::Written, 8192),
    ("a_view_keeps_its_moment", Case::Moment, 16_384),
    (
        "a_transaction_scans_its_own_writes",
        Case::OwnWrites,
        16_384,
    ),
    ("a_strangers_tokens_are_only_spent", Case::Strangers, 0),
];

/// Whether the case holds on a store of this profile, which leaves so many bytes in the heap.
fn holds(alloc: Global, case: &Case, heap: u64, profile: u8) -> bool {
    let Some(mut store) = opened(alloc, OWN_MARK, profile) else {
        return false;
    };
    let holds = match case {
        Case::Written => is_written(alloc, &mut store),
        Case::Moment => keeps_its_moment(alloc, &mut store),
        Case::OwnWrites => scans_its_own_writes(alloc, &mut store),
        Case::Strangers => refuses_a_strangers(alloc, &mut store, profile),
    };
    let mut disk = store.close();
    holds && disk.len(Area::Heap) == Ok(heap)
}

/// Each case must hold in a profile.
fn each_holds(alloc: Global, profile: u8) -> Result<(), Fail> {
    for (name, case, heap) in CASES {
        if !holds(alloc, case, *heap, profile) {
            return Err(Fail::new(format_args!("{name} in profile {profile}")));
        }
    }
    Ok(())
}

#[test]
fn the_calls_of_a_store_are_answered(rt: HostRuntime) -> Result<(), Fail> {
    for profile in PROFILES {
        each_holds(rt.alloc(), *profile)?;
    }
    Ok(())
}
