//! Transactions, from their beginning until they are published.

use crate::fault::Fault;
use crate::records;
use disk::Disk;
use std::alloc::Global;
use store::{Did, Redeemed, Store, Submitted, Ticket, Txn};

/// The label of each commit.
pub(crate) const LABEL: u64 = 9;

/// What a transaction writes: a version of so many records, from the first on.
#[derive(Clone, Copy)]
pub(crate) struct Batch {
    pub(crate) first: u64,
    pub(crate) count: u64,
    pub(crate) version: u64,
    /// The time of the commit at the earliest, in microseconds since 1970.
    pub(crate) now: u64,
}

pub(crate) fn put_all(alloc: Global, txn: &mut Txn, batch: &Batch) -> Result<(), Fault> {
    for number in 0..batch.count {
        let record = batch.first.wrapping_add(number);
        let [first, second, third, fourth] = records::fields(record, batch.version);
        txn.put(
            alloc,
            records::key(record),
            &[&first, &second, &third, &fourth],
        )?;
    }
    Ok(())
}

/// Begins a transaction, writes to it and submits it.
pub(crate) fn submit<D: Disk>(
    alloc: Global,
    store: &mut Store<D>,
    batch: &Batch,
) -> Result<Ticket, Fault> {
    let mut txn = store.begin()?;
    match put_all(alloc, &mut txn, batch) {
        Ok(()) => {}
        Err(fault) => {
            store.abort(txn);
            return Err(fault);
        }
    }
    match store.submit(txn, LABEL, batch.now)? {
        Submitted::Queued(ticket) => Ok(ticket),
        Submitted::ReadOnly(_) => Err(Fault::Wrong("nothing was written")),
    }
}

/// Publishes all that waits. Gives how many commits that were.
pub(crate) fn publish<D: Disk>(store: &mut Store<D>) -> Result<u64, Fault> {
    let mut published = 0u64;
    for _ in 0..u64::MAX {
        match store.pump()? {
            Did::Idle => break,
            Did::Published(count) => published = published.saturating_add(count as u64),
            _ => {}
        }
    }
    Ok(published)
}

/// Shows the ticket of a commit that is published.
pub(crate) fn redeem<D: Disk>(store: &mut Store<D>, ticket: Ticket) -> Result<(), Fault> {
    match store.redeem(ticket) {
        Redeemed::Done(_) => Ok(()),
        Redeemed::Waiting(ticket) => {
            ticket.give_up();
            Err(Fault::Wrong("the commit waits"))
        }
        Redeemed::InDoubt => Err(Fault::Wrong("the commit is in doubt")),
        Redeemed::Stranger => Err(Fault::Wrong("the ticket is a stranger's")),
    }
}

/// One commit, from the beginning of its transaction until its ticket is shown.
pub(crate) fn commit<D: Disk>(
    alloc: Global,
    store: &mut Store<D>,
    batch: &Batch,
) -> Result<(), Fault> {
    let ticket = submit(alloc, store, batch)?;
    match publish(store) {
        Ok(_) => redeem(store, ticket),
        Err(fault) => {
            ticket.give_up();
            Err(fault)
        }
    }
}
