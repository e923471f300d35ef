//! The answers to the lines of transactions and of tickets.
ghost use Rattle.std.specs.Prelude.{◌≡◌, map, MatchOption, IfOk};
ghost use Rattle.snapshot.specs.Txn.{seen_by};
ghost use Rattle.session.specs.Session as told;

use crate::fault::Fault;
use crate::names::{OpenName, TicketName};
use crate::reply::Reply;
use crate::session::Session;
use any_store::{Redeemed, SharedValue, Submitted, Txn, TxnFault};
use disk::Disk;
use history::Key;
use script::{Fields, Name};
use std::alloc::{AllocError, Global};

/// Puts the value of these fields; memory for their bytes may be refused too.
fn put_fields(txn: &mut Txn, alloc: Global, key: Key, fields: Fields<'_>) -> Result<(), TxnFault>
    ensures { told.Puts txn.old key fields.entry result txn.new }
{
    let Ok(decoded) = fields.decode(alloc) else {
        return Err(TxnFault::NoMemory);
    };
    let Ok(parts) = slices(alloc, &decoded) else {
        return Err(TxnFault::NoMemory);
    };
    txn.put(alloc, key, &parts)
}

/// The bytes of each field.
fn slices<'a>(alloc: Global, fields: &'a [Vec<u8>]) -> Result<Vec<&'a [u8]>, AllocError>
    ensures { IfOk result (λ parts. map (λ part. part.now) parts.items ≡ map (λ f. f.items) fields.entry.now) }
{
    let mut parts = Vec::with_capacity(alloc, fields.len())?;
    for field in fields {
        parts.push(field.as_slice())?;
    }
    Ok(parts)
}

/// The answer to a call of a transaction.
fn done(answer: Result<(), TxnFault>) -> Reply
    ensures { result ≡ told.done answer }
{
    match answer {
        Ok(()) => Reply::Ok,
        Err(fault) => Reply::Refused(Fault::Txn(fault)),
    }
}

/// One more holder of the value that a transaction sees.
fn seen(txn: &Txn, key: Key) -> Result<Option<SharedValue>, AllocError>
    ensures { IfOk result (λ value. value ≡ seen_by txn.now key) }
{
    match txn.get(key) {
        Some(value) => Ok(Some(value.share()?)),
        None => Ok(None),
    }
}

impl<D: Disk> Session<D> {
    pub(crate) fn begin(&mut self, name: Name) -> Reply
        ensures { told.IfTest (told.is_taken name self.old) (told.RefusesName self.old result self.new) (told.BeginStep self.old name result self.new) }
    {
        if self.is_taken(&name) {
            return Reply::Refused(Fault::Name);
        }
        match self.store.begin() {
            Ok(txn) => {
                let snapshot = txn.snapshot();
                self.add_opened(OpenName { name, txn });
                Reply::Snapshot(snapshot)
            }
            Err(fault) => Reply::Refused(Fault::Begin(fault)),
        }
    }

    pub(crate) fn put(&mut self, alloc: Global, name: &Name, key: Key, fields: Fields<'_>) -> Reply
        ensures { MatchOption (told.txn_place name.now self.old) (told.RefusesName self.old result self.new)
            (λ i. told.PutStep self.old i key fields.entry result self.new) }
    {
        match self.txn_place(name) {
            Some(at) => {
                let OpenName { name, mut txn } = self.take_opened(at);
                let answer = put_fields(&mut txn, alloc, key, fields);
                self.add_opened(OpenName { name, txn });
                done(answer)
            }
            None => Reply::Refused(Fault::Name),
        }
    }

    pub(crate) fn delete(&mut self, name: &Name, key: Key) -> Reply
        ensures { MatchOption (told.txn_place name.now self.old) (told.RefusesName self.old result self.new)
            (λ i. told.DeleteStep self.old i key result self.new) }
    {
        match self.txn_place(name) {
            Some(at) => {
                let OpenName { name, mut txn } = self.take_opened(at);
                let answer = txn.delete(key);
                self.add_opened(OpenName { name, txn });
                done(answer)
            }
            None => Reply::Refused(Fault::Name),
        }
    }

    pub(crate) fn get(&mut self, name: &Name, key: Key) -> Reply
        ensures { MatchOption (told.txn_place name.now self.old) (told.RefusesName self.old result self.new)
            (λ i. told.GetStep self.old i key result self.new) }
    {
        match self.txn_place(name) {
            Some(at) => match seen(&self.opened[at].txn, key) {
                Ok(value) => Reply::Found(value),
                Err(_) => Reply::Refused(Fault::NoMemory),
            },
            None => Reply::Refused(Fault::Name),
        }
    }

    pub(crate) fn abort(&mut self, name: &Name) -> Reply
        ensures { MatchOption (told.txn_place name.now self.old) (told.RefusesName self.old result self.new) (λ i. told.AbortStep self.old i result self.new) }
    {
        match self.txn_place(name) {
            Some(at) => {
                let OpenName { name: _, txn } = self.take_opened(at);
                // A transaction's writes are in range.
                let _count = txn.writes().len();
                self.store.abort(txn);
                Reply::Ok
            }
            None => Reply::Refused(Fault::Name),
        }
    }

    pub(crate) fn submit(&mut self, name: &Name, label: u64, now: u64) -> Reply
        ensures { MatchOption (told.txn_place name.now self.old) (told.RefusesName self.old result self.new)
            (λ i. told.SubmitStep self.old i label now result self.new) }
    {
        match self.txn_place(name) {
            Some(at) => {
                let OpenName { name, txn } = self.take_opened(at);
                // A transaction's writes are in range.
                let _count = txn.writes().len();
                match self.store.submit(txn, label, now) {
                    Ok(Submitted::ReadOnly(time)) => Reply::ReadOnly(time),
                    Ok(Submitted::Queued(ticket)) => {
                        self.add_ticket(TicketName { name, ticket });
                        Reply::Queued
                    }
                    Err(fault) => Reply::Refused(Fault::Submit(fault)),
                }
            }
            None => Reply::Refused(Fault::Name),
        }
    }

    pub(crate) fn redeem(&mut self, name: &Name) -> Reply
        ensures { MatchOption (told.ticket_place name.now self.old) (told.RefusesName self.old result self.new)
            (λ i. told.RedeemStep self.old i result self.new) }
    {
        match self.ticket_place(name) {
            Some(at) => {
                let TicketName { name, ticket } = self.tickets.remove(at);
                match self.store.redeem(ticket) {
                    Redeemed::Done(time) => Reply::Done(time),
                    Redeemed::Waiting(ticket) => {
                        self.add_ticket(TicketName { name, ticket });
                        Reply::Waiting
                    }
                    Redeemed::InDoubt => Reply::InDoubt,
                    Redeemed::Stranger => Reply::Refused(Fault::Stranger),
                }
            }
            None => Reply::Refused(Fault::Name),
        }
    }
}
