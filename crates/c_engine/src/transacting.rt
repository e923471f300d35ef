//! Transactions and groups.
ghost use Rattle.std.specs.Prelude.{◌≡◌, IsTrue};
ghost use Rattle.c_engine.specs.FreePlaces.{has_free};

use crate::code::{Code, Info, Row};
use crate::codes::{begin_code, submit_code, txn_code};
use crate::engine::{Engine, EngineState};
use crate::places::Held;
use crate::rows::{records_out, value_out};
use crate::step::Step;
use any_store::{Redeemed, Submitted, Ticket, Txn};
use history::Key;

impl Engine {
    ghost use Rattle.c_engine.specs.Queries.{Sees, SeesScan};
    ghost use Rattle.c_engine.specs.Writes.{Puts, Deletes};
    ghost use Rattle.c_engine.specs.Engines.{BeginsEngine, TakesTransaction, Writes, SubmitsEngine, SubmitsTaken, AbortsEngine, AbortsTaken};
    ghost use Rattle.c_engine.specs.Engines.{PumpsEngine, RedeemsEngine, RedeemsTaken, KeepsTicket, GivesUp, was_published};

    /// A transaction on what is published now; its number and the time of its snapshot are told.
    pub fn begin(&mut self, info: &mut Info) -> Code
        ensures { BeginsEngine self.old result info.new self.new }
    {
        match self.stopped() {
            Some(code) => code,
            None => self.new_transaction(info),
        }
    }

    fn new_transaction(&mut self, info: &mut Info) -> Code
        ensures { TakesTransaction self.old result info.new self.new }
    {
        if !self.places.make_free() {
            return Code::NoMemory;
        }
        match self.store.begin() {
            Err(fault) => begin_code(fault),
            Ok(txn) => {
                info.b = txn.snapshot();
                info.a = self.places.keep_free(Held::Transaction(txn));
                Code::Ok
            }
        }
    }

    // Gives a transaction up.
    fn end_transaction(&mut self, txn: Txn)
        ensures { AbortsTaken txn self.old self.new }
    {
        let _writes = txn.writes().len();
        self.store.abort(txn);
    }

    /// Writes a value in a transaction.
    pub fn put(&mut self, transaction: u64, key: Key, value: &[u8]) -> Code
        ensures { Writes transaction (Puts key value.now) self.old result self.new }
    {
        match self.places.put(transaction, self.alloc, key, value) {
            None => Code::Unknown,
            Some(outcome) => txn_code(outcome),
        }
    }

    /// Deletes in a transaction.
    pub fn delete(&mut self, transaction: u64, key: Key) -> Code
        ensures { Writes transaction (Deletes key) self.old result self.new }
    {
        match self.places.delete(transaction, key) {
            None => Code::Unknown,
            Some(outcome) => txn_code(outcome),
        }
    }

    /// The value that a transaction sees, and its length.
    pub fn get(&self, transaction: u64, key: Key, out: &mut [u8], info: &mut Info) -> Code
        ensures { Sees transaction key self.now result info.new out.new }
    {
        match self.places.transaction(transaction) {
            None => Code::Unknown,
            Some(txn) => value_out(txn.get(key), out, info),
        }
    }

    /// The records of a relation that a transaction sees, with their values.
    pub fn scan(
        &self,
        transaction: u64,
        relation: u16,
        rows: &mut [Row],
        out: &mut [u8],
        info: &mut Info,
    ) -> Code
        ensures { SeesScan transaction relation self.now result info.new rows.new out.new }
    {
        match self.places.transaction(transaction) {
            None => Code::Unknown,
            Some(txn) => match txn.scan(self.alloc, relation) {
                Err(_) => Code::NoMemory,
                Ok(found) => records_out(&found, rows, out, info),
            },
        }
    }

    /// Queues the transaction's writes; the ticket's number is told. After a refused call it is given up.
    /// The ticket takes the transaction's place, so a commit that was queued always has a number: want of
    /// memory would be taken for a refusal, and the commit made twice.
    pub fn submit(&mut self, transaction: u64, label: u64, now: u64, info: &mut Info) -> Code
        ensures { SubmitsEngine transaction label now self.old result info.new self.new }
    {
        if self.asks() {
            return Code::Pending;
        }
        match self.places.take_transaction(transaction) {
            None => Code::Unknown,
            Some(txn) => self.submit_taken(txn, label, now, info),
        }
    }

    // Its place is free for the ticket.
    fn submit_taken(&mut self, txn: Txn, label: u64, now: u64, info: &mut Info) -> Code
        requires { IsTrue (has_free self.old.places.places.items self.old.places.free) }
        ensures { SubmitsTaken txn label now self.old result info.new self.new }
    {
        if self.has_failed() {
            self.end_transaction(txn);
            return Code::Failed;
        }
        let _writes = txn.writes().len();
        match self.store.submit(txn, label, now) {
            Err(fault) => submit_code(fault, info),
            Ok(Submitted::ReadOnly(time)) => {
                info.a = time;
                Code::ReadOnly
            }
            Ok(Submitted::Queued(ticket)) => {
                info.a = self.places.keep_free(Held::Ticket(ticket));
                Code::Ok
            }
        }
    }

    /// Gives a transaction up.
    pub fn abort(&mut self, transaction: u64) -> Code
        ensures { AbortsEngine transaction self.old result self.new }
    {
        match self.places.take_transaction(transaction) {
            None => Code::Unknown,
            Some(txn) => {
                self.end_transaction(txn);
                Code::Ok
            }
        }
    }

    /// One step of the group; whether a device call is due for it is told.
    pub fn pump(&mut self, info: &mut Info) -> Code
        ensures { PumpsEngine self.old result info.new self.new }
    {
        if let Some(code) = self.stopped() {
            return code;
        }
        let Some(published) = self.published() else {
            return Code::NoMemory;
        };
        let made = self.calls();
        let log = self.store.log_area();
        match self.store.pump() {
            Ok(did) => self.stand_out(Step::Group(log, did), published, info),
            Err(fault) => self.refuse_step(fault, made, published),
        }
    }

    /// What became of a ticket; the time of its commit is told.
    pub fn redeem(&mut self, ticket: u64, info: &mut Info) -> Code
        ensures { RedeemsEngine ticket self.old result info.new self.new }
    {
        if self.asks() {
            return Code::Pending;
        }
        match self.places.take_ticket(ticket) {
            None => Code::Unknown,
            Some(ticket) => self.redeem_taken(ticket, info),
        }
    }

    // Its place is free for it where it waits.
    fn redeem_taken(&mut self, ticket: Ticket, info: &mut Info) -> Code
        requires { IsTrue (has_free self.old.places.places.items self.old.places.free) }
        ensures { RedeemsTaken ticket self.old result info.new self.new }
    {
        match self.store.redeem(ticket) {
            Redeemed::Done(time) => {
                if !self.was_published(time) {
                    return Code::InDoubt;
                }
                info.a = time;
                Code::Ok
            }
            Redeemed::Waiting(ticket) => self.keep_ticket(ticket, info),
            Redeemed::InDoubt => Code::InDoubt,
            Redeemed::Stranger => Code::Stranger,
        }
    }

    // The new number of a ticket that waits is told.
    fn keep_ticket(&mut self, ticket: Ticket, info: &mut Info) -> Code
        requires { IsTrue (has_free self.old.places.places.items self.old.places.free) }
        ensures { KeepsTicket ticket self.old result info.new self.new }
    {
        if self.has_failed() {
            ticket.give_up();
            return Code::InDoubt;
        }
        info.a = self.places.keep_free(Held::Ticket(ticket));
        Code::Waiting
    }

    // Whether a commit of this time was published, also where a device call was refused since.
    fn was_published(&self, time: u64) -> bool
        ensures { result ≡ was_published self.now.state self.now.before time }
    {
        if matches!(self.state, EngineState::Settled) {
            return true;
        }
        match &self.before {
            None => false,
            Some(published) => time <= published.last,
        }
    }

    /// Gives a ticket up: its commit goes its way.
    pub fn give_up(&mut self, ticket: u64) -> Code
        ensures { GivesUp ticket self.old result self.new }
    {
        let Some(ticket) = self.places.take_ticket(ticket) else {
            return Code::Unknown;
        };
        ticket.give_up();
        Code::Ok
    }
}
