//! A store and the names in use, from opening to closing, and the answer to a line.
ghost use Rattle.std.specs.Prelude.{◌≡◌, [], MatchOption, MatchResult, IfOk, IfErr, vec_capacity};
ghost use Rattle.script.specs.declared.line.Line.TheVariants.{Reopen};
ghost use Rattle.session.specs.Session as told;

use crate::names::{MAX_NAMES, OpenName, TicketName};
use crate::reply::Reply;
use any_store::{OpenFault, Store};
use disk::Disk;
use script::Line;
use std::alloc::Global;
use std::marker::Model;

/// The store mark of a session's store.
pub const MARK: u64 = 1;

/// The store of a script, and the names in use: at most 64, each of an open transaction or of a
/// ticket.
pub struct Session<D: Disk> {
    pub(crate) store: Store<D>,
    pub(crate) opened: Vec<OpenName>,
    pub(crate) tickets: Vec<TicketName>,
}

impl<D: Disk> Model for Session<D> {
    ghost use Rattle.std.specs.Prelude.{◌+◌, ◌≤◌, length, vec_capacity};
    ghost use Rattle.session.specs.Session.{State};

    ghost Value = { State };

    ghost view = { λ s. record { store = s.store; opened = s.opened.items; tickets = s.tickets.items } };

    ghost invariant = { λ s. (64 ≤ vec_capacity s.opened) × (64 ≤ vec_capacity s.tickets) × (length s.opened.items + length s.tickets.items ≤ 64) };
}

/// Aborts each transaction.
fn abort_all<D: Disk>(store: &mut Store<D>, opened: &mut Vec<OpenName>)
    ensures store { told.AbortsAll store.old opened.old.items store.new }
    ensures empty { opened.new.items ≡ [] }
    ensures capacity { vec_capacity opened.new ≡ vec_capacity opened.old }
{
    while !opened.is_empty() {
        let OpenName { name: _, txn } = opened.remove(0);
        // A transaction's writes are in range.
        let _count = txn.writes().len();
        store.abort(txn);
    }
}

/// Gives each ticket up.
fn give_up_all(tickets: &mut Vec<TicketName>)
    ensures empty { tickets.new.items ≡ [] }
    ensures capacity { vec_capacity tickets.new ≡ vec_capacity tickets.old }
{
    while let Some(TicketName { name: _, ticket }) = tickets.pop() {
        ticket.give_up();
    }
}

impl<D: Disk> Session<D> {
    /// A session with no name in use.
    ///
    /// # Errors
    ///
    /// Where there is no memory for the names; the store comes back.
    pub fn new(alloc: Global, store: Store<D>) -> Result<Session<D>, Store<D>>
        ensures ok { IfOk result (λ s. s ≡ told.fresh store) }
        ensures err { IfErr result (λ back. back ≡ store) }
    {
        let Ok(opened) = Vec::with_capacity(alloc, MAX_NAMES) else {
            return Err(store);
        };
        match Vec::with_capacity(alloc, MAX_NAMES) {
            Ok(tickets) => Ok(Session {
                store,
                opened,
                tickets,
            }),
            Err(_) => {
                opened.destroy_empty();
                Err(store)
            }
        }
    }

    /// Aborts what is open, gives tickets up, closes the store and gives its disk back.
    pub fn close(self) -> D
        ensures { told.Closes self (D.state result) }
    {
        let Session {
            mut store,
            mut opened,
            mut tickets,
        } = self;
        abort_all(&mut store, &mut opened);
        give_up_all(&mut tickets);
        opened.destroy_empty();
        tickets.destroy_empty();
        store.close()
    }

    /// Closes the session and opens its store again, with no name in use.
    ///
    /// # Errors
    ///
    /// Where the store does not open; the disk comes back.
    pub fn reopen(self, alloc: Global) -> Result<Session<D>, (OpenFault, D)>
        ensures { MatchResult result (λ s. told.Reopens D.tells self (told.opened_reply s.store) s) (λ e. told.DoesNotReopen D.tells self e.0 (D.state e.1)) }
    {
        let Session {
            mut store,
            mut opened,
            mut tickets,
        } = self;
        abort_all(&mut store, &mut opened);
        give_up_all(&mut tickets);
        match Store::open(alloc, store.close(), MARK) {
            Ok(store) => Ok(Session {
                store,
                opened,
                tickets,
            }),
            Err(refused) => {
                opened.destroy_empty();
                tickets.destroy_empty();
                Err(refused)
            }
        }
    }

    /// What is answered once the store is opened again.
    pub fn opened_reply(&self) -> Reply
        ensures { result ≡ told.opened_reply self.now.store }
    {
        let last = self.store.last();
        let floors = self.store.floors();
        if self.store.has_own_floors() {
            Reply::OpenedByRelation(last, floors.relations())
        } else {
            Reply::Opened(last, floors.every())
        }
    }

    /// Answers a line. A `reopen` has no answer here, and nothing happens: see
    /// [`Session::reopen`].
    pub fn answer(&mut self, alloc: Global, line: Line<'_>) -> Option<Reply>
        ensures { MatchOption result ((line.entry ≡ Reopen) × (self.new ≡ self.old)) (λ r. told.Step D.tells self.old line.entry r self.new) }
    {
        match line {
            Line::Begin(name) => Some(self.begin(name)),
            Line::Put(name, key, fields) => Some(self.put(alloc, &name, key, fields)),
            Line::Delete(name, key) => Some(self.delete(&name, key)),
            Line::Get(name, key) => Some(self.get(&name, key)),
            Line::Submit(name, label, now) => Some(self.submit(&name, label, now)),
            Line::Abort(name) => Some(self.abort(&name)),
            Line::Redeem(name) => Some(self.redeem(&name)),
            Line::Pump => Some(self.pump()),
            Line::Flush => Some(self.flush()),
            Line::At(key, time) => Some(self.at(key, time)),
            Line::Between(key, a, b) => Some(self.between(key, a, b)),
            Line::Scan(relation, time) => Some(self.scan(relation, time)),
            Line::Times(label) => Some(self.times(label)),
            Line::Archive(upto) => Some(self.archive(upto)),
            Line::Reclaim => Some(self.reclaim()),
            Line::Floor(scope, floor) => Some(self.raise_floor(scope, floor)),
            Line::Grow => Some(self.grow()),
            Line::Job => Some(self.job()),
            Line::Finish => Some(self.finish()),
            Line::Reopen => None,
        }
    }
}
