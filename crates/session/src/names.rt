//! The names in use: finding one, adding one, taking one off.
ghost use Rattle.std.specs.Prelude.{◌≡◌, ◌<◌, ◌+◌, ◌++◌, ◌∷◌, [], length, IfSome, Some, slice_get, remove};
ghost use Rattle.session.specs.Session as told;

use crate::session::Session;
use any_store::{Ticket, Txn};
use disk::Disk;
use script::Name;

/// At most so many names are in use.
pub(crate) const MAX_NAMES: usize = 64;

/// A name of an open transaction.
pub struct OpenName {
    pub name: Name,
    pub txn: Txn,
}

/// A name of the ticket of a commit that was queued.
pub struct TicketName {
    pub name: Name,
    pub ticket: Ticket,
}

impl<D: Disk> Session<D> {
    pub(crate) fn txn_place(&self, name: &Name) -> Option<usize>
        ensures is { result ≡ told.txn_place name.now self.now }
        ensures within { IfSome result (λ at. at < length self.now.opened) }
    {
        self.opened
            .iter()
            .position(|entry| entry.name.as_bytes() == name.as_bytes())
    }

    pub(crate) fn ticket_place(&self, name: &Name) -> Option<usize>
        ensures { result ≡ told.ticket_place name.now self.now }
    {
        self.tickets
            .iter()
            .position(|entry| entry.name.as_bytes() == name.as_bytes())
    }

    /// Whether a name is in use, or no further one may be.
    pub(crate) fn is_taken(&self, name: &Name) -> bool
        ensures { result ≡ told.is_taken name.now self.now }
    {
        if self.txn_place(name).is_some() {
            return true;
        }
        if self.ticket_place(name).is_some() {
            return true;
        }
        self.opened.len() + self.tickets.len() >= MAX_NAMES
    }

    /// Adds a name. There is room for it since the session was made.
    pub(crate) fn add_opened(&mut self, entry: OpenName)
        requires { length self.old.opened + length self.old.tickets < 64 }
        ensures { self.new ≡ record self.old { opened = self.old.opened ++ entry ∷ [] } }
    {
        match self.opened.push(entry) {
            Ok(()) => {}
            Err(_) => unreachable!(),
        }
    }

    /// Takes the name at a place off the list.
    pub(crate) fn take_opened(&mut self, at: usize) -> OpenName
        requires { at < length self.old.opened }
        ensures found { slice_get self.old.opened at ≡ Some result }
        ensures new { self.new ≡ record self.old { opened = remove self.old.opened at } }
        ensures room { length self.new.opened + length self.new.tickets < 64 }
    {
        self.opened.remove(at)
    }

    pub(crate) fn add_ticket(&mut self, entry: TicketName)
        requires { length self.old.opened + length self.old.tickets < 64 }
        ensures { self.new ≡ record self.old { tickets = self.old.tickets ++ entry ∷ [] } }
    {
        match self.tickets.push(entry) {
            Ok(()) => {}
            Err(_) => unreachable!(),
        }
    }
}
