//! What the places of a list of calls hold.
ghost use Rattle.std.specs.Prelude.{◌≡◌, Some, IfSome, IfNone, slice_get, slice_set};
ghost use Rattle.std.specs.Option.{option_copied};
ghost use Rattle.run.specs.Places.{HasNoTransaction, HasNoTicket, HasNoView, transaction_in, view_in};

use any_store::{Ticket, Txn, View};
use std::mem;

/// What the place of a call holds: what the call gave, until it is spent. It can't be dropped.
pub enum Held {
    Nothing,
    Transaction(Txn),
    Ticket(Ticket),
    View(View),
}

// The transaction that the place holds.
pub(crate) fn transaction_at(places: &[Held], at: usize) -> Option<&Txn>
    ensures { option_copied result ≡ transaction_in (slice_get places.now at) }
{
    match places.get(at) {
        Some(Held::Transaction(txn)) => Some(txn),
        _ => None,
    }
}

// The view that the place holds.
pub(crate) fn view_at(places: &[Held], at: usize) -> Option<&View>
    ensures { option_copied result ≡ view_in (slice_get places.now at) }
{
    match places.get(at) {
        Some(Held::View(view)) => Some(view),
        _ => None,
    }
}

// Takes out the transaction that the place holds.
pub(crate) fn take_transaction(places: &mut [Held], at: usize) -> Option<Txn>
    ensures some { IfSome result (λ txn. (slice_get places.old at ≡ Some (Held.Transaction txn)) × (places.new ≡ slice_set places.old at Held.Nothing)) }
    ensures none { IfNone result (HasNoTransaction (slice_get places.old at) × (places.new ≡ places.old)) }
{
    if at >= places.len() {
        return None;
    }
    match mem::replace(&mut places[at], Held::Nothing) {
        Held::Transaction(txn) => Some(txn),
        other => {
            put_back(places, at, other);
            None
        }
    }
}

// Takes out the ticket that the place holds.
pub(crate) fn take_ticket(places: &mut [Held], at: usize) -> Option<Ticket>
    ensures some { IfSome result (λ ticket. (slice_get places.old at ≡ Some (Held.Ticket ticket)) × (places.new ≡ slice_set places.old at Held.Nothing)) }
    ensures none { IfNone result (HasNoTicket (slice_get places.old at) × (places.new ≡ places.old)) }
{
    if at >= places.len() {
        return None;
    }
    match mem::replace(&mut places[at], Held::Nothing) {
        Held::Ticket(ticket) => Some(ticket),
        other => {
            put_back(places, at, other);
            None
        }
    }
}

// Takes out the view that the place holds.
pub(crate) fn take_view(places: &mut [Held], at: usize) -> Option<View>
    ensures some { IfSome result (λ view. (slice_get places.old at ≡ Some (Held.View view)) × (places.new ≡ slice_set places.old at Held.Nothing)) }
    ensures none { IfNone result (HasNoView (slice_get places.old at) × (places.new ≡ places.old)) }
{
    if at >= places.len() {
        return None;
    }
    match mem::replace(&mut places[at], Held::Nothing) {
        Held::View(view) => Some(view),
        other => {
            put_back(places, at, other);
            None
        }
    }
}

// Puts a value into a place that holds nothing.
pub(crate) fn put_back(places: &mut [Held], at: usize, held: Held)
    requires { slice_get places.old at ≡ Some Held.Nothing }
    ensures { places.new ≡ slice_set places.old at held }
{
    if at < places.len() {
        discard(mem::replace(&mut places[at], held));
    } else {
        discard(held);
    }
}

// Spends a value without asking anything of its store.
pub(crate) fn discard(held: Held) {
    match held {
        Held::Nothing => {}
        Held::Transaction(txn) => {
            let _over = txn.spend();
        }
        Held::Ticket(ticket) => ticket.give_up(),
        Held::View(view) => view.spend(),
    }
}
