//! What a store gave out, by number.
ghost use Rattle.std.specs.Prelude.{◌≡◌, ◌<◌, ◌^◌, []};
ghost use Rattle.c_engine.specs.FreePlaces.{AreChained};
ghost use Rattle.c_engine.specs.Numbers.{place_in, stamp_in, tag_in};

use crate::values;
use any_store::{Ticket, Txn, TxnFault, View};
use history::Key;
use std::alloc::Global;
use std::mem;

/// So many values are held at a time.
const MAX_PLACES: usize = 65_536;

// A number has its place in the lowest 16 bits, the stamp of the place in the 32 bits above, and the tag of its
// store in the 15 bits above those. What it grows by where the stamp grows by one:
const STAMP_UNIT: u64 = MAX_PLACES as u64;

// So many stamps a place has, and so many tags there are.
const STAMPS: u64 = 4_294_967_296;

const TAGS: u64 = 32_768;

// The greatest bit of a number: of that which no place has.
const NO_PLACE: u64 = 9_223_372_036_854_775_808;

/// What a place holds.
pub enum Held {
    Nothing,
    Transaction(Txn),
    Ticket(Ticket),
    View(View),
}

impl Held {
    /// Spends a value without asking anything of its store.
    pub fn discard(self) {
        match self {
            Held::Nothing => {}
            Held::Transaction(txn) => {
                let _over = txn.spend();
            }
            Held::Ticket(ticket) => ticket.give_up(),
            Held::View(view) => view.spend(),
        }
    }
}

/// A place is used again under the next stamp.
pub struct Place {
    stamp: u32,
    held: Held,
    // The place that became free before this one did, while it is free.
    next: usize,
}

/// Places of values; a number names a place, its stamp and its store.
pub struct Places {
    places: Vec<Place>,
    // The place that became free last, if one is free.
    free: usize,
    // What the numbers of this store begin with.
    tag: u64,
    pub ghost low: { tag < 32768 },
    pub ghost chained: { ∥ AreChained places.items free ∥₁ },
}

fn number_of(tag: u64, at: usize, stamp: u32) -> u64
    requires at { at < 65536 }
    requires low_tag { tag < 32768 }
    ensures place { place_in result ≡ at }
    ensures stamp { stamp_in result ≡ stamp }
    ensures tag { tag_in result ≡ tag }
    ensures low { result < 2 ^ 63 }
{
    (tag * STAMPS + stamp as u64) * STAMP_UNIT + at as u64
}

impl Places {
    ghost use Rattle.std.specs.Prelude.{◌≢◌, ◌%◌, false, IsTrue, None, Some, option_copied, MatchOption};
    ghost use Rattle.c_engine.specs.declared.places.Held.TheVariants.{Nothing};
    ghost use Rattle.c_engine.specs.FreePlaces.{is_nothing, has_free, AllTaken};
    ghost use Rattle.c_engine.specs.Held.{named, last_number, transaction_in, ticket_in, view_in, SameNumbers, IsKept, IsTaken, IsWritten};
    ghost use Rattle.c_engine.specs.Writes.{Puts, Deletes};

    /// Nothing is held. Numbers have the lowest 15 bits of the mark.
    pub fn new(alloc: Global, mark: u64) -> Places
        ensures none { result.places.items ≡ [] }
        ensures tag { result.tag ≡ mark % 32768 }
    {
        Places {
            places: Vec::new(alloc),
            free: MAX_PLACES,
            tag: mark % TAGS,
        }
    }

    /// A number of this store that names no place.
    pub fn last_number(&self) -> u64
        ensures { result ≡ last_number self.now }
    {
        NO_PLACE + self.tag * (STAMPS * STAMP_UNIT)
    }

    // Whether the place that became free last holds nothing.
    fn has_free(&self) -> bool
        ensures { result ≡ has_free self.now.places.items self.now.free }
    {
        if self.free >= MAX_PLACES {
            return false;
        }
        match self.places.get(self.free) {
            None => false,
            Some(place) => matches!(place.held, Held::Nothing),
        }
    }

    /// Makes a place free where none is; whether one is free then. None is where all are taken, and there are so
    /// many or there is no memory for one more.
    pub fn make_free(&mut self) -> bool
        ensures free { result ≡ has_free self.new.places.items self.new.free }
        ensures same { SameNumbers self.old self.new }
        ensures taken { result ≡ false → AllTaken self.old.places.items }
    {
        if self.has_free() {
            return true;
        }
        self.add_free()
    }

    // One behind all others.
    fn add_free(&mut self) -> bool
        requires { has_free self.old.places.items self.old.free ≡ false }
        ensures free { result ≡ has_free self.new.places.items self.new.free }
        ensures same { SameNumbers self.old self.new }
    {
        let at = self.places.len();
        if at >= MAX_PLACES {
            return false;
        }
        if self.places.reserve(1).is_err() {
            return false;
        }
        self.places.push_reserved(Place {
            stamp: 0,
            held: Held::Nothing,
            next: MAX_PLACES,
        });
        self.free = at;
        true
    }

    /// Keeps a value in the place that became free last.
    pub fn keep_free(&mut self, held: Held) -> u64
        requires free { IsTrue (has_free self.old.places.items self.old.free) }
        requires some { is_nothing held ≡ false }
        ensures { IsKept held result self.old self.new }
    {
        let at = self.free;
        let place = &mut self.places[at];
        let stamp = place.stamp;
        let next = place.next;
        mem::replace(&mut place.held, held).discard();
        self.free = next;
        number_of(self.tag, at, stamp)
    }

    // Takes out what stands under a number, which names nothing from then on.
    fn take(&mut self, number: u64) -> Held
        requires { named self.old number ≢ Nothing }
        ensures held { result ≡ named self.old number }
        ensures taken { IsTaken number self.old self.new }
    {
        let at = (number % STAMP_UNIT) as usize;
        let place = &mut self.places[at];
        place.stamp = place.stamp.wrapping_add(1);
        place.next = self.free;
        let held = mem::replace(&mut place.held, Held::Nothing);
        self.free = at;
        held
    }

    // What stands under a number.
    fn held(&self, number: u64) -> Option<&Held>
        ensures { MatchOption result (named self.now number ≡ Nothing) (λ held. named self.now number ≡ held.now) }
    {
        if number / STAMP_UNIT / STAMPS != self.tag {
            return None;
        }
        let place = self.places.get((number % STAMP_UNIT) as usize)?;
        if place.stamp as u64 == number / STAMP_UNIT % STAMPS {
            Some(&place.held)
        } else {
            None
        }
    }

    /// The transaction of this number; none where the number names none.
    pub fn transaction(&self, number: u64) -> Option<&Txn>
        ensures { option_copied result ≡ transaction_in (named self.now number) }
    {
        match self.held(number) {
            Some(Held::Transaction(txn)) => Some(txn),
            _ => None,
        }
    }

    /// The view of this number; none where the number names none.
    pub fn view(&self, number: u64) -> Option<&View>
        ensures { option_copied result ≡ view_in (named self.now number) }
    {
        match self.held(number) {
            Some(Held::View(view)) => Some(view),
            _ => None,
        }
    }

    /// The ticket of this number; none where the number names none.
    pub fn ticket(&self, number: u64) -> Option<&Ticket>
        ensures { option_copied result ≡ ticket_in (named self.now number) }
    {
        match self.held(number) {
            Some(Held::Ticket(ticket)) => Some(ticket),
            _ => None,
        }
    }

    /// Takes a transaction out.
    pub fn take_transaction(&mut self, number: u64) -> Option<Txn>
        ensures { MatchOption result ((transaction_in (named self.old number) ≡ None) × (self.new ≡ self.old))
            (λ txn. (transaction_in (named self.old number) ≡ Some txn) × IsTaken number self.old self.new) }
    {
        self.transaction(number)?;
        match self.take(number) {
            Held::Transaction(txn) => Some(txn),
            held => {
                held.discard();
                None
            }
        }
    }

    /// Takes a view out.
    pub fn take_view(&mut self, number: u64) -> Option<View>
        ensures { MatchOption result ((view_in (named self.old number) ≡ None) × (self.new ≡ self.old))
            (λ view. (view_in (named self.old number) ≡ Some view) × IsTaken number self.old self.new) }
    {
        self.view(number)?;
        match self.take(number) {
            Held::View(view) => Some(view),
            held => {
                held.discard();
                None
            }
        }
    }

    /// Takes a ticket out.
    pub fn take_ticket(&mut self, number: u64) -> Option<Ticket>
        ensures { MatchOption result ((ticket_in (named self.old number) ≡ None) × (self.new ≡ self.old))
            (λ ticket. (ticket_in (named self.old number) ≡ Some ticket) × IsTaken number self.old self.new) }
    {
        self.ticket(number)?;
        match self.take(number) {
            Held::Ticket(ticket) => Some(ticket),
            held => {
                held.discard();
                None
            }
        }
    }

    /// Writes a value in a transaction; none where the number names none.
    pub fn put(
        &mut self,
        number: u64,
        alloc: Global,
        key: Key,
        value: &[u8],
    ) -> Option<Result<(), TxnFault>>
        ensures { MatchOption result ((transaction_in (named self.old number) ≡ None) × (self.new ≡ self.old))
            (λ outcome. IsWritten number (Puts key value.now) outcome self.old self.new) }
    {
        self.transaction(number)?;
        let at = (number % STAMP_UNIT) as usize;
        match &mut self.places[at].held {
            Held::Transaction(txn) => Some(values::put(txn, alloc, key, value)),
            _ => None,
        }
    }

    /// Deletes in a transaction; none where the number names none.
    pub fn delete(&mut self, number: u64, key: Key) -> Option<Result<(), TxnFault>>
        ensures { MatchOption result ((transaction_in (named self.old number) ≡ None) × (self.new ≡ self.old))
            (λ outcome. IsWritten number (Deletes key) outcome self.old self.new) }
    {
        self.transaction(number)?;
        let at = (number % STAMP_UNIT) as usize;
        match &mut self.places[at].held {
            Held::Transaction(txn) => Some(txn.delete(key)),
            _ => None,
        }
    }

    /// Spends all.
    pub fn give_up(self) {
        let Places {
            mut places,
            free: _,
            tag: _,
        } = self;
        give_up_all(&mut places);
        places.destroy_empty();
    }
}

fn give_up_all(places: &mut Vec<Place>)
    ensures { places.new.items ≡ [] }
{
    while let Some(place) = places.pop() {
        let Place {
            stamp: _,
            held,
            next: _,
        } = place;
        held.discard();
    }
}
