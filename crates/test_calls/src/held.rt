//! A transaction and views of a store that are held between its steps, and what they answer.
use crate::answers::{Row, Rows, Value, are_answer, are_scanned, are_values, is_answer};
use crate::published::SEVEN;
use disk::Disk;
use history::Key;
use std::mem;
use store::{Store, Txn, View};

/// Which of the two views that are held.
#[derive(Clone, Copy)]
pub enum Which {
    First,
    Second,
}

/// The transaction and the views that are held.
pub struct Held {
    reader: Option<Txn>,
    first: Option<View>,
    second: Option<View>,
}

impl Held {
    pub fn nothing() -> Held {
        Held {
            reader: None,
            first: None,
            second: None,
        }
    }

    pub fn view(&self, which: Which) -> Option<&View> {
        match which {
            Which::First => self.first.as_ref(),
            Which::Second => self.second.as_ref(),
        }
    }

    /// Holds a view, or none, in the place of what was held.
    pub fn put_view(&mut self, which: Which, view: Option<View>) -> Option<View> {
        match which {
            Which::First => mem::replace(&mut self.first, view),
            Which::Second => mem::replace(&mut self.second, view),
        }
    }

    /// Takes out the transaction, if one is held.
    pub fn take_reader(&mut self) -> Option<Txn> {
        mem::replace(&mut self.reader, None)
    }

    /// Gives back to the store what is held.
    pub fn give_back<D: Disk>(self, store: &mut Store<D>) {
        let Held {
            reader,
            first,
            second,
        } = self;
        end(store, first);
        end(store, second);
        abort(store, reader);
    }
}

/// Ends a view; whether there was one.
pub fn end<D: Disk>(store: &mut Store<D>, view: Option<View>) -> bool {
    match view {
        Some(view) => {
            store.end(view);
            true
        }
        None => false,
    }
}

/// Aborts a transaction; whether there was one.
pub fn abort<D: Disk>(store: &mut Store<D>, txn: Option<Txn>) -> bool {
    match txn {
        Some(txn) => {
            store.abort(txn);
            true
        }
        None => false,
    }
}

/// Whether a transaction is begun and held.
pub fn begin<D: Disk>(store: &mut Store<D>, held: &mut Held) -> bool {
    let Ok(txn) = store.begin() else {
        return false;
    };
    let before = mem::replace(&mut held.reader, Some(txn));
    abort(store, before);
    true
}

/// Whether a view is made and held.
pub fn view<D: Disk>(store: &mut Store<D>, held: &mut Held, which: Which) -> bool {
    let Ok(view) = store.view() else {
        return false;
    };
    let before = held.put_view(which, Some(view));
    end(store, before);
    true
}

pub fn is_at<D: Disk>(
    store: &mut Store<D>,
    view: Option<&View>,
    key: Key,
    time: u64,
    want: Value,
) -> bool {
    let Some(view) = view else {
        return false;
    };
    match store.at(view, key, time) {
        Ok(value) => is_answer(Ok(value.as_ref()), want),
        Err(fault) => is_answer(Err(fault), want),
    }
}

pub fn is_recent(view: Option<&View>, time: u64, want: Value) -> bool {
    match view {
        Some(view) => is_answer(view.recent(SEVEN, time), want),
        None => false,
    }
}

pub fn is_between<D: Disk>(
    store: &mut Store<D>,
    view: Option<&View>,
    a: u64,
    b: u64,
    want: Rows,
) -> bool {
    match view {
        Some(view) => are_answer(&store.between(view, SEVEN, a, b), want),
        None => false,
    }
}

pub fn is_none_at<D: Disk>(
    store: &mut Store<D>,
    view: Option<&View>,
    relation: u16,
    time: u64,
) -> bool {
    match view {
        Some(view) => matches!(store.scan_at(view, relation, time), Ok(found) if found.is_empty()),
        None => false,
    }
}

/// Whether the records of relation 1 have these values at a time, and no others have any.
pub fn is_scan_at<D: Disk>(
    store: &mut Store<D>,
    view: Option<&View>,
    time: u64,
    want: &[(u64, &str)],
) -> bool {
    match view {
        Some(view) => matches!(store.scan_at(view, 1, time), Ok(found) if are_values(&found, want)),
        None => false,
    }
}

/// Whether relation 1 has these rows of its records from one time up to another.
pub fn is_scan_between<D: Disk>(
    store: &mut Store<D>,
    view: Option<&View>,
    a: u64,
    b: u64,
    want: &[(u64, Row)],
) -> bool {
    match view {
        Some(view) => {
            matches!(store.scan_between(view, 1, a, b), Ok(found) if are_scanned(&found, want))
        }
        None => false,
    }
}
