//! The answers to queries.
ghost use Rattle.session.specs.Session as told;

use crate::fault::Fault;
use crate::reply::Reply;
use crate::session::Session;
use any_store::{QueryFault, SharedValue, Store};
use disk::Disk;
use history::{Key, Version};

/// Asks for a key's value at a time by a view of now.
fn value_at<D: Disk>(
    store: &mut Store<D>,
    key: Key,
    time: u64,
) -> Result<Option<SharedValue>, QueryFault>
    ensures { told.Asks D.tells store.old key time result store.new }
{
    let Ok(view) = store.view() else {
        return Err(QueryFault::NoMemory);
    };
    let found = store.at(&view, key, time);
    store.end(view);
    found
}

/// Asks for the records of a relation that have a value at a time, by a view of now.
fn scan_at<D: Disk>(
    store: &mut Store<D>,
    relation: u16,
    time: u64,
) -> Result<Vec<(u64, SharedValue)>, QueryFault>
    ensures { told.AsksScan D.tells store.old relation time result store.new }
{
    let Ok(view) = store.view() else {
        return Err(QueryFault::NoMemory);
    };
    let found = store.scan_at(&view, relation, time);
    store.end(view);
    found
}

/// Asks for the rows of a key from one time up to another by a view of now.
fn rows_between<D: Disk>(
    store: &mut Store<D>,
    key: Key,
    a: u64,
    b: u64,
) -> Result<Vec<Version<SharedValue>>, QueryFault>
    ensures { told.AsksRows D.tells store.old key a b result store.new }
{
    let Ok(view) = store.view() else {
        return Err(QueryFault::NoMemory);
    };
    let found = store.between(&view, key, a, b);
    store.end(view);
    found
}

impl<D: Disk> Session<D> {
    pub(crate) fn at(&mut self, key: Key, time: u64) -> Reply
        ensures steps { told.AtStep D.tells self.old.store key time result self.new.store }
        ensures names { told.KeepsNames self.old self.new }
    {
        match value_at(&mut self.store, key, time) {
            Ok(value) => Reply::Found(value),
            Err(fault) => Reply::Refused(Fault::Query(fault)),
        }
    }

    pub(crate) fn scan(&mut self, relation: u16, time: u64) -> Reply
        ensures steps { told.ScanStep D.tells self.old.store relation time result self.new.store }
        ensures names { told.KeepsNames self.old self.new }
    {
        match scan_at(&mut self.store, relation, time) {
            Ok(found) => Reply::Records(found),
            Err(fault) => Reply::Refused(Fault::Query(fault)),
        }
    }

    pub(crate) fn between(&mut self, key: Key, a: u64, b: u64) -> Reply
        ensures steps { told.BetweenStep D.tells self.old.store key a b result self.new.store }
        ensures names { told.KeepsNames self.old self.new }
    {
        match rows_between(&mut self.store, key, a, b) {
            Ok(rows) => Reply::Rows(rows),
            Err(fault) => Reply::Refused(Fault::Query(fault)),
        }
    }

    pub(crate) fn times(&mut self, label: u64) -> Reply
        ensures steps { told.TimesStep D.tells self.old.store label result self.new.store }
        ensures names { told.KeepsNames self.old self.new }
    {
        match self.store.times_of(label) {
            Ok(times) => Reply::Times(times),
            Err(fault) => Reply::Refused(Fault::Query(fault)),
        }
    }
}
