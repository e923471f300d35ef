//! A view asks for as many growths of memory at a thousand keys as at sixteen.
use crate::written::key_of;
use any_store::{Did, Layout, Store, Submitted, View};
use disk::MemDisk;
use shared::fresh_store;
use std::alloc::Global;
use std::fs;
use std::process::Abort;
use std::rt::Files;
use std::test::Fail;

/// So many views that one growth for each could not be missed: it would take some hundred pages at least.
const VIEWS: usize = 200_000;

/// A view that lets go of what it holds where it is dropped.
struct Held {
    view: View,
}

impl Drop for Held {
    fn drop(self) {
        let Held { view } = self;
        view.spend();
    }
}

/// Writes this many keys in one commit, and publishes it.
fn write_keys(rt: &impl Abort, alloc: Global, store: &mut Store<MemDisk>, keys: u64) {
    let mut txn = match store.begin() {
        Ok(txn) => txn,
        Err(fault) => panic!(rt; "{fault:?}"),
    };
    for record in 0..keys {
        assert!(rt; txn.put(alloc, key_of(record), &[b"a".as_slice()]).is_ok());
    }
    match store.submit(txn, 9, 100) {
        Ok(Submitted::Queued(ticket)) => ticket.give_up(),
        _ => panic!(rt; "not queued"),
    }
    for _ in 0..100 {
        if store.pump() == Ok(Did::Published(1)) {
            return;
        }
    }
    panic!(rt; "not published");
}

/// The pages of memory that this process has, as the system counts them.
fn pages(rt: &(impl Files + AllocGlobal + Abort)) -> Result<u64, Fail> {
    let text = fs::read_to_string(rt, "/proc/self/statm")?;
    match text.split(' ').next() {
        Some(word) => Ok(word.parse()?),
        None => Err(Fail::from("no count")),
    }
}

fn take_views(rt: &impl Abort, store: &Store<MemDisk>, views: &mut Vec<Held>) {
    for _ in 0..VIEWS {
        match store.view() {
            Ok(view) => assert!(rt; views.push(Held { view }).is_ok()),
            Err(_) => panic!(rt; "no view"),
        }
    }
}

/// How many pages more the process has once it has the views, beside the places for them.
fn pages_of_views(
    rt: &(impl Files + AllocGlobal + Abort),
    store: &Store<MemDisk>,
) -> Result<u64, Fail> {
    let mut views = Vec::with_capacity(rt.alloc(), VIEWS)?;
    let _warm = pages(rt)?;
    let before = pages(rt)?;
    take_views(rt, store, &mut views);
    Ok(pages(rt)?.saturating_sub(before))
}

#[test]
fn views_ask_for_no_memory_whatever_they_show(rt: HostRuntime) -> Result<(), Fail> {
    let alloc = rt.alloc();
    for keys in [16, 1024] {
        let Ok(mut store) = fresh_store(alloc, MemDisk::new(alloc), Layout::Slots(64), 1) else {
            return Err(Fail::from("no store"));
        };
        write_keys(&rt, alloc, &mut store, keys);
        let found = pages_of_views(&rt, &store);
        let _disk = store.close();
        assert_eq!(rt; found?, 0, "{keys} keys");
    }
    Ok(())
}
