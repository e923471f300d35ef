//! What a view of a store answers.
use crate::on_disk::{ONE_EXTENT, new_store, pumps, queue};
use chains::SharedValue;
use disk::MemDisk;
use history::{Key, Version};
use log_store::LogStore;
use std::alloc::Global;
use std::process::Abort;
use std::test::Fail;

const SEVEN: Key = Key {
    relation: 1,
    record: 7,
};

/// A row: from when, up to when, and its value's one field.
pub type Row = (u64, u64, &'static [u8]);

pub fn is_value(value: &SharedValue, field: &[u8]) -> bool {
    value.value().len() == 1 && value.value().field(0) == Some(field)
}

fn is_row(row: &Version<SharedValue>, want: &Row) -> bool {
    row.from == want.0 && row.to == want.1 && is_value(&row.value, want.2)
}

fn are_values(found: &[(u64, SharedValue)], want: &[(u64, &'static [u8])]) -> bool {
    for (place, one) in found.iter().enumerate() {
        let Some(part) = want.get(place) else {
            return false;
        };
        if one.0 != part.0 || !is_value(&one.1, part.1) {
            return false;
        }
    }
    found.len() == want.len()
}

pub fn are_rows(rows: &[Version<SharedValue>], want: &[Row]) -> bool {
    for (place, row) in rows.iter().enumerate() {
        let Some(part) = want.get(place) else {
            return false;
        };
        if !is_row(row, part) {
            return false;
        }
    }
    rows.len() == want.len()
}

fn are_scanned(rows: &[(u64, Version<SharedValue>)], want: &[(u64, Row)]) -> bool {
    for (place, row) in rows.iter().enumerate() {
        let Some(part) = want.get(place) else {
            return false;
        };
        if row.0 != part.0 || !is_row(&row.1, &part.1) {
            return false;
        }
    }
    rows.len() == want.len()
}

// A store with record 7 put at 100, and records 7 and 9 at 101.
fn with_two_commits(rt: &impl Abort, alloc: Global) -> LogStore<MemDisk> {
    let mut store = new_store(rt, alloc);
    queue(rt, alloc, &mut store, &[7], &[b"a"], 9).give_up();
    pumps(rt, &mut store, ONE_EXTENT);
    queue(rt, alloc, &mut store, &[7, 9], &[b"b"], 10).give_up();
    pumps(rt, &mut store, ONE_EXTENT);
    store
}

#[test]
fn a_view_tells_values(rt: HostRuntime) -> Result<(), Fail> {
    let mut store = with_two_commits(&rt, rt.alloc());
    let Ok(view) = store.view() else {
        panic!(rt; "no view");
    };
    assert!(rt; view.last() == 101);
    match store.at(&view, SEVEN, 100) {
        Ok(Some(value)) => assert!(rt; is_value(&value, b"a")),
        _ => panic!(rt; "no value at 100"),
    }
    match store.at(&view, SEVEN, 101) {
        Ok(Some(value)) => assert!(rt; is_value(&value, b"b")),
        _ => panic!(rt; "no value at 101"),
    }
    assert!(rt; matches!(store.at(&view, SEVEN, 99), Ok(None)));
    match store.scan_at(&view, 1, 100) {
        Ok(found) => assert!(rt; are_values(&found, &[(7, b"a")])),
        Err(fault) => panic!(rt; "{fault:?}"),
    }
    match store.scan_at(&view, 1, 101) {
        Ok(found) => assert!(rt; are_values(&found, &[(7, b"b"), (9, b"b")])),
        Err(fault) => panic!(rt; "{fault:?}"),
    }
    store.end(view);
    let _disk = store.close();
    Ok(())
}

#[test]
fn a_view_tells_rows(rt: HostRuntime) -> Result<(), Fail> {
    let mut store = with_two_commits(&rt, rt.alloc());
    let Ok(view) = store.view() else {
        panic!(rt; "no view");
    };
    match store.between(&view, SEVEN, 0, 102) {
        Ok(rows) => assert!(rt; are_rows(&rows, &[(100, 101, b"a"), (101, 102, b"b")])),
        Err(fault) => panic!(rt; "{fault:?}"),
    }
    match store.scan_between(&view, 1, 100, 102) {
        Ok(rows) => {
            assert!(rt;
                are_scanned(
                    &rows,
                    &[
                        (7, (100, 101, b"a")),
                        (7, (101, 102, b"b")),
                        (9, (101, 102, b"b")),
                    ],
                )
            )
        }
        Err(fault) => panic!(rt; "{fault:?}"),
    }
    store.end(view);
    let _disk = store.close();
    Ok(())
}
