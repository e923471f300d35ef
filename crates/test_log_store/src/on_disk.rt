//! A store on a disk in memory, and the bytes that it leaves there.
use disk::{Area, Disk, MemDisk};
use group::{Submitted, Ticket};
use history::Key;
use log_dump::read_dump;
use log_store::{Did, JobDid, LogStore};
use std::alloc::Global;
use std::process::Abort;

/// The steps of a group of one commit in one extent.
pub const ONE_EXTENT: &[Did] = &[
    Did::WroteExtent,
    Did::GateClosed,
    Did::HeapSynced,
    Did::GateWritten,
    Did::Published(1),
];

/// A store in a heap of 64 extents.
pub fn new_store(rt: &impl Abort, alloc: Global) -> LogStore<MemDisk> {
    match LogStore::create(alloc, MemDisk::new(alloc), 1, 64) {
        Ok(store) => store,
        Err((fault, _)) => panic!(rt; "{fault:?}"),
    }
}

/// The store that a disk holds.
pub fn opened<D: Disk>(rt: &impl Abort, alloc: Global, disk: D) -> LogStore<D> {
    match LogStore::open(alloc, disk, 2) {
        Ok(store) => store,
        Err((fault, _)) => panic!(rt; "{fault:?}"),
    }
}

/// A value of these fields is put to these records of relation 1, and the commit is queued with this label, at the time 100.
pub fn queue<D: Disk>(
    rt: &impl Abort,
    alloc: Global,
    store: &mut LogStore<D>,
    records: &[u64],
    fields: &[&[u8]],
    label: u64,
) -> Ticket {
    queue_at(rt, alloc, store, records, fields, label, 100)
}

/// The same, at this time.
pub fn queue_at<D: Disk>(
    rt: &impl Abort,
    alloc: Global,
    store: &mut LogStore<D>,
    records: &[u64],
    fields: &[&[u8]],
    label: u64,
    now: u64,
) -> Ticket {
    let mut txn = match store.begin() {
        Ok(txn) => txn,
        Err(fault) => panic!(rt; "{fault:?}"),
    };
    for record in records {
        let key = Key {
            relation: 1,
            record: *record,
        };
        assert!(rt; txn.put(alloc, key, fields).is_ok());
    }
    match store.submit(txn, label, now) {
        Ok(Submitted::Queued(ticket)) => ticket,
        Ok(Submitted::ReadOnly(_)) => panic!(rt; "nothing was written"),
        Err(fault) => panic!(rt; "{fault:?}"),
    }
}

/// The steps of a group, and that nothing is left to do behind them.
pub fn pumps<D: Disk>(rt: &impl Abort, store: &mut LogStore<D>, steps: &[Did]) {
    for did in steps {
        assert!(rt; store.pump() == Ok(*did));
    }
    assert!(rt; store.pump() == Ok(Did::Idle));
}

/// The steps of the job that runs, and that none runs behind them.
pub fn works<D: Disk>(rt: &impl Abort, store: &mut LogStore<D>, steps: &[JobDid]) {
    for did in steps {
        assert!(rt; store.job_pump() == Ok(*did));
    }
    assert!(rt; store.job_pump() == Ok(JobDid::Idle));
}

/// Steps of the job until none runs. Whether none is refused.
pub fn finishes<D: Disk>(store: &mut LogStore<D>) -> bool {
    for _ in 0..32 {
        match store.job_pump() {
            Ok(JobDid::Idle) => return true,
            Ok(_) => {}
            Err(_) => return false,
        }
    }
    false
}

/// Whether this is the dump of the disk, and no check fails.
pub fn is_log(alloc: Global, disk: &mut MemDisk, text: &[u8]) -> bool {
    match read_dump(alloc, disk) {
        Ok(dump) => dump.fault.is_none() && dump.text.as_slice() == text,
        Err(_) => false,
    }
}

/// Whether these bytes, 64 at the most, are there.
pub fn has_bytes(disk: &mut MemDisk, area: Area, place: u64, bytes: &[u8]) -> bool {
    let mut found = [0; 64];
    let Ok(len) = disk.len(area) else {
        return false;
    };
    if bytes.len() > 64 || len < place || len - place < bytes.len() as u64 {
        return false;
    }
    let found = &mut found[..bytes.len()];
    disk.read(area, place, found).is_ok() && *found == *bytes
}

/// Whether all bytes of the heap from one place to another are this one.
pub fn has_run(disk: &mut MemDisk, from: u64, to: u64, byte: u8) -> bool {
    for place in from..to {
        if !has_bytes(disk, Area::Heap, place, &[byte]) {
            return false;
        }
    }
    true
}

// All bytes of an area.
fn bytes_in(alloc: Global, disk: &mut MemDisk, area: Area) -> Option<Vec<u8>> {
    let len = disk.len(area).ok()?;
    let mut bytes = vec![in alloc; 0; len as usize].ok()?;
    match disk.read(area, 0, &mut bytes) {
        Ok(()) => Some(bytes),
        Err(_) => None,
    }
}

// Whether both have the same bytes in an area.
fn is_same(alloc: Global, one: &mut MemDisk, other: &mut MemDisk, area: Area) -> bool {
    match (bytes_in(alloc, one, area), bytes_in(alloc, other, area)) {
        (Some(these), Some(those)) => these.as_slice() == those.as_slice(),
        _ => false,
    }
}

/// Whether two disks have the same bytes.
pub fn are_alike(alloc: Global, one: &mut MemDisk, other: &mut MemDisk) -> bool {
    is_same(alloc, one, other, Area::Status)
        && is_same(alloc, one, other, Area::Heap)
        && is_same(alloc, one, other, Area::Archive)
}
