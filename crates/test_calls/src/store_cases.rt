//! Cases of a store: steps from its format on, between which it is closed and opened again.
use crate::held::Held;
use crate::store_steps::{Step, is_answered};
use disk::{Area, Disk, MemDisk};
use status::encode_header;
use std::alloc::Global;
use std::process::Abort;
use std::test::Fail;
use store::{Did, JobDid, Profile, Store, format};

/// What the disk of a closed store must have, or what is put on it.
#[derive(Clone, Copy)]
pub enum AtRest {
    /// How many bytes an area has.
    Len(Area, u64),
    /// The bytes from a place of an area on, at most 64.
    Bytes(Area, u64, &'static [u8]),
    /// A byte that is put at a place of the status area.
    Put(u16, u8),
}

/// Lists of steps of an open store, and what its disk has once it is closed.
#[derive(Clone, Copy)]
pub struct Part(pub &'static [&'static [Step]], pub &'static [AtRest]);

/// What a case shows, the slots and the profile of a new store, and its parts.
#[derive(Clone, Copy)]
pub struct Case(pub &'static str, pub u32, pub u32, pub &'static [Part]);

/// The profiles in which relations have one floor, and floors of their own.
pub const ONE_FLOOR: u32 = 2;

pub const OWN_FLOORS: u32 = 3;

pub const SLOT: &[JobDid] = &[
    JobDid::BodyWritten,
    JobDid::BodySynced,
    JobDid::GateWritten,
    JobDid::JobDone,
    JobDid::Idle,
];

/// The record is a from 100 on and b from 110 on.
pub const TWO_COMMITS: &[Step] = &[
    Step::Queue(Some("a"), 100),
    Step::PumpTo(Did::Idle),
    Step::Queue(Some("b"), 110),
    Step::PumpTo(Did::Idle),
];

/// It is gone at 120, and c from 130 on.
pub const TWO_MORE: &[Step] = &[
    Step::Queue(None, 120),
    Step::PumpTo(Did::Idle),
    Step::Queue(Some("c"), 130),
    Step::PumpTo(Did::Idle),
];

/// The archive up to 120 is made, in a run of one piece.
pub const ARCHIVED: &[Step] = &[
    Step::Archive(120, Ok(())),
    Step::Jobs(&[JobDid::WroteRun, JobDid::RunSynced]),
    Step::Jobs(SLOT),
];

/// The heap and memory give up what it has, and no anchor is left.
pub const RECLAIMED: &[Step] = &[
    Step::Reclaim(Ok(())),
    Step::Jobs(&[JobDid::HeapSynced]),
    Step::Jobs(SLOT),
];

pub fn opened(rt: &impl Abort, alloc: Global, disk: MemDisk) -> Store<MemDisk> {
    match Store::open(alloc, disk, 1) {
        Ok(store) => store,
        Err((fault, _)) => panic!(rt; "{fault:?}"),
    }
}

/// Takes lists of steps with a store.
pub fn takes<D: Disk>(
    rt: &impl Abort,
    alloc: Global,
    store: &mut Store<D>,
    what: &str,
    lists: &[&[Step]],
) {
    let mut held = Held::nothing();
    for (list, steps) in lists.iter().enumerate() {
        for (place, step) in steps.iter().enumerate() {
            let right = is_answered(alloc, store, &mut held, step);
            assert!(rt; right, "{what}: list {list}, step {place}");
        }
    }
    held.give_back(store);
}

/// Whether an area has these bytes from a place on, at most 64.
fn has_bytes(disk: &mut MemDisk, area: Area, place: u64, bytes: &[u8]) -> bool {
    let mut found = [0; 64];
    let Ok(len) = disk.len(area) else {
        return false;
    };
    if bytes.len() > 64 || len < place || len - place < bytes.len() as u64 {
        return false;
    }
    let found = &mut found[..bytes.len()];
    disk.read(area, place, found).is_ok() && *found == *bytes
}

pub fn is_at_rest(disk: &mut MemDisk, look: &AtRest) -> bool {
    match *look {
        AtRest::Len(area, len) => disk.len(area) == Ok(len),
        AtRest::Bytes(area, place, bytes) => has_bytes(disk, area, place, bytes),
        AtRest::Put(place, byte) => disk.write_at(Area::Status, place.into(), &[byte]).is_ok(),
    }
}

/// The disk must have all that.
pub fn are_at_rest(rt: &impl Abort, disk: &mut MemDisk, what: &str, looks: &[AtRest]) {
    for (place, look) in looks.iter().enumerate() {
        assert!(rt; is_at_rest(disk, look), "{what}: at rest, look {place}");
    }
}

/// A new store of so many slots and this profile. A format makes one whose relations have floors of
/// their own.
pub fn new_disk(alloc: Global, slots: u32, profile: u32) -> Result<MemDisk, Fail> {
    let mut disk = MemDisk::new(alloc);
    format(alloc, &mut disk, slots)?;
    let profile = Profile::of(profile).unwrap_or(Profile::newest());
    if profile != Profile::newest() {
        disk.write_at(Area::Status, 0, &encode_header(profile, slots))?;
    }
    Ok(disk)
}

/// Takes the steps of a case.
pub fn go(rt: &impl Abort, alloc: Global, case: &Case) -> Result<(), Fail> {
    let mut disk = new_disk(alloc, case.1, case.2)?;
    for part in case.3 {
        let mut store = opened(rt, alloc, disk);
        takes(rt, alloc, &mut store, case.0, part.0);
        disk = store.close();
        are_at_rest(rt, &mut disk, case.0, part.1);
    }
    Ok(())
}
