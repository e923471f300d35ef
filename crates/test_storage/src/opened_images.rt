//! Images of stores as parts, and what is read of them, look by look.
use crate::area_bytes::{Parts, put, put_parts, zeros};
use crate::worked_bytes::KEY;
use archive::RunEntry;
use disk::{Area, MemDisk};
use extents::Usage;
use floors::Floors;
use history::Key;
use recovery::{OpenFault, Recovered, read_image};
use std::alloc::{AllocError, Global};
use std::process::Abort;
use wire::Run;

/// How long each area of an image is, and what stands in it. The rest is zeros.
#[derive(Clone, Copy)]
pub struct Image {
    pub status_len: usize,
    pub status: &'static [Parts],
    pub heap_len: usize,
    pub heap: &'static [Parts],
    /// How many of the heap's first bytes are 0xff before its parts are put.
    pub stained: usize,
    pub archive_len: usize,
    pub archive: &'static [u8],
}

/// Bytes that stand at places of areas, in the place of those of an image.
pub type Changes = &'static [(Area, u16, &'static [u8])];

/// The first bytes are 0xff, as many as are stained.
fn stain(bytes: &mut [u8], stained: usize) {
    if let Some(front) = bytes.get_mut(..stained) {
        front.fill(0xff);
    }
}

/// An area of so many bytes, with parts put over it list after list.
fn area_of(
    alloc: Global,
    len: usize,
    stained: usize,
    lists: &[Parts],
) -> Result<Vec<u8>, AllocError> {
    let mut bytes = zeros(alloc, len)?;
    stain(&mut bytes, stained);
    for parts in lists {
        put_parts(&mut bytes, parts);
    }
    Ok(bytes)
}

fn change(status: &mut [u8], heap: &mut [u8], changes: Changes) {
    for (area, at, bytes) in changes {
        match area {
            Area::Status => put(status, *at, bytes),
            Area::Heap => put(heap, *at, bytes),
            Area::Archive => {}
        }
    }
}

/// A disk with an image and these changes.
pub fn disk_of(alloc: Global, image: &Image, changes: Changes) -> Result<MemDisk, AllocError> {
    let mut status = area_of(alloc, image.status_len, 0, image.status)?;
    let mut heap = area_of(alloc, image.heap_len, image.stained, image.heap)?;
    let mut archive = zeros(alloc, image.archive_len)?;
    put(&mut archive, 0, image.archive);
    change(&mut status, &mut heap, changes);
    Ok(MemDisk::with_bytes(status, heap, archive))
}

/// What an image is asked, and what it must answer.
#[derive(Clone, Copy)]
pub enum Look {
    /// Its slots and how many are used, how many commits and live chains there are, and how many
    /// extents are used.
    Counts([u64; 5]),
    /// How many slots are used.
    Used(u32),
    /// The time of the last commit, the archive mark and the reclaim mark.
    Times(u64, u64, u64),
    /// The time and the label of the first commit.
    FirstCommit(u64, u64),
    /// How many fields the value of `KEY` has at a time; none where it has no value.
    Fields(u64, Option<u8>),
    /// The only byte of the only field that a key has at a time; none where it has no value.
    Byte(Key, u64, Option<u8>),
    /// When a key was written last.
    LastWrite(Key, u64),
    /// The extent of this number has this usage.
    Has(u32, Usage),
    /// The floor of one relation.
    FloorOf(u16, u64),
    /// The floors: that of all relations, and those of single ones.
    Floors(u64, &'static [(u16, u64)]),
    /// How many runs there are.
    Runs(usize),
    /// A run's place in the log's order, its slot, the archive mark and the floors before its slot.
    Run(usize, Run, u64, u64, &'static [(u16, u64)]),
}

fn counts(found: &Recovered) -> [u64; 5] {
    [
        found.header.slots.into(),
        found.used.into(),
        found.commits.len() as u64,
        found.live.len() as u64,
        found.extents.used().into(),
    ]
}

fn is_first_commit(found: &Recovered, time: u64, label: u64) -> bool {
    match found.commits.first() {
        Some(commit) => commit.time == time && commit.label == label,
        None => false,
    }
}

fn fields_at(found: &Recovered, time: u64) -> Option<u8> {
    let shared = found.chains.at(KEY, time)?;
    Some(shared.value().len())
}

fn byte_at(found: &Recovered, key: Key, time: u64) -> Option<u8> {
    let shared = found.chains.at(key, time)?;
    let field = shared.value().field(0)?;
    field.first().copied()
}

/// The floor of all relations, above which those of single ones are raised one by one.
fn floors_of(alloc: Global, every: u64, raised: &[(u16, u64)]) -> Result<Floors, AllocError> {
    let mut floors = Floors::of_every(every);
    for (relation, floor) in raised {
        floors = floors.raised(alloc, Some(*relation), *floor)?;
    }
    Ok(floors)
}

fn are_floors(alloc: Global, floors: &Floors, every: u64, raised: &[(u16, u64)]) -> bool {
    match floors_of(alloc, every, raised) {
        Ok(want) => {
            floors.is(&want) && floors.every() == every && floors.relations() == raised.len()
        }
        Err(_) => false,
    }
}

/// Whether there is such a run, whatever its floors.
fn is_run(run: Option<&RunEntry>, slot: Run, mark: u64) -> bool {
    match run {
        Some(run) => run.slot == slot && run.mark == mark,
        None => false,
    }
}

fn has_floors(alloc: Global, run: Option<&RunEntry>, every: u64, raised: &[(u16, u64)]) -> bool {
    match run {
        Some(run) => are_floors(alloc, &run.floors, every, raised),
        None => false,
    }
}

fn is_seen(alloc: Global, found: &Recovered, look: &Look) -> bool {
    match *look {
        Look::Counts(want) => counts(found) == want,
        Look::Used(used) => found.used == used,
        Look::Times(last, archived, reclaimed) => {
            (found.last, found.archived, found.reclaimed) == (last, archived, reclaimed)
        }
        Look::FirstCommit(time, label) => is_first_commit(found, time, label),
        Look::Fields(time, count) => fields_at(found, time) == count,
        Look::Byte(key, time, byte) => byte_at(found, key, time) == byte,
        Look::LastWrite(key, time) => found.chains.last_write(key) == time,
        Look::Has(number, usage) => found.extents.has(number, usage),
        Look::FloorOf(relation, floor) => found.floors.at(relation) == floor,
        Look::Floors(every, raised) => are_floors(alloc, &found.floors, every, raised),
        Look::Runs(count) => found.runs.len() == count,
        Look::Run(at, slot, mark, every, raised) => {
            let run = found.runs.get(at);
            is_run(run, slot, mark) && has_floors(alloc, run, every, raised)
        }
    }
}

/// The place of the first look that is answered otherwise.
fn first_unseen(alloc: Global, found: &Recovered, looks: &[Look]) -> Option<usize> {
    for (place, look) in looks.iter().enumerate() {
        if !is_seen(alloc, found, look) {
            return Some(place);
        }
    }
    None
}

/// What a row shows, an image, changes of it, and why it does not open or what is seen of it.
#[derive(Clone, Copy)]
pub struct Opening(
    pub &'static str,
    pub &'static Image,
    pub Changes,
    pub Result<&'static [Look], OpenFault>,
);

/// The place of the first look that is answered otherwise; 0 where it should not have opened.
fn wrong_in(alloc: Global, found: &Recovered, row: &Opening) -> Option<usize> {
    match row.3 {
        Ok(looks) => first_unseen(alloc, found, looks),
        Err(_) => Some(0),
    }
}

/// The same of a row; 0 also where it is refused otherwise than it should be.
fn first_wrong(alloc: Global, row: &Opening) -> Option<usize> {
    let Ok(mut disk) = disk_of(alloc, row.1, row.2) else {
        return Some(0);
    };
    match read_image(alloc, &mut disk) {
        Ok(found) => wrong_in(alloc, &found, row),
        Err(fault) if row.3.err() == Some(fault) => None,
        Err(_) => Some(0),
    }
}

/// Each row must be as it says.
pub fn all_open(rt: &impl Abort, alloc: Global, rows: &[Opening]) {
    for row in rows {
        if let Some(place) = first_wrong(alloc, row) {
            panic!(rt; "{}: look {place}", row.0);
        }
    }
}
