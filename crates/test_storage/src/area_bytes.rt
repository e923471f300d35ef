//! The bytes of a disk in memory.
use disk::{Area, Disk, MemDisk};
use std::alloc::{AllocError, Global};

/// Whether an area has these bytes and no more, 8,704 at most.
pub fn holds<D: Disk>(disk: &mut D, area: Area, bytes: &[u8]) -> bool {
    begins(disk, area, bytes) && matches!(disk.len(area), Ok(len) if len == bytes.len() as u64)
}

/// Whether an area begins with these bytes, 8,704 at most.
pub fn begins<D: Disk>(disk: &mut D, area: Area, bytes: &[u8]) -> bool {
    let mut found = [0; 8704];
    let Ok(len) = disk.len(area) else {
        return false;
    };
    if bytes.len() > 8704 || len < bytes.len() as u64 {
        return false;
    }
    let found = &mut found[..bytes.len()];
    disk.read(area, 0, found).is_ok() && *found == *bytes
}

pub fn zeros(alloc: Global, len: usize) -> Result<Vec<u8>, AllocError> {
    vec![in alloc; 0; len]
}

/// Writes a part over bytes, as far as they reach.
pub fn put(bytes: &mut [u8], at: u16, part: &[u8]) {
    for (i, byte) in part.iter().enumerate() {
        let place = at as usize + i;
        if place < bytes.len() {
            bytes[place] = *byte;
        }
    }
}

/// Bytes as parts, each with the place at which it begins.
pub type Parts = &'static [(u16, &'static [u8])];

/// Writes parts over bytes, as far as they reach.
pub fn put_parts(bytes: &mut [u8], parts: Parts) {
    for (at, part) in parts {
        put(bytes, *at, part);
    }
}

/// Whether all are zeros.
fn are_zeros(bytes: &[u8]) -> bool {
    for byte in bytes {
        if *byte != 0 {
            return false;
        }
    }
    true
}

/// Whether bytes begin with this front, and zeros follow.
pub fn begin_with(bytes: &[u8], front: &[u8]) -> bool {
    match bytes.strip_prefix(front) {
        Some(after) => are_zeros(after),
        None => false,
    }
}

/// Whether an area of 8,704 bytes begins with this front, and zeros follow.
pub fn spells(disk: &mut MemDisk, area: Area, front: &[u8]) -> bool {
    let mut found = [0; 8704];
    matches!(disk.len(area), Ok(8704))
        && disk.read(area, 0, &mut found).is_ok()
        && begin_with(&found, front)
}
