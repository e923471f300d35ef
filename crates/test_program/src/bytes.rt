//! The bytes of a disk in memory.
use crate::text::{parts_of_profile, repeated};
use disk::{Area, Disk, FaultDisk};
use std::alloc::Global;

/// All bytes of an area, if it could be read.
pub fn bytes_of(alloc: Global, disk: &mut FaultDisk, area: Area) -> Option<Vec<u8>> {
    let len = disk.len(area).ok()?;
    let mut bytes = vec![in alloc; 0; len as usize].ok()?;
    match disk.read(area, 0, &mut bytes) {
        Ok(()) => Some(bytes),
        Err(_) => None,
    }
}

/// Appends the bytes of a word in hexadecimal, two digits a byte. Whether it is one.
fn push_word(alloc: Global, bytes: &mut Vec<u8>, word: &str) -> bool {
    match hex::decode(alloc, word.as_bytes()) {
        Ok(found) => bytes.extend_from_slice(found.as_slice()).is_ok(),
        Err(_) => false,
    }
}

/// Appends so many zeros, as a word says. Whether it is a number.
fn push_zeros(bytes: &mut Vec<u8>, word: &str) -> bool {
    match word.parse::<u16>() {
        Ok(count) => bytes
            .resize(bytes.len().saturating_add(usize::from(count)), 0)
            .is_ok(),
        Err(_) => false,
    }
}

/// Appends bytes as words spell them, in hexadecimal; `..z` and a number stand for so many zeros.
fn push_words(alloc: Global, bytes: &mut Vec<u8>, words: &str) -> bool {
    let mut zeros = false;
    for word in words.split_whitespace() {
        let pushed = match (word, zeros) {
            ("..z", _) => true,
            (_, true) => push_zeros(bytes, word),
            (_, false) => push_word(alloc, bytes, word),
        };
        if !pushed {
            return false;
        }
        zeros = word == "..z";
    }
    true
}

/// Appends the bytes of a line of the newest profile, as a store of this one has them.
fn push_line(alloc: Global, bytes: &mut Vec<u8>, line: &str, profile: u8) -> bool {
    let (before, ending) = parts_of_profile(line, profile);
    push_words(alloc, bytes, before) && push_words(alloc, bytes, ending)
}

/// Bytes as the lines of a text spell them of the newest profile, and a store of this one has them. None
/// where it spells none.
fn spelled(alloc: Global, text: &str, profile: u8) -> Option<Vec<u8>> {
    let mut bytes = Vec::new(alloc);
    for line in text.lines() {
        if !push_line(alloc, &mut bytes, line, profile) {
            return None;
        }
    }
    Some(bytes)
}

/// Whether an area of a store of this profile has from a place on the bytes that a text spells.
pub fn has_bytes(
    alloc: Global,
    disk: &mut FaultDisk,
    (area, place, text): (Area, usize, &str),
    profile: u8,
) -> bool {
    match (spelled(alloc, text, profile), bytes_of(alloc, disk, area)) {
        (Some(bytes), Some(found)) => match found.get(place..) {
            Some(rest) => rest.starts_with(bytes.as_slice()),
            None => false,
        },
        _ => false,
    }
}

/// Whether an area of a store of this profile has the bytes that the parts of a text spell.
pub fn has_parts(
    alloc: Global,
    disk: &mut FaultDisk,
    area: Area,
    parts: &[(&str, u32)],
    profile: u8,
) -> bool {
    match repeated(alloc, parts) {
        Ok(text) => has_bytes(alloc, disk, (area, 0, text.as_str()), profile),
        Err(_) => false,
    }
}

/// Whether an area has so many bytes.
pub fn is_long(disk: &mut FaultDisk, area: Area, len: u64) -> bool {
    disk.len(area) == Ok(len)
}

/// Whether the heap is so many extents, each beginning with the bytes that its text spells.
pub fn has_extents(alloc: Global, disk: &mut FaultDisk, extents: &[&str], profile: u8) -> bool {
    let mut place: usize = 0;
    for text in extents {
        if !has_bytes(alloc, disk, (Area::Heap, place, text), profile) {
            return false;
        }
        place = place.saturating_add(8192);
    }
    is_long(disk, Area::Heap, place as u64)
}

/// Puts a byte in the place of another. Whether the disk took it.
pub fn change(disk: &mut FaultDisk, area: Area, place: u32, byte: u8) -> bool {
    let written = disk.write_at(area, u64::from(place), &[byte]).is_ok();
    written && disk.sync(area).is_ok()
}

/// Puts bytes in the place of others, as a text spells them, no more than an extent has. Whether the disk
/// took them.
pub fn put(
    alloc: Global,
    disk: &mut FaultDisk,
    (area, place, text): (Area, u32, &str),
    profile: u8,
) -> bool {
    let Some(bytes) = spelled(alloc, text, profile) else {
        return false;
    };
    if bytes.len() > 8192 {
        return false;
    }
    let written = disk
        .write_at(area, u64::from(place), bytes.as_slice())
        .is_ok();
    written && disk.sync(area).is_ok()
}
