//! Plain copies of files.

use crate::fault::Fault;
use crate::numbers::nanoseconds;
use std::fs::{File, OpenOptions};
use std::io;
use std::io::{Read, Write};
use std::rt::Files;
use std::time::{Clock, Instant};

/// The bytes that one call reads or writes.
const PIECE_LEN: usize = 8_192;

/// Copies up to so many bytes of a part. Gives how many; 0 at the end of the file.
fn copy_piece(from: &mut File, to: &mut File, left: u64) -> io::Result<u64> {
    let mut piece = [0; PIECE_LEN];
    let read = from.read(&mut piece)?;
    let count = (read as u64).min(left) as usize;
    to.write_all(&piece[..count])?;
    Ok(count as u64)
}

/// Copies this many bytes, and syncs them.
fn copy(from: &mut File, to: &mut File, bytes: u64) -> io::Result<()> {
    let mut left = bytes;
    for _ in 0..u64::MAX {
        let count = copy_piece(from, to, left)?;
        if count == 0 {
            break;
        }
        left = left.saturating_sub(count);
    }
    to.sync_data()
}

/// The nanoseconds of copying the first bytes of a file to another, which is made, in parts of 8,192
/// bytes, with one sync.
pub(crate) fn time_copy(rt: &HostRuntime, from: &str, to: &str, bytes: u64) -> Result<u64, Fault> {
    let mut source = std::fs::open(rt, from)?;
    let mut target = OpenOptions::new().write(true).create(true).open(rt, to)?;
    let start = Instant::now(rt)?;
    copy(&mut source, &mut target, bytes)?;
    Ok(nanoseconds(rt, &start)?)
}
