//! An ARCHIVED at the beginning of bytes.

ghost use Rattle.std.specs.Prelude.{◌≡◌, ◌≤◌, ◌↔◌, length, drop, IsTrue};
ghost use Rattle.log_entries.specs.Spelling.{archive_bytes};
ghost use Rattle.log_entries.specs.Ranges.{IsArchive};
ghost use Rattle.log_entries.specs.Reading.{archive_at};
ghost use Rattle.log_entries.specs.Lengths.{archive_some};

use crate::entry::Archive;
use crate::item::{Item, has_kind};
use byteorder::{ByteOrder, LittleEndian};
use std::alloc::{AllocError, Global};
use wire::{Body, Profile, is_in_range};

/// The byte that an ARCHIVED begins with.
pub(crate) const ARCHIVED: u8 = 6;

/// How many bytes an ARCHIVED has.
pub(crate) const ARCHIVED_LEN: usize = 35;

#[tactic(auto, unfolding(crate::specs::Reading::archive_at))]
fn read_archive(bytes: &[u8]) -> Archive
    requires { 35 ≤ length bytes.now }
    ensures { result ≡ archive_at bytes.now }
{
    Archive {
        upto: LittleEndian::read_u64(&bytes[1..]),
        start: LittleEndian::read_u64(&bytes[9..]),
        len: LittleEndian::read_u64(&bytes[17..]),
        records: LittleEndian::read_u64(&bytes[25..]),
        runs: LittleEndian::read_u16(&bytes[33..]),
    }
}

fn is_archive(archive: &Archive) -> bool
    ensures { IsTrue result ↔ IsArchive archive.now }
{
    // Any number of runs is one.
    let _runs = archive.runs;
    is_in_range(Profile::newest(), &Body::Archived(archive.run()))
}

impl Item for Archive {
    ghost bytes_of = { archive_bytes };

    ghost Is = { IsArchive };

    ghost some = { archive_some };

    fn take(_alloc: Global, bytes: &[u8]) -> Result<Option<(Archive, &[u8])>, AllocError> {
        if !has_kind(bytes, ARCHIVED, ARCHIVED_LEN) {
            return Ok(None);
        }
        let archive = read_archive(bytes);
        if !is_archive(&archive) {
            return Ok(None);
        }
        Ok(Some((archive, &bytes[ARCHIVED_LEN..])))
    }
}
