//! What the log names in the archive.
ghost use Rattle.std.specs.Prelude.{◌≡◌, ◌+◌, ◌<◌, ◌^◌, ◌++◌, ◌∷◌, [], IfOk, length};
ghost use Rattle.log_store.specs.Named.{none_named, with_archives};

use log_entries::{Archive, Listed, Roll};
use log_room::BaseParts;
use std::alloc::{AllocError, Global};
use std::marker::Model;

/// What the log names in the archive.
#[derive(Drop)]
pub struct Named {
    // Its archives in their order, those of its base first, also where another took the place of their run.
    archives: Vec<Archive>,
    rolls: Vec<Roll>,
    // The archive mark, in microseconds since 1970: the time up to which ended versions are in the archive.
    upto: u64,
    // The greatest end of all runs and rolls that the log has named since the store was opened, in bytes.
    end: u64,
}

impl Model for Named {
    ghost use Rattle.log_store.specs.Named.{NamedValue};

    ghost Value = { NamedValue };

    ghost view = { λ n. record { archives = n.archives.items; rolls = n.rolls.items; upto = n.upto; end = n.end } };
}

impl Named {
    /// What a log names that has these archives and rolls, with its archive mark and the greatest end of all.
    pub fn new(archives: Vec<Archive>, rolls: Vec<Roll>, upto: u64, end: u64) -> Named
        ensures { result ≡ record { archives = archives.items; rolls = rolls.items; upto = upto; end = end } }
    {
        Named {
            archives,
            rolls,
            upto,
            end,
        }
    }

    /// Nothing.
    pub fn none(alloc: Global) -> Named
        ensures { result ≡ none_named }
    {
        Named::new(Vec::new(alloc), Vec::new(alloc), 0, 0)
    }

    /// Its rolls, in their order.
    pub fn rolls(&self) -> &[Roll]
        ensures { result.now ≡ self.now.rolls }
    {
        self.rolls.as_slice()
    }

    /// The archive mark, in microseconds since 1970.
    pub fn upto(&self) -> u64
        ensures { result ≡ self.now.upto }
    {
        self.upto
    }

    /// Where the next run begins, in bytes: after all that the log has named since the store was opened.
    pub fn end(&self) -> u64
        ensures { result ≡ self.now.end }
    {
        self.end
    }

    /// What a base would name with so many floors.
    pub fn parts(&self, floors: usize) -> BaseParts
        ensures { result ≡ record { rolls = length self.now.rolls; archives = length self.now.archives; floors = floors } }
    {
        BaseParts {
            rolls: self.rolls.len(),
            archives: self.archives.len(),
            floors,
        }
    }

    /// The archives with one more after them.
    pub fn archives_with(
        &self,
        alloc: Global,
        archive: Archive,
    ) -> Result<Listed<Archive>, AllocError>
        ensures { IfOk result (λ archives. archives ≡ self.now.archives ++ archive ∷ []) }
    {
        let mut archives = Vec::new(alloc);
        archives.extend_from_slice(self.archives.as_slice())?;
        archives.push(archive)?;
        Ok(Listed::of(archives))
    }

    /// The log has these archives, of which the last is new.
    pub fn put_archives(&mut self, archives: Listed<Archive>, archive: Archive)
        requires { archive.start + archive.len < 2 ^ 63 }
        ensures { self.new ≡ with_archives archives archive self.old }
    {
        self.archives = archives.into_vec();
        self.upto = archive.upto;
        self.end = archive.start + archive.len;
    }
}
