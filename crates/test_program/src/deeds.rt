//! What is done in a folder with the files of a store, and what must come of it.
use crate::machine::{text_of, told};
use crate::text::are_answers;
use disk::{Area, Disk};
use disk_file::{Access, FileDisk, FolderFault};
use shell::Action;
use std::alloc::Global;
use std::fs;
use std::rt::Files;
use std::test::Fail;

/// What opening comes to.
pub enum Outcome {
    Opens,
    /// There is no file of this name.
    Misses(&'static str),
    /// Another has the files.
    InUse,
    /// The system refuses it.
    Refused,
}

/// A call of the disk.
pub enum Call {
    /// Bytes that are written from a place on, and whether the disk takes them.
    Writes(Area, u32, &'static [u8], bool),
    Syncs(Area),
    /// The area has these bytes, and no more.
    Has(Area, &'static [u8]),
    /// So many bytes are read from a place on, and whether they are there.
    Reads(Area, u32, u16, bool),
    /// So many calls were made and refused, and the first refused one was this area's.
    Told(u64, u64, Option<Area>),
}

/// What is done in a folder.
pub enum Deed {
    /// The folder is made anew, with nothing in it.
    Anew,
    /// The folder goes, with all that is in it, or only if nothing is.
    Goes,
    EmptyGoes,
    /// Opening in this way comes to this.
    Opening(Access, Outcome),
    /// The same while the files are held in the first way.
    Beside(Access, Access, Outcome),
    /// The files are opened for these calls.
    Calls(Access, &'static [Call]),
    /// The file of this name has these bytes.
    File(&'static str, &'static [u8]),
    /// A file goes, and comes back empty.
    FileGoes(&'static str),
    FileComes(&'static str),
    /// There is nothing of this name.
    Nothing(&'static str),
    /// The files are opened for an action with this script, which says these lines with status 0.
    Does(Access, Action<'static>, &'static str, &'static str),
}

/// Deeds in a folder of this name, on a store of a profile.
pub struct Example {
    pub folder: &'static str,
    pub profile: u8,
    pub deeds: &'static [Deed],
}

/// Whether opening fails so.
fn is_fault(fault: &FolderFault, outcome: &Outcome) -> bool {
    match (fault, outcome) {
        (FolderFault::Missing { path, cause: _ }, Outcome::Misses(name)) => path.as_str() == *name,
        (FolderFault::InUse { path: _ }, Outcome::InUse) => true,
        (FolderFault::System { path: _, cause: _ }, Outcome::Refused) => true,
        _ => false,
    }
}

/// Whether opening comes to this.
fn comes<R: Files<File = fs::File> + AllocGlobal>(
    rt: &R,
    folder: &str,
    access: Access,
    outcome: &Outcome,
) -> bool {
    match FileDisk::open(rt, folder, access) {
        Ok(_disk) => matches!(outcome, Outcome::Opens),
        Err(fault) => is_fault(&fault, outcome),
    }
}

/// Whether opening comes to this while the files are held.
fn comes_beside<R: Files<File = fs::File> + AllocGlobal>(
    rt: &R,
    folder: &str,
    (held, asked): (Access, Access),
    outcome: &Outcome,
) -> bool {
    match FileDisk::open(rt, folder, held) {
        Ok(_disk) => comes(rt, folder, asked, outcome),
        Err(_) => false,
    }
}

/// Whether the area has these bytes, and no more.
fn has(alloc: Global, disk: &mut FileDisk, area: Area, bytes: &[u8]) -> bool {
    let is_long = disk.len(area) == Ok(bytes.len() as u64);
    let Ok(mut found) = vec![in alloc; 0; bytes.len()] else {
        return false;
    };
    is_long && disk.read(area, 0, &mut found).is_ok() && found.as_slice() == bytes
}

/// Whether so many bytes are read from a place on.
fn reads(alloc: Global, disk: &mut FileDisk, (area, at, len): (Area, u32, u16)) -> bool {
    match vec![in alloc; 0; usize::from(len)] {
        Ok(mut bytes) => disk.read(area, u64::from(at), &mut bytes).is_ok(),
        Err(_) => false,
    }
}

/// Whether so many calls were made and refused, and the first refused one is told as this area's.
fn is_told(disk: &FileDisk, made: u64, refused: u64, area: Option<Area>) -> bool {
    let told = match disk.trouble() {
        Some(trouble) => Some(trouble.area),
        None => None,
    };
    disk.made() == made && disk.refused() == refused && told == area
}

/// Makes a call of the disk. Whether it comes as it must.
fn calls(alloc: Global, disk: &mut FileDisk, call: &Call) -> bool {
    match *call {
        Call::Writes(area, at, bytes, taken) => {
            bytes.len() < 100 && disk.write_at(area, u64::from(at), bytes).is_ok() == taken
        }
        Call::Syncs(area) => disk.sync(area).is_ok(),
        Call::Has(area, bytes) => has(alloc, disk, area, bytes),
        Call::Reads(area, at, len, taken) => reads(alloc, disk, (area, at, len)) == taken,
        Call::Told(made, refused, area) => is_told(disk, made, refused, area),
    }
}

/// Makes these calls of the disk.
fn calls_all(alloc: Global, disk: &mut FileDisk, all: &[Call]) -> bool {
    for call in all {
        if !calls(alloc, disk, call) {
            return false;
        }
    }
    true
}

/// Opens the files for these calls.
fn opens_for<R: Files<File = fs::File> + AllocGlobal>(
    rt: &R,
    folder: &str,
    access: Access,
    all: &[Call],
) -> bool {
    match FileDisk::open(rt, folder, access) {
        Ok(mut disk) => calls_all(rt.alloc(), &mut disk, all),
        Err(_) => false,
    }
}

/// Opens the files of a store of this profile for an action, which says these lines with status 0.
fn does<R: Files<File = fs::File> + AllocGlobal>(
    rt: &R,
    (folder, profile): (&str, u8),
    access: Access,
    (action, script, lines): (Action<'_>, &str, &str),
) -> bool {
    match FileDisk::open(rt, folder, access) {
        Ok(disk) => {
            let (said, status, _disk) = told(rt.alloc(), action, disk, script);
            status == 0 && are_answers(text_of(said.as_slice()), lines, profile)
        }
        Err(_) => false,
    }
}

/// Whether the file has these bytes.
fn is_in_file<R: Files + AllocGlobal>(rt: &R, path: &str, bytes: &[u8]) -> bool {
    match fs::read(rt, path) {
        Ok(found) => found.as_slice() == bytes,
        Err(_) => false,
    }
}

/// Whether there is nothing of this name.
fn is_nothing<R: Files + AllocGlobal>(rt: &R, path: &str) -> bool {
    match fs::exists(rt, path) {
        Ok(exists) => !exists,
        Err(_) => false,
    }
}

/// A new folder of this name, in the one where the tests are run.
fn is_made<R: Files + AllocGlobal>(rt: &R, folder: &str) -> bool {
    let _ = fs::remove_dir_all(rt, folder);
    fs::create_dir(rt, folder).is_ok()
}

/// Does a deed with the folder and its files.
fn moves<R: Files + AllocGlobal>(rt: &R, folder: &str, deed: &Deed) -> bool {
    match *deed {
        Deed::Anew => is_made(rt, folder),
        Deed::Goes => fs::remove_dir_all(rt, folder).is_ok(),
        Deed::EmptyGoes => fs::remove_dir(rt, folder).is_ok(),
        Deed::File(path, bytes) => is_in_file(rt, path, bytes),
        Deed::FileGoes(path) => fs::remove_file(rt, path).is_ok(),
        Deed::FileComes(path) => fs::write(rt, path, b"".as_slice()).is_ok(),
        Deed::Nothing(path) => is_nothing(rt, path),
        _ => false,
    }
}

/// Does a deed. Whether it comes as it must.
fn is_done<R: Files<File = fs::File> + AllocGlobal>(
    rt: &R,
    example: &Example,
    deed: &Deed,
) -> bool {
    let folder = example.folder;
    match deed {
        Deed::Opening(access, outcome) => comes(rt, folder, *access, outcome),
        Deed::Beside(held, asked, outcome) => comes_beside(rt, folder, (*held, *asked), outcome),
        Deed::Calls(access, all) => opens_for(rt, folder, *access, all),
        Deed::Does(access, action, script, lines) => {
            let doing = (*action, *script, *lines);
            does(rt, (folder, example.profile), *access, doing)
        }
        _ => moves(rt, folder, deed),
    }
}

/// An example must go: each deed, the first of which has number 0.
fn goes<R: Files<File = fs::File> + AllocGlobal>(rt: &R, example: &Example) -> Result<(), Fail> {
    for (number, deed) in example.deeds.iter().enumerate() {
        if !is_done(rt, example, deed) {
            let folder = example.folder;
            return Err(Fail::new(format_args!("{folder}: deed {number}")));
        }
    }
    Ok(())
}

/// Each example must go.
pub fn each_goes<R: Files<File = fs::File> + AllocGlobal>(
    rt: &R,
    examples: &[Example],
) -> Result<(), Fail> {
    for example in examples {
        goes(rt, example)?;
    }
    Ok(())
}
