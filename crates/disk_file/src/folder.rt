//! Opening the files of a folder.
use crate::fault::{FolderFault, file_name};
use disk::Area;
use std::fs::{File, OpenOptions, TryLockError};
use std::io;
use std::rt::Files;

/// What the files of a folder are opened for.
#[derive(Clone, Copy, Debug, PartialEq, Eq)]
pub enum Access {
    /// To make a store: files that are missing are made. No other process may have them open.
    Make,
    /// To work with a store that is there. No other process may have it open.
    Change,
    /// To read files that are there, with others that read them, while no process changes them.
    Read,
}

/// The three files, under a lock on the first of them.
#[derive(Drop)]
pub struct OpenFiles {
    pub status: File,
    pub heap: File,
    pub archive: File,
}

fn options(access: Access) -> OpenOptions {
    let mut how = OpenOptions::new();
    how.read(true)
        .write(access != Access::Read)
        .create(access == Access::Make);
    how
}

// The fault of a call on a file or folder that is there, or should be.
fn refused(path: String, cause: io::Error) -> FolderFault {
    FolderFault::System { path, cause }
}

// The fault of a file that is not opened, in a folder that is there.
fn not_opened(path: String, cause: io::Error) -> FolderFault {
    if cause.kind() == io::ErrorKind::NotFound {
        FolderFault::Missing { path, cause }
    } else {
        refused(path, cause)
    }
}

fn open_folder<R: Files<File = File> + AllocGlobal>(
    rt: &R,
    folder: &str,
) -> Result<File, FolderFault> {
    match OpenOptions::new().read(true).open(rt, folder) {
        Ok(file) => Ok(file),
        Err(cause) => Err(refused(String::from_str(rt.alloc(), folder)?, cause)),
    }
}

fn open_file<R: Files<File = File> + AllocGlobal>(
    rt: &R,
    folder: &str,
    area: Area,
    access: Access,
) -> Result<File, FolderFault> {
    let path = format!(in rt.alloc(); "{folder}/{}", file_name(area))?;
    match options(access).open(rt, path.as_str()) {
        Ok(file) => Ok(file),
        Err(cause) => Err(not_opened(path, cause)),
    }
}

// A lock that holds until the file is closed, also where the process is killed.
fn lock(file: &File, access: Access) -> Result<(), TryLockError> {
    match access {
        Access::Make | Access::Change => file.try_lock(),
        Access::Read => file.try_lock_shared(),
    }
}

fn locked<R: AllocGlobal>(
    rt: &R,
    folder: &str,
    file: File,
    access: Access,
) -> Result<File, FolderFault> {
    match lock(&file, access) {
        Ok(()) => Ok(file),
        Err(TryLockError::WouldBlock) => Err(FolderFault::InUse {
            path: String::from_str(rt.alloc(), folder)?,
        }),
        Err(TryLockError::Error(cause)) => {
            Err(refused(String::from_str(rt.alloc(), folder)?, cause))
        }
    }
}

// Makes new files and their names durable.
fn settle(folder: &File, files: &OpenFiles) -> io::Result<()> {
    files.status.sync_all()?;
    files.heap.sync_all()?;
    files.archive.sync_all()?;
    folder.sync_all()
}

/// Opens the files `status`, `heap` and `archive` of a folder. The lock is taken before anything is
/// made but an empty `status`.
pub fn open_files<R: Files<File = File> + AllocGlobal>(
    rt: &R,
    path: &str,
    access: Access,
) -> Result<OpenFiles, FolderFault> {
    let folder = open_folder(rt, path)?;
    let status = open_file(rt, path, Area::Status, access)?;
    let files = OpenFiles {
        status: locked(rt, path, status, access)?,
        heap: open_file(rt, path, Area::Heap, access)?,
        archive: open_file(rt, path, Area::Archive, access)?,
    };
    if access == Access::Make {
        if let Err(cause) = settle(&folder, &files) {
            return Err(refused(String::from_str(rt.alloc(), path)?, cause));
        }
    }
    Ok(files)
}
