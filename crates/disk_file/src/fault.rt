//! Why files are not opened, and what a call on them was refused for.
use disk::Area;
use std::alloc::{AllocError, AllocFailed};
use std::fmt::{Display, Formatter};
use std::{fmt, io};
use thiserror::Error;

/// Why the files of a folder are not opened. The text names the file, and has the system's own words.
#[derive(Debug, Drop, Error)]
pub enum FolderFault {
    /// The folder is there, and has no such file: no store was made in it.
    #[error("{path}: {cause}")]
    Missing { path: String, cause: io::Error },
    /// Another process has the store open.
    #[error("{path}: another process has this store open")]
    InUse { path: String },
    /// The system refused a call.
    #[error("{path}: {cause}")]
    System { path: String, cause: io::Error },
    /// There was no memory for the name of a file.
    #[error("memory was refused")]
    NoMemory,
}

impl From<AllocError> for FolderFault {
    fn from(_: AllocError) -> Self {
        FolderFault::NoMemory
    }
}

impl<T: Drop> From<AllocFailed<T>> for FolderFault {
    fn from(_: AllocFailed<T>) -> Self {
        FolderFault::NoMemory
    }
}

/// A call that the system refused: on which file, and why, in its own words.
#[derive(Debug, Drop)]
pub struct Trouble {
    pub area: Area,
    pub cause: io::Error,
}

/// The file of an area, by its name in the folder.
pub(crate) fn file_name(area: Area) -> &'static str {
    match area {
        Area::Status => "status",
        Area::Heap => "heap",
        Area::Archive => "archive",
    }
}

impl Display for Trouble {
    fn fmt<W: fmt::Write>(&self, f: &mut Formatter<W>) -> fmt::Result {
        write!(f, "{}: {}", file_name(self.area), self.cause)
    }
}
