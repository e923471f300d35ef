//! Why nothing was measured.

use disk::DeviceFault;
use disk_file::FolderFault;
use std::alloc::AllocError;
use std::io;
use store::{
    BeginFault, FormatFault, OpenFault, PumpFault, QueryFault, StartFault, SubmitFault, TxnFault,
};
use thiserror::Error;

#[derive(Debug, Drop, Error)]
pub(crate) enum Fault {
    #[error("a file is refused: {0}")]
    Io(#[from] io::Error),
    #[error("{0}")]
    Folder(#[from] FolderFault),
    #[error("the disk refuses a call")]
    Device(#[from] DeviceFault),
    #[error("the store is not made: {0:?}")]
    Format(#[from] FormatFault),
    #[error("the store does not open: {0:?}")]
    Open(#[from] OpenFault),
    #[error("no transaction begins: {0:?}")]
    Begin(#[from] BeginFault),
    #[error("the transaction refuses: {0:?}")]
    Txn(#[from] TxnFault),
    #[error("the submit is refused: {0:?}")]
    Submit(#[from] SubmitFault),
    #[error("the step is refused: {0:?}")]
    Pump(#[from] PumpFault),
    #[error("the job does not begin: {0:?}")]
    Start(#[from] StartFault),
    #[error("the query is refused: {0:?}")]
    Query(#[from] QueryFault),
    #[error("memory was refused")]
    Memory(#[from(alloc)] AllocError),
    /// The store answered what it should not have.
    #[error("a wrong answer: {0}")]
    Wrong(&'static str),
}
