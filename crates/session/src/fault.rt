//! What a line or a command is refused with.
use any_store::{
    BeginFault, FormatFault, OpenFault, PumpFault, QueryFault, StartFault, SubmitFault, TxnFault,
};
use thiserror::Error;

/// The faults of the crates below, and the session's own. How a script prints them is not said here:
/// see [`crate::write_reply`].
#[derive(Clone, Copy, Debug, Drop, Error)]
pub enum Fault {
    #[error("the name is in use, or stands for nothing of this kind")]
    Name,
    #[error("no time: neither a number nor an instant")]
    Time,
    #[error("memory was refused")]
    NoMemory,
    #[error("the ticket is a stranger's")]
    Stranger,
    #[error("no transaction begins: {0:?}")]
    Begin(#[from] BeginFault),
    #[error("the transaction refuses: {0:?}")]
    Txn(#[from] TxnFault),
    #[error("the submit is refused: {0:?}")]
    Submit(#[from] SubmitFault),
    #[error("the step is refused: {0:?}")]
    Pump(#[from] PumpFault),
    #[error("no job begins: {0:?}")]
    Start(#[from] StartFault),
    #[error("the query is refused: {0:?}")]
    Query(#[from] QueryFault),
    #[error("the store does not open: {0:?}")]
    Open(#[from] OpenFault),
    #[error("the store is not made: {0:?}")]
    Format(#[from] FormatFault),
}
