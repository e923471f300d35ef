//! A store of records that keeps every version. One event is one call; no call waits.
#![tactic(auto)]

mod giving_up;
mod job;
mod job_pieces;
mod job_pump;
mod job_slot;
mod opening;
mod over;
mod pump;
mod queries;
mod slot_calls;
mod starting;
mod store;
mod store_archive;

pub use chains::{RowWalk, SharedValue};
pub use group::{BeginFault, Did, PumpFault, Redeemed, SubmitFault, Submitted, Ticket};
pub use job::{JobDid, StartFault};
pub use recovery::{FormatFault, OpenFault, format};
pub use snapshot::{Txn, TxnFault};
pub use store::Store;
pub use timequery::{QueryFault, View};
pub use wire::Profile;
