//! A store of records that keeps every version, whatever its layout. One event is one call; no call waits.
#![tactic(auto)]

mod any;
mod engine;
mod formatting;
mod jobs;
mod opening;
mod over;
mod queries;
mod steps;

pub use any::Store;
pub use engine::Engine;
pub use formatting::{Layout, format};
pub use steps::{Did, JobDid};
pub use store::{
    BeginFault, FormatFault, OpenFault, Profile, PumpFault, QueryFault, Redeemed, RowWalk,
    SharedValue, StartFault, SubmitFault, Submitted, Ticket, Txn, TxnFault, View,
};
