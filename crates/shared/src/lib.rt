//! Threads over one store under one lock, with an exact count of commits and a published time and floors that never go back.
#![tactic(auto)]

mod cell;
mod change;
mod committed;
mod comparing;
mod copied;
mod jobs;
mod latest;
mod locked;
mod moment;
mod naming;
mod noting;
mod observer;
mod opening;
mod posting;
mod posts;
mod queries;
mod served;
mod shared;
mod shared_txn;
mod shared_view;
mod signals;
mod txn_pass;
mod vacuuming;

pub use cell::{PublishedCell, PublishedTime, Sight, WriterPass};
pub use change::Change;
pub use committed::{CommitFault, Committed};
pub use locked::Locked;
pub use naming::Opening;
pub use observer::Observer;
pub use opening::{Opened, fresh_store};
pub use shared::SharedStore;
pub use shared_txn::SharedTxn;
pub use shared_view::SharedView;
pub use vacuuming::{VacuumEnd, Vacuumed};
