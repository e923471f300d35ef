//! The transactions of a store, in memory: those that are open, the commits that wait, the group that is
//! published under one gate, and what is published.
#![tactic(auto)]

mod answers;
mod commit_order;
mod conflict;
mod queued;
mod reclaims;
mod records;
mod sealing;
mod slots;
mod stage;
mod steps;
mod submit;
mod taking;
mod ticket;
mod transactions;

pub use answers::{BeginFault, Did, PumpFault, Redeemed, SubmitFault, Submitted};
pub use commit_order::{CommitHead, CommitOrder, TicketState};
pub use conflict::first_conflict;
pub use queued::{Queued, QueuedParts, StoredExtent};
pub use reclaims::ReserveFault;
pub use records::WriteRecords;
pub use sealing::seal_all;
pub use stage::{GroupStage, NextStep};
pub use steps::MOST_MEMBERS;
pub use taking::{give_back_all, keep_all, keep_taken, take_extents};
pub use ticket::Ticket;
pub use transactions::Transactions;
