//! Transactions: a snapshot to read, and the writes over it.
#![tactic(auto)]

mod open_table;
mod scan;
mod txn;
mod write_set;

pub use open_table::OpenTable;
pub use txn::{Txn, TxnFault, TxnParts};
pub use write_set::MOST_KEYS;
