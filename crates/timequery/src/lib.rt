//! What a record held at a time.
#![tactic(auto)]

mod fault;
mod homes;
mod recent;
mod rows;
mod runs;
mod store_archive;
mod view;

pub use fault::QueryFault;
pub use runs::Runs;
pub use store_archive::StoreArchive;
pub use view::View;
