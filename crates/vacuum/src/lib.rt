//! What a run and an anchor chain are made of: walks over frozen versions, which hold no list of their records and take no memory.
#![tactic(auto)]

mod ahead;
mod anchor_source;
mod archive_walk;
pub mod laws;
mod run;

pub use anchor_source::AnchorSource;
pub use archive_walk::{ArchiveWalk, Since};
pub use run::archive_run;
