//! Reading the image of a store whose log lies in the heap.
#![tactic(auto)]

mod all_archives;
mod anchors;
mod apart;
mod archive_parts;
mod chain;
mod ending;
mod image;
mod live;
mod members;
mod members_read;
mod opening;
mod roots;
mod rules;
mod shares;
mod taking;
mod walk;

pub use anchors::AnchorsRead;
pub use chain::LogChain;
pub use ending::{is_end_right, kept_log};
pub use image::{LogRecovered, read_log};
pub use live::{LiveChain, LivePart};
pub use members::{LogMembers, read_members};
pub use members_read::{CommitName, MembersRead};
pub use opening::{AnchoredLog, LogHeap, LogRead, read_base, seen_log};
pub use roots::read_roots;
pub use rules::{LogEnd, RuleCheck, check_rules};
pub use shares::are_anchors_small;
pub use taking::HeapSize;
pub use walk::{ChainsRead, has_open_gate, read_log_chain};
