//! What was read of the members.

ghost use Rattle.std.specs.Prelude.{◌≤◌};
ghost use Rattle.chains.specs.KeyWrites.{latest};

use chains::Frozen;
use log_sizes::AnchorSizes;

/// The name of a commit: its time, in microseconds since 1970, and the caller's own number for it.
#[derive(Clone, Copy, Debug, PartialEq, Eq)]
pub struct CommitName {
    pub time: u64,
    pub label: u64,
}

/// The versions of all keys by the anchors and some members, and the names of these.
#[derive(Drop)]
pub struct MembersRead {
    pub versions: Frozen,
    pub commits: Vec<CommitName>,
    /// The time of the last of these commits, or the reclaim mark before the first.
    pub last: u64,
    /// The bytes of the anchors of the state after the last of these commits, and the most of any state up to it.
    pub sizes: AnchorSizes,
    ghost upto_last: { latest versions ≤ last },
}
