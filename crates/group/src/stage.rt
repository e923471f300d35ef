//! What is done of the group.

/// The next thing to do for a group. `member` and `extent` count from 0: all extents of the members
/// before, and the first extents of this one, are written.
#[derive(Clone, Copy, Debug, PartialEq, Eq)]
pub enum GroupStage {
    /// There is no group.
    NoGroup,
    /// Extents are being written.
    Storing { member: usize, extent: usize },
    /// Every extent is written and synced.
    Stored,
    /// The group's slot is in the writing.
    Turning,
}

/// What a group needs next.
#[derive(Clone, Copy, Debug, PartialEq, Eq)]
pub enum NextStep {
    /// There is no group and no commit waits.
    Idle,
    /// The next extent of the group is to be written.
    WriteExtent,
    /// The heap is to be synced.
    SyncHeap,
    /// The group's slot is to be begun.
    BeginSlot,
    /// The slot in the writing is to go on.
    AdvanceSlot,
}
