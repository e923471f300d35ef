//! Laws of the bytes that the anchors of a state take.
ghost use Rattle.law_log_sizes.specs.Laws.{BaseKeepsStates, BoundsAreSame, ChainsAreOrdered, GroupGrows, GroupIsCounted, GroupIsOrdered};
ghost use Rattle.law_log_sizes.specs.Laws.{MemberComesNext, MemberIsMoved, MembersByChain, MembersGoOn, MostIsBound, OldLenFits, OldLenIs, SizesAreCounted};
ghost use Rattle.law_log_sizes.specs.Laws.{StandingIsOrdered, StateHasAnchors, StateHasSize};

/// The bytes of an anchor are told by its value alone, and there are 4,116 at the most.
pub fn old_len_is()
    ensures len { OldLenIs }
    ensures fits { OldLenFits }
{}

/// The anchors of the state at a time have as many bytes as the number after the last member up to the
/// time says. Each state has one list of anchors.
pub fn state_has_size()
    ensures size { StateHasSize }
    ensures anchors { StateHasAnchors }
{}

/// All states from the reclaim mark on are within a bound of extents exactly where all numbers are, and
/// so where the greatest is.
pub fn bounds_are_same()
    ensures all { BoundsAreSame }
    ensures most { MostIsBound }
{}

/// After more members the numbers go on from the last one; and so they do with a group more.
pub fn numbers_go_on()
    ensures members { MembersGoOn }
    ensures group { GroupGrows }
{}

/// The number after a member follows from the values of its keys before and after it; so does that of a
/// member that comes after others.
pub fn member_is_moved()
    ensures moved { MemberIsMoved }
    ensures next { MemberComesNext }
{}

/// No subtraction goes below zero: the number before a write has the key's old anchor in it.
pub fn sizes_are_counted()
    ensures all { SizesAreCounted }
    ensures group { GroupIsCounted }
{}

/// Where the laws hold: of an image that represents a history, of it with a group more, and of what
/// chains tell that follow each other.
pub fn readings_are_ordered()
    ensures standing { StandingIsOrdered }
    ensures group { GroupIsOrdered }
    ensures chains { ChainsAreOrdered }
    ensures members { MembersByChain }
{}

/// A base in the place of the log's first chains changes no state from its reclaim mark on, and the last
/// number is what it was.
pub fn base_keeps_states()
    ensures { BaseKeepsStates }
{}
