//! What a reclaim has counted stays right while groups are published at the end of the log: laws,
//! each as a function with nothing to do.
ghost use Rattle.law_log_layout.specs.Behind.{NamesAreOne, SharesOfBase, SmallBaseIsLog, BaseStaysByGroup, FreeStays, PlanStaysByGroup};
ghost use Rattle.law_log_layout.specs.Behind.{BaseIsLogBehind, ValuesStay, GroupOfBoth};

/// The names of the log's rolls are one list.
pub fn names_are_one()
    ensures { NamesAreOne }
{}

/// A small base in the place of the log's first chains leaves the log within its shares, so it is a
/// log that represents the same history.
pub fn small_base_is_log()
    ensures shares { SharesOfBase }
    ensures stands { SmallBaseIsLog }
{}

/// With a group at the end of the log, what was counted for a base stays right: the place that it may
/// take, the extents that it is written to, and its anchors.
pub fn base_stays_by_group()
    ensures place { BaseStaysByGroup }
    ensures free { FreeStays }
    ensures plan { PlanStaysByGroup }
{}

/// Whether the base or the group comes first, the log is the same and tells the same.
pub fn base_is_log_behind()
    ensures { BaseIsLogBehind }
{}

/// Two images of one history have the same last values, and the same groups may follow.
pub fn values_stay()
    ensures values { ValuesStay }
    ensures group { GroupOfBoth }
{}
