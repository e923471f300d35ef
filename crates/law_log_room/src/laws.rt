//! Laws of the room in the heap of a store whose log lies there.
ghost use Rattle.law_log_room.specs.Laws.{CallLeaves, CreatedLeaves, LastHasRoom, NeverStuck, ReclaimHasRoom, ReclaimIsNeverFull, ReopenedLeaves};
ghost use Rattle.law_log_room.specs.Laws.{RoomLeaves};

/// No reclaim is refused for want of room: not where what the log names leaves room for its base. A new store leaves it, so does one
/// where an archive would have room, and each call keeps it, so after any calls a reclaim has room. Whatever a crash leaves
/// between two calls of a store that leaves it opens as one that does.
pub fn reclaim_has_room()
    ensures room { ReclaimHasRoom }
    ensures created { CreatedLeaves }
    ensures archive { RoomLeaves }
    ensures call { CallLeaves }
    ensures never { ReclaimIsNeverFull }
    ensures reopened { ReopenedLeaves }
{}

/// No archive of all that is published is refused for want of room where no commit waits, and a base that names it keeps its share.
pub fn last_has_room()
    ensures { LastHasRoom }
{}

/// A store is never stuck: a reclaim has room, and behind it an archive of all that is published, and behind that another reclaim. Behind
/// these the log has all of its half again, and a commit of one extent that does not raise the anchors has room.
pub fn never_stuck()
    ensures { NeverStuck }
{}
