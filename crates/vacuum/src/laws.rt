//! What the definitions say, as functions that are proved and do nothing.
ghost use Rattle.vacuum.specs.Laws.{ArchiveIsWalked, ReclaimIsWalked};

/// What a walk over the versions in memory goes over is the plan of an archive, where they are those
/// of the heap.
pub fn archive_is_walked()
    ensures { ArchiveIsWalked }
{}

/// What the other walk goes over is the plan of a reclaim.
pub fn reclaim_is_walked()
    ensures { ReclaimIsWalked }
{}
