//! Laws of opening.
ghost use Rattle.law_log_opening.specs.Laws.{ArchiveFailsOnce, FailsOnce, HoldsOrFails, OpensOrFails, StandsIsSound, StandsOpens};

/// An image that represents a history opens, as the log by which it does.
pub fn stands_opens()
    ensures { StandsOpens }
{}

/// Where the heap is read no check of it fails, and where checks fail it is one extent that is told. So
/// it is of the runs and rolls that do not end within the archive.
pub fn checks_decide()
    ensures reads { HoldsOrFails }
    ensures once { FailsOnce }
    ensures archive { OpensOrFails }
    ensures archive_once { ArchiveFailsOnce }
{}

/// An image that represents a history is never answered as no store or as damaged: where it does not open,
/// the disk refused a call, or memory was short.
pub fn stands_is_sound()
    ensures { StandsIsSound }
{}
