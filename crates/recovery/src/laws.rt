//! Laws of opening an image, each as a function with nothing to do.
ghost use Rattle.recovery.specs.Laws.{OpensOrFails, FailsOnce, OpensOnce, StandsOpens};

/// Where an image opens no fault is told but one of the device or of memory, and where it does not, one fault is told.
pub fn opens_or_fails()
    ensures opens { OpensOrFails }
    ensures fails { FailsOnce }
{}

/// An image that is opened twice reads the same.
pub fn opens_once()
    ensures { OpensOnce }
{}

/// An image that represents a history is never answered NotAStore or Damaged, and what is read of it is that history.
pub fn stands_opens()
    ensures { StandsOpens }
{}
