//! Laws of opening, closing and stops, whatever the layout.
ghost use Rattle.law_any_store.specs.Opened.{OpenStands, OpenRefusesFor, ImageHasHeader, CloseLeaves, ClosedIsLeft, ReopenStands, ReopenHasHeader};
ghost use Rattle.law_any_store.specs.Opened.{ReopenRefuses, OpeningStops, SecondStops, OpeningMoments, StandsAnswers, KeptAnswers, AnswersStay};

/// On an image of a history an opened store represents it. Where opening is refused, the device or memory gave out, the disk still
/// holds the image, and a stop leaves nothing that it might not have left before.
pub fn open_stands()
    ensures opens { OpenStands }
    ensures refuses { OpenRefusesFor }
    ensures header { ImageHasHeader }
{}

/// Whatever a stop may leave of a closed store's disk represents a front of the commit order.
pub fn close_leaves()
    ensures leaves { CloseLeaves }
    ensures closed { ClosedIsLeft }
{}

/// A store that is opened again after a stop represents a front of its commit order, with all that was published, and has the header
/// that there was or, once the gate of a piece might be open, that with the piece; of a log, one of as many extents. A stop at any
/// moment while it is opened, refused or not, and a second stop leave nothing that the first might not have left.
pub fn reopen_stands()
    ensures opens { ReopenStands }
    ensures header { ReopenHasHeader }
    ensures refuses { ReopenRefuses }
    ensures stops { OpeningStops }
    ensures second { SecondStops }
    ensures moments { OpeningMoments }
{}

/// Views are answered by the history, and after a stop as before it.
pub fn answers_are_kept()
    ensures stands { StandsAnswers }
    ensures kept { KeptAnswers }
    ensures stay { AnswersStay }
{}
