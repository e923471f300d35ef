//! What opening a store, formatting a disk and closing a store mean: laws, each as a function with nothing to do.
#![tactic(auto)]

ghost use Rattle.law_opening.specs.Laws.{OpenStands, OpenAnswers, OpenRefusesFor, FormatStands, FormatStops, FormatOpens, CloseLeaves, ReopenStands};
ghost use Rattle.law_opening.specs.Laws.{ReopenRefuses, OpeningStops, SecondStops, OpeningMoments, ClosedIsLeft, ReopenHasSlots, ImageHasHeader, StandsAnswers};
ghost use Rattle.law_opening.specs.Laws.{KeptAnswers, AnswersStay, LabelsStay};

/// On an image of a history an opened store represents it, and there is one that opening answers. Where opening is refused, the device or
/// memory gave out, the disk still holds the image, and a stop leaves nothing that it might not have left before.
pub fn open_stands()
    ensures opens { OpenStands }
    ensures answers { OpenAnswers }
    ensures refuses { OpenRefusesFor }
{}

/// A formatted disk represents the empty history, and so does a store that is opened on it.
pub fn format_stands()
    ensures leaves { FormatStands }
    ensures stops { FormatStops }
    ensures opens { FormatOpens }
{}

/// Whatever a stop may leave of a closed store's disk represents a front of the commit order.
pub fn close_leaves()
    ensures { CloseLeaves }
{}

/// A store that is opened again after a stop represents a front of its commit order, with all that
/// was published, and has the slots that there were or, once the gate of a piece might be open, 256
/// more. So it does where it was closed. A stop at any moment while it is opened, refused or not,
/// and a second stop leave nothing that the first might not have left.
pub fn reopen_stands()
    ensures opens { ReopenStands }
    ensures refuses { ReopenRefuses }
    ensures stops { OpeningStops }
    ensures second { SecondStops }
    ensures moments { OpeningMoments }
    ensures closed { ClosedIsLeft }
    ensures slots { ReopenHasSlots }
    ensures header { ImageHasHeader }
{}

/// Views are answered by the history, and after a stop as before it. So are the times of a label.
pub fn answers_are_kept()
    ensures stands { StandsAnswers }
    ensures kept { KeptAnswers }
    ensures stay { AnswersStay }
    ensures labels { LabelsStay }
{}
