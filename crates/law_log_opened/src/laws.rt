//! Laws of opening, formatting and closing a store whose log lies in the heap.
ghost use Rattle.law_log_opened.specs.Formats.{FormatMakes, FormatStands, FormatOpens, FormatStops, StopsAreEmpty, StopOpens, CreateStands};
ghost use Rattle.law_log_opened.specs.Laws.{OpenRefusesFor, ImageHasHeader, CloseLeaves, ClosedIsLeft, ReopenStands, ReopenHasRoots, ReopenRefuses};
ghost use Rattle.law_log_opened.specs.Laws.{OpeningStops, SecondStops, OpeningMoments};
ghost use Rattle.law_log_opened.specs.Answers.{StandsAnswers, KeptAnswers, AnswersStay, LabelsStay};

/// Where opening an image that represents a history is refused, the device or memory gave out, the disk still holds the image, and a
/// stop leaves nothing that it might not have left before.
pub fn open_stands()
    ensures { OpenRefusesFor }
{}

/// A formatted disk represents the empty history, and so does a store that is opened on it or created with it. What a stop within a
/// format left has the status area as it was, or an empty first extent: a header that begins its log there represents the empty
/// history too, and so does a store that is opened with it.
pub fn format_stands()
    ensures makes { FormatMakes }
    ensures leaves { FormatStands }
    ensures opens { FormatOpens }
    ensures stops { FormatStops }
    ensures empty { StopsAreEmpty }
    ensures stop_opens { StopOpens }
    ensures creates { CreateStands }
{}

/// Whatever a stop may leave of a closed store's disk has a header of as many extents, and represents a front of the commit order.
pub fn close_leaves()
    ensures { CloseLeaves }
{}

/// A store that is opened again after a stop has as many extents as there were, and represents a front of its commit order, with all that
/// was published. So it does where it was closed. A stop at any moment while it is opened, refused or not, and a second stop leave
/// nothing that the first might not have left.
pub fn reopen_stands()
    ensures opens { ReopenStands }
    ensures refuses { ReopenRefuses }
    ensures stops { OpeningStops }
    ensures second { SecondStops }
    ensures moments { OpeningMoments }
    ensures closed { ClosedIsLeft }
    ensures roots { ReopenHasRoots }
    ensures header { ImageHasHeader }
{}

/// Views are answered by the history, and after a stop as before it. So are the times of a label that are later than the reclaim marks.
pub fn answers_are_kept()
    ensures stands { StandsAnswers }
    ensures kept { KeptAnswers }
    ensures stay { AnswersStay }
    ensures labels { LabelsStay }
{}
