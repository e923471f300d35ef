//! Laws of formatting, whatever the layout.
ghost use Rattle.law_any_store.specs.Formatted.{FormatStands, FormatOpens, SlotStopsStand, LogStopsStand, ImageIsSeen};

/// A formatted disk represents the empty history in its layout, and so does whatever a stop may leave of it, and a store that is opened
/// on that. What a stop within a format left with a header of its layout represents the empty history too, under the conditions that
/// are said of each. A disk that represents a history, in either layout, is seen by a format of any layout, which leaves it as it is.
pub fn format_stands()
    ensures leaves { FormatStands }
    ensures opens { FormatOpens }
    ensures slot_stops { SlotStopsStand }
    ensures log_stops { LogStopsStand }
    ensures seen { ImageIsSeen }
{}
