//! Laws of lists of calls, each as a function with nothing to do. They speak of a `Trace`: a list of
//! calls as it went from a moment of the store, in `specs/Traces.antt`.
ghost use Rattle.run.specs.Laws.{FirstMoment, MomentSurvives, ImageIsKept, CommitHasItsTime, WriteStands, AsManyAnswers, GoesToItsEnd, CallsLink, StopsSurvive};
ghost use Rattle.run.specs.Laws.{MachineRuns, ListsGoOn, StepIsList, TimesStayKept, FloorsRise, TicketsStay, DoneNamesItsSubmit, PutIsSubmitted};
ghost use Rattle.run.specs.Laws.{DeleteIsSubmitted, WrittenIsFound, ViewsStay, ViewAnswersByItsMoment, RecentAnswersByItsMoment};

use history::laws::Stored;
use std::marker::Model;

/// The values of a store, of which none is made: at this type the laws of histories are those of the
/// store's history, as `history::laws::run_adds::<StoredValue>()`.
pub struct StoredValue;

impl Model for StoredValue {
    ghost use Rattle.std.specs.Prelude.{ℕ, List, []};

    ghost Value = { List (List ℕ) };

    ghost view = { λ none. [] };
}

impl Stored for StoredValue {
    ghost use Rattle.law_image.specs.Values as values;

    ghost IsValue = { values.IsValue };
}

/// A store that represents a machine is at its first moment; whatever a stop may leave at a moment
/// survives; and an image of a history is kept as that.
pub fn stops_survive()
    ensures first { FirstMoment }
    ensures survives { MomentSurvives }
    ensures kept { ImageIsKept }
{}

/// One commit alone has its time, and what it wrote is the value until a later commit of the key.
pub fn writes_stand()
    ensures one { CommitHasItsTime }
    ensures stands { WriteStands }
{}

/// A list has as many answers as calls, each of which links two moments, and goes from its start to
/// its end; the machine runs from each moment to each later one, and whatever a stop may leave at one
/// or within the next call survives.
pub fn calls_link()
    ensures many { AsManyAnswers }
    ensures ends { GoesToItsEnd }
    ensures links { CallsLink }
    ensures runs { MachineRuns }
    ensures stops { StopsSurvive }
{}

/// A list that goes on where another ended is one list with it, and a single call is a list of one.
pub fn lists_go_on()
    ensures more { ListsGoOn }
    ensures step { StepIsList }
{}

/// A time that is kept stays so, unless a call between begins a later floor; and no floor falls.
pub fn times_stay_kept()
    ensures kept { TimesStayKept }
    ensures rise { FloorsRise }
{}

/// A ticket stays in its place until it is spent. Where `Done` is answered for it, the call that gave
/// it submitted a write set, which is published as a commit of the time that is named.
pub fn done_names_its_submit()
    ensures stay { TicketsStay }
    ensures done { DoneNamesItsSubmit }
{}

/// What a transaction put last under a key is what it submits, and so is a delete of what its
/// snapshot has.
pub fn writes_are_submitted()
    ensures put { PutIsSubmitted }
    ensures delete { DeleteIsSubmitted }
    ensures found { WrittenIsFound }
{}

/// A view stays in its place until it is ended, and answers by what was published when it was taken, with
/// the store or from memory alone.
pub fn views_stay()
    ensures stay { ViewsStay }
    ensures answers { ViewAnswersByItsMoment }
    ensures recent { RecentAnswersByItsMoment }
{}
