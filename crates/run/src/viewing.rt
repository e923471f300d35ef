//! The calls of views, and those that ask of what is published.
ghost use Rattle.std.specs.Prelude.{◌≡◌, ◌++◌, ◌∷◌, []};
ghost use Rattle.run.specs.declared.calls.Call.{Call};
ghost use Rattle.run.specs.Places.{IsShared, copied, view_answer};
ghost use Rattle.run.specs.Runs.{Goes, MakesFew};

use crate::calls::Answer;
use crate::held::{Held, take_view, view_at};
use any_store::{QueryFault, SharedValue, Store, View};
use disk::Disk;
use history::Key;
use std::alloc::AllocError;

pub(crate) fn view<D: Disk>(store: &Store<D>, places: &[Held]) -> (Answer, Held)
    ensures { Goes D.tells store.now places.now Call.View result.0 store.now (places.now ++ result.1 ∷ []) }
{
    let _ = places;
    viewed(store.view())
}

fn viewed(outcome: Result<View, AllocError>) -> (Answer, Held)
    ensures { result ≡ view_answer outcome }
{
    match outcome {
        Ok(view) => (Answer::View(Ok(())), Held::View(view)),
        Err(fault) => (Answer::View(Err(fault)), Held::Nothing),
    }
}

pub(crate) fn at<D: Disk>(
    store: &mut Store<D>,
    places: &[Held],
    view: usize,
    key: Key,
    time: u64,
) -> Answer
    ensures goes { Goes D.tells store.old places.now (Call.At view key time) result store.new (places.now ++ Held.Nothing ∷ []) }
    ensures made { MakesFew store.old store.new }
{
    let Some(asked) = view_at(places, view) else {
        return Answer::Unknown;
    };
    Answer::At(store.at(asked, key, time))
}

pub(crate) fn scan_at<D: Disk>(
    store: &mut Store<D>,
    places: &[Held],
    view: usize,
    relation: u16,
    time: u64,
) -> Answer
    ensures goes { Goes D.tells store.old places.now (Call.ScanAt view relation time) result store.new (places.now ++ Held.Nothing ∷ []) }
    ensures made { MakesFew store.old store.new }
{
    let Some(asked) = view_at(places, view) else {
        return Answer::Unknown;
    };
    Answer::ScanAt(store.scan_at(asked, relation, time))
}

pub(crate) fn between<D: Disk>(
    store: &mut Store<D>,
    places: &[Held],
    view: usize,
    key: Key,
    a: u64,
    b: u64,
) -> Answer
    ensures goes { Goes D.tells store.old places.now (Call.Between view key a b) result store.new (places.now ++ Held.Nothing ∷ []) }
    ensures made { MakesFew store.old store.new }
{
    let Some(asked) = view_at(places, view) else {
        return Answer::Unknown;
    };
    Answer::Between(store.between(asked, key, a, b))
}

pub(crate) fn scan_between<D: Disk>(
    store: &mut Store<D>,
    places: &[Held],
    view: usize,
    relation: u16,
    a: u64,
    b: u64,
) -> Answer
    ensures goes { Goes D.tells store.old places.now (Call.ScanBetween view relation a b) result store.new (places.now ++ Held.Nothing ∷ []) }
    ensures made { MakesFew store.old store.new }
{
    let Some(asked) = view_at(places, view) else {
        return Answer::Unknown;
    };
    Answer::ScanBetween(store.scan_between(asked, relation, a, b))
}

pub(crate) fn recent<D: Disk>(
    store: &Store<D>,
    places: &[Held],
    view: usize,
    key: Key,
    time: u64,
) -> Answer
    ensures { Goes D.tells store.now places.now (Call.Recent view key time) result store.now (places.now ++ Held.Nothing ∷ []) }
{
    let _ = store;
    let Some(asked) = view_at(places, view) else {
        return Answer::Unknown;
    };
    Answer::Recent(owned(asked.recent(key, time)))
}

// One more holder of the value that was found.
fn owned(found: Result<Option<&SharedValue>, QueryFault>) -> Result<Option<SharedValue>, QueryFault>
    ensures { IsShared (copied found.entry) result }
{
    match found {
        Ok(Some(value)) => Ok(Some(value.share()?)),
        Ok(None) => Ok(None),
        Err(fault) => Err(fault),
    }
}

pub(crate) fn end<D: Disk>(store: &mut Store<D>, places: &mut [Held], view: usize) -> Answer
    ensures goes { Goes D.tells store.old places.old (Call.End view) result store.new (places.new ++ Held.Nothing ∷ []) }
    ensures made { MakesFew store.old store.new }
{
    let Some(ended) = take_view(places, view) else {
        return Answer::Unknown;
    };
    store.end(ended);
    Answer::End
}

pub(crate) fn times_of<D: Disk>(store: &mut Store<D>, places: &[Held], label: u64) -> Answer
    ensures goes { Goes D.tells store.old places.now (Call.TimesOf label) result store.new (places.now ++ Held.Nothing ∷ []) }
    ensures made { MakesFew store.old store.new }
{
    let _ = places;
    Answer::TimesOf(store.times_of(label))
}
