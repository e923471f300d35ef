//! Values that are given up where others take their places.
ghost use Rattle.std.specs.Prelude.{◌≡◌};

use crate::job::Job;
use status::SlotTurn;
use std::mem;

/// What is given up, not let go.
pub(crate) trait GiveUp {
    fn give_up(self);
}

impl GiveUp for SlotTurn {
    fn give_up(self) {
        SlotTurn::give_up(self);
    }
}

impl GiveUp for Job {
    /// What it has of a slot stays in the writing.
    fn give_up(self) {
        let _work = self.into_work();
    }
}

/// Puts a value into its place, and gives up the one that was there.
pub(crate) fn put_in_place<T: GiveUp>(place: &mut Option<T>, next: Option<T>)
    ensures { place.new ≡ next }
{
    if let Some(before) = mem::replace(place, next) {
        before.give_up();
    }
}
