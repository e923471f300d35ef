//! A walk over records that a list holds.
ghost use Rattle.std.specs.Prelude.{◌≡◌};

use archive::{Head, RecordWalk};
use wire::Value;

/// The records of a list, in its order.
#[derive(Drop)]
pub struct ListWalk<'a> {
    all: &'a [(Head, Value)],
    left: &'a [(Head, Value)],
}

impl<'a> ListWalk<'a> {
    /// All records of the list are left.
    pub fn new(records: &'a [(Head, Value)]) -> ListWalk<'a>
        ensures all { result.all.now ≡ records.now }
        ensures left { result.left.now ≡ records.now }
    {
        ListWalk {
            all: records,
            left: records,
        }
    }
}

impl<'a> RecordWalk for ListWalk<'a> {
    ghost use Rattle.std.specs.Prelude.{map};
    ghost use Rattle.archive.specs.Answers.{record_of};

    ghost all = { λ w. map (λ r. record_of r.0 r.1) w.all.now };

    ghost left = { λ w. map (λ r. record_of r.0 r.1) w.left.now };

    fn peek(&self) -> Option<(Head, &Value)> {
        match self.left {
            [] => None,
            [record, ..] => Some((record.0, &record.1)),
        }
    }

    fn advance(&mut self, _: &Head) {
        if let [_, after @ ..] = self.left {
            self.left = after;
        }
    }

    fn restart(&mut self) {
        self.left = self.all;
    }
}
