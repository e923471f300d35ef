ghost use Rattle.std.specs.Prelude.{◌≡◌, List, Some, drop, slice_get, option_map};
ghost use Rattle.law_image.specs.Reading.{ArchiveRecord};
ghost use Rattle.archive.specs.Answers.{head_of, record_of};

use crate::Head;
use wire::Value;

/// A walk over the records of a run in their order, one at a time. It can begin again.
pub trait RecordWalk: Drop + Sized {
    /// All of the records.
    ghost all: { Self → List ArchiveRecord };

    /// Those that are left.
    ghost left: { Self → List ArchiveRecord };

    /// The next record: its head and its value.
    fn peek(&self) -> Option<(Head, &Value)>
        ensures { option_map (λ p. record_of p.0 p.1.now) result ≡ slice_get (left self.now) 0 };

    /// Goes on after the next record, which has this head.
    fn advance(&mut self, head: &Head)
        requires { option_map head_of (slice_get (left self.old) 0) ≡ Some head.now }
        ensures left { left self.new ≡ drop 1 (left self.old) }
        ensures all { all self.new ≡ all self.old };

    /// Goes back to the first record.
    fn restart(&mut self)
        ensures left { left self.new ≡ all self.old }
        ensures all { all self.new ≡ all self.old };
}
