//! Records that come one after the other.

ghost use Rattle.std.specs.Prelude.{◌≡◌, List, drop, slice_get, option_map};
ghost use Rattle.deltas.specs.declared.«record».Record.{Record};
ghost use Rattle.deltas.specs.Loans.{record_of_loan};

use crate::record_ref::RecordRef;

/// Records one after the other, each in a loan: going over them takes no memory.
pub trait RecordSource {
    /// The records that are left.
    ghost left: { Self → List Record };

    /// The next record; none at the end.
    fn peek(&self) -> Option<RecordRef<'_>>
        ensures { option_map record_of_loan result ≡ slice_get (left self.now) 0 };

    /// Goes on after the next record. At the end nothing changes.
    fn advance(&mut self)
        ensures { left self.new ≡ drop 1 (left self.old) };
}
