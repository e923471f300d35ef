//! The records of a list as a source.

ghost use Rattle.std.specs.Prelude.{◌≡◌};

use crate::record::Record;
use crate::record_ref::RecordRef;
use crate::record_source::RecordSource;

/// Goes over the records of a list.
#[derive(Drop)]
pub struct RecordList<'a> {
    left: &'a [Record],
}

impl<'a> RecordList<'a> {
    /// All records of the list are left.
    pub fn new(records: &'a [Record]) -> RecordList<'a>
        ensures { result.left.now ≡ records.now }
    {
        RecordList { left: records }
    }
}

impl<'a> RecordSource for RecordList<'a> {
    ghost left = { λ c. c.left.now };

    fn peek(&self) -> Option<RecordRef<'_>> {
        match self.left {
            [] => None,
            [record, ..] => Some(record.as_ref()),
        }
    }

    fn advance(&mut self) {
        if let [_, after @ ..] = self.left {
            self.left = after;
        }
    }
}
