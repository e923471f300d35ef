//! A record whose values lie elsewhere.

ghost use Rattle.std.specs.Prelude.{◌≡◌};

use crate::record::{Content, Record};
use history::Key;
use wire::{Fields, Value};

/// The content of a record, in a loan.
#[derive(Clone, Copy)]
pub enum ContentRef<'a> {
    Anchor(&'a Value),
    Delta { mask: u16, changed: &'a Fields },
    /// The delta of a value over an old one, which has as many fields.
    Changed { old: &'a Value, new: &'a Value },
    Gone,
    Old { from: u64, value: &'a Value },
}

/// A record, in a loan.
#[derive(Clone, Copy)]
pub struct RecordRef<'a> {
    pub key: Key,
    pub content: ContentRef<'a>,
}

ghost use Rattle.deltas.specs.Loans.{content_of_loan, record_of_loan};

impl Content {
    /// The same content, in a loan.
    pub fn as_ref(&self) -> ContentRef<'_>
        ensures { content_of_loan result ≡ self.now }
    {
        match self {
            Content::Anchor(value) => ContentRef::Anchor(value),
            Content::Delta { mask, changed } => ContentRef::Delta {
                mask: *mask,
                changed,
            },
            Content::Gone => ContentRef::Gone,
            Content::Old { from, value } => ContentRef::Old { from: *from, value },
        }
    }
}

impl Record {
    /// The same record, in a loan.
    pub fn as_ref(&self) -> RecordRef<'_>
        ensures { record_of_loan result ≡ self.now }
    {
        RecordRef {
            key: self.key,
            content: self.content.as_ref(),
        }
    }
}
