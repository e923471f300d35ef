//! What a query of rows wants, and how it shows them.
ghost use Rattle.std.specs.Prelude.{◌≡◌};
ghost use Rattle.archive.specs.Answers as answers;

use crate::{Head, follows, precedes};
use history::{Key, Version};
use wire::Value;

/// The versions of the keys from the first to the last, from `a` to `b` (microseconds since 1970).
#[derive(Clone, Copy, Debug, PartialEq, Eq)]
pub(crate) struct Wanted {
    pub first: Key,
    pub last: Key,
    pub a: u64,
    pub b: u64,
}

impl Wanted {
    /// Those of one key.
    pub(crate) fn of_key(key: &Key, a: u64, b: u64) -> Wanted
        ensures { result ≡ answers.of_key key.now a b }
    {
        Wanted {
            first: *key,
            last: *key,
            a,
            b,
        }
    }

    /// Those of one relation.
    pub(crate) fn of_relation(relation: u16, a: u64, b: u64) -> Wanted
        ensures { result ≡ answers.of_relation relation a b }
    {
        Wanted {
            first: Key {
                relation,
                record: 0,
            },
            last: Key {
                relation,
                record: u64::MAX,
            },
            a,
            b,
        }
    }

    /// Whether the head is neither before the first key's part of the interval nor after the last one's.
    pub(crate) fn has(&self, head: &Head) -> bool
        ensures { result ≡ answers.is_wanted self.now head.now }
    {
        !precedes(head, &self.first, self.a) && !follows(head, &self.last, self.b)
    }

    /// Where a walk over records goes on after one with this head that need not look at each: at the
    /// first that is not of a lesser key than this, nor of it and ended by `a`.
    pub(crate) fn skip_to(&self, head: &Head) -> Option<Key>
        ensures { result ≡ answers.skip_to self.now head.now }
    {
        if self.last.record <= head.key.record {
            return None;
        }
        if head.to <= self.a {
            return Some(head.key);
        }
        if head.to < self.b {
            return None;
        }
        Some(Key {
            relation: head.key.relation,
            record: head.key.record + 1,
        })
    }
}

/// A row as an answer shows it: a version, with the number of its record or without.
pub(crate) trait Row: Drop + Sized {
    ghost use Rattle.std.specs.Prelude.{ℕ, List};
    ghost use Rattle.history.specs.declared.time.Version.{Version};

    ghost shown: { ℕ → Version (List (List ℕ)) → Self };

    /// The row of this version of the record of this number.
    fn show(number: u64, version: Version<Value>) -> Self
        ensures { result ≡ shown number version };
}

impl Row for Version<Value> {
    ghost shown = { answers.alone };

    fn show(_: u64, version: Version<Value>) -> Self {
        version
    }
}

impl Row for (u64, Version<Value>) {
    ghost shown = { answers.with_record };

    fn show(number: u64, version: Version<Value>) -> Self {
        (number, version)
    }
}
