//! A write set as the records that the heap has of it.
ghost use Rattle.std.specs.Prelude.{◌≡◌, map, option_copied};
ghost use Rattle.history.specs.declared.key.KeyWrite.{KeyWrite};
ghost use Rattle.law_image.specs.Facts.{latest};
ghost use Rattle.law_image.specs.Plans.{stored_record};
ghost use Rattle.law_image.specs.Values.{Value};
ghost use Rattle.chains.specs.KeyWrites.{writes_of};
ghost use Rattle.deltas.specs.Loans.{record_of_loan};
ghost use Rattle.deltas.specs.Records.{record_of};

use chains::{Frozen, SharedValue};
use deltas::{RecordRef, RecordSource, lend_write};
use history::{ENDLESS, KeyWrite};
use std::marker::Model;
use wire::Value;

fn value_of<'a>(shared: Option<&'a SharedValue>) -> Option<&'a Value>
    ensures { option_copied result ≡ option_copied shared.entry }
{
    match shared {
        None => None,
        Some(shared) => Some(shared.value()),
    }
}

fn record_for<'a>(before: &'a Frozen, write: &'a KeyWrite<SharedValue>) -> RecordRef<'a>
    ensures { record_of_loan result ≡ record_of (stored_record (λ key. latest (writes_of before.now key)) write.now) }
{
    let previous = value_of(before.at(write.key, ENDLESS));
    RecordRef {
        key: write.key,
        content: lend_write(previous, value_of(write.write.as_ref())),
    }
}

/// Goes over the records that the heap has of a write set, in the order of the writes: each as the
/// one record that it is stored as, over the key's latest value in the versions before it, an
/// anchor, a delta or gone. It takes no memory.
#[derive(Drop)]
pub struct WriteRecords<'a> {
    before: &'a Frozen,
    left: &'a [KeyWrite<SharedValue>],
}

impl<'a> Model for WriteRecords<'a> {
    ghost use Rattle.std.specs.Prelude.{List, map};
    ghost use Rattle.law_image.specs.Facts.{latest};
    ghost use Rattle.law_image.specs.Plans.{stored_record};
    ghost use Rattle.chains.specs.KeyWrites.{writes_of};
    ghost use Rattle.deltas.specs.Records.{record_of};
    ghost use Rattle.deltas.specs.declared.«record».Record.{Record};

    ghost Value = { List Record };

    ghost view = { λ s. map record_of (map (stored_record (λ key. latest (writes_of s.before.now key))) s.left.now) };
}

impl<'a> WriteRecords<'a> {
    /// The records of these writes over these versions. All of them are left.
    pub fn new(before: &'a Frozen, writes: &'a [KeyWrite<SharedValue>]) -> WriteRecords<'a>
        ensures { result ≡ map record_of (map (stored_record (λ key. latest (writes_of before.now key))) writes.now) }
    {
        WriteRecords {
            before,
            left: writes,
        }
    }
}

impl<'a> RecordSource for WriteRecords<'a> {
    ghost left = { λ s. s };

    fn peek(&self) -> Option<RecordRef<'_>> {
        match self.left {
            [] => None,
            [write, ..] => Some(record_for(self.before, write)),
        }
    }

    fn advance(&mut self) {
        if let [_, after @ ..] = self.left {
            self.left = after;
        }
    }
}
