//! A write of a shared value, with its time in one word before it.
ghost use Rattle.std.specs.Prelude.{◌≡◌, ◌<◌, ◌^◌, IfOk, is_none};
ghost use Rattle.std.specs.Option.{option_copied};
ghost use Rattle.chains.specs.Stamps.{stamped, write_of_loan};

use crate::share::Share;
use crate::shared_value::SharedValue;
use history::TimedWrite;
use std::alloc::{AllocError, Global};
use std::marker::Model;
use std::mem::size_of;
use wire::Value;

/// What one commit did to a key, in 80 bytes: a value, or gone from then on.
#[derive(Drop)]
pub(crate) struct StampedWrite {
    // Twice the time, and one more where the key is gone.
    stamp: u64,
    // Where the key is gone this is no value of it: one field with no bytes stands in its place.
    value: SharedValue,
}

impl Model for StampedWrite {
    ghost use Rattle.chains.specs.Writes.{Write};
    ghost use Rattle.chains.specs.Stamps.{stamped};

    ghost Value = { Write };

    ghost view = { λ w. stamped w.stamp w.value };
}

const _: () = prove!(size_of::<StampedWrite>() == 80);

/// A value with no bytes, which takes the place of one. It takes no memory.
fn stand_in(alloc: Global) -> Result<SharedValue, AllocError> {
    match Value::new(alloc, &[&[]]) {
        Ok(value) => Ok(SharedValue::new(value)),
        Err(_) => Err(AllocError),
    }
}

impl Share for StampedWrite {
    fn share(&self) -> Result<Self, AllocError> {
        StampedWrite::holding(self.stamp, &self.value)
    }
}

impl StampedWrite {
    /// The same write.
    pub(crate) fn of(alloc: Global, write: TimedWrite<&SharedValue>) -> Result<Self, AllocError>
        requires { write.time < 2 ^ 63 }
        ensures { IfOk result (λ w. w ≡ write_of_loan write.entry) }
    {
        let TimedWrite { time, write } = write;
        match write {
            Some(value) => StampedWrite::holding(time * 2, value),
            None => Ok(StampedWrite {
                stamp: time * 2 + 1,
                value: stand_in(alloc)?,
            }),
        }
    }

    /// A write with this stamp, and one more holder of a value: a short one is copied from one place to the other.
    #[inline]
    fn holding(stamp: u64, value: &SharedValue) -> Result<Self, AllocError>
        ensures { IfOk result (λ w. w ≡ stamped stamp value.now) }
    {
        match value.value().short_copy() {
            Some(short) => Ok(StampedWrite {
                stamp,
                value: SharedValue::new(short),
            }),
            None => Ok(StampedWrite {
                stamp,
                value: value.share()?,
            }),
        }
    }

    /// When it was made.
    #[inline]
    pub(crate) fn time(&self) -> u64
        ensures { result ≡ self.now.time }
    {
        self.stamp / 2
    }

    /// Whether the key is gone from then on.
    #[inline]
    pub(crate) fn is_deletion(&self) -> bool
        ensures { result ≡ is_none self.now.write }
    {
        self.stamp % 2 == 1
    }

    /// The value; none where the key is gone.
    #[inline]
    pub(crate) fn value(&self) -> Option<&SharedValue>
        ensures { option_copied result ≡ self.now.write }
    {
        if self.stamp % 2 == 1 {
            return None;
        }
        Some(&self.value)
    }

    /// The same write, with its value in a loan.
    pub(crate) fn lent(&self) -> TimedWrite<&SharedValue>
        ensures { write_of_loan result ≡ self.now }
    {
        TimedWrite {
            time: self.time(),
            write: self.value(),
        }
    }
}
