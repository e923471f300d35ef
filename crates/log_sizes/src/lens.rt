//! The bytes of anchors, write by write.

ghost use Rattle.std.specs.Prelude.{◌≡◌, ◌+◌, ◌-◌, ◌≤◌, ◌<◌, ◌^◌, length};
ghost use Rattle.std.specs.Option.{option_copied};
ghost use Rattle.law_log_sizes.specs.Sizes.{old_len, len_behind};
ghost use Rattle.log_sizes.specs.Counted.{values_in};

use chains::{Frozen, SharedValue};
use history::{ENDLESS, Key, KeyWrite};
use wire::Value;

// The bytes of an anchor beside those of its value's fields.
const FRONT_LEN: u64 = 20;

/// How many bytes the anchor of a value has; 0 where there is no value.
pub fn anchor_len(value: Option<&Value>) -> u64
    ensures is { result ≡ old_len (option_copied value.entry) }
    ensures few { result ≤ 4116 }
{
    match value {
        None => 0,
        Some(value) => FRONT_LEN + value.fields().spelled().len() as u64,
    }
}

// That of the value that is written, if it is one.
fn len_written(write: &Option<SharedValue>) -> u64
    ensures is { result ≡ old_len write.now }
    ensures few { result ≤ 4116 }
{
    match write {
        None => 0,
        Some(shared) => anchor_len(Some(shared.value())),
    }
}

// That of the value that a key has after all of its writes, if it has one.
fn len_before(before: &Frozen, key: Key) -> u64
    ensures is { result ≡ old_len (values_in before.now key) }
{
    match before.at(key, ENDLESS) {
        None => 0,
        Some(shared) => anchor_len(Some(shared.value())),
    }
}

// The bytes of the anchors behind one write, where they were so many before.
fn len_with(len: u64, before: &Frozen, write: &KeyWrite<SharedValue>) -> u64
    requires { len < 2 ^ 63 }
    ensures is { result ≡ (len - old_len (values_in before.now write.now.key)) + old_len write.now.write }
    ensures few { result ≤ len + 4116 }
{
    let others = len.saturating_sub(len_before(before, write.key));
    others + len_written(&write.write)
}

/// The bytes of the anchors after a commit's writes, where they were so many before, and these are the versions
/// before it.
pub(crate) fn len_with_all(len: u64, before: &Frozen, writes: &[KeyWrite<SharedValue>]) -> u64
    requires counted { len ≤ 2 ^ 62 }
    requires few { length writes.now ≤ 1024 }
    ensures { result ≡ len_behind len (values_in before.now) writes.now }
{
    let mut behind = len;
    let mut rest = writes;
    while let [write, after @ ..] = rest {
        behind = len_with(behind, before, write);
        rest = after;
    }
    behind
}
