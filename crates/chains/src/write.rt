//! A write of a shared value, and some writes of one key in the order of their times.
ghost use Rattle.std.specs.Prelude.{◌≡◌, ◌≤◌, ◌&&◌, drop, find, is_none, length, nat_le};
ghost use Rattle.std.specs.Option.{option_copied};
ghost use Rattle.history.specs.Time.{value_at, IsRisingAfter};
ghost use Rattle.chains.specs.Rows as specs;
ghost use Rattle.chains.specs.Writes.{kept_after, is_after, IsBegun};

use crate::shared_value::SharedValue;
use crate::stamped::StampedWrite;

/// Whether the write takes the value away, at the mark or before.
fn is_gone_by(write: &StampedWrite, mark: u64) -> bool
    ensures { result ≡ (nat_le write.now.time mark && is_none write.now.write) }
{
    write.time() <= mark && write.is_deletion()
}

/// When the first of these writes was made, or `end` where there is none.
pub(crate) fn first_time_or(writes: &[StampedWrite], end: u64) -> u64
    ensures { result ≡ specs.first_time_or end writes.now }
{
    match writes {
        [] => end,
        [first, ..] => first.time(),
    }
}

/// How many of the writes were made by a time. They are few and lie together, so they are passed one
/// after another: where they come from far, halving would wait for each step's. The last ones are asked
/// for most.
fn begun_by(writes: &[StampedWrite], time: u64) -> usize
    requires { IsRisingAfter 0 writes.now }
    ensures { IsBegun time writes.now result }
{
    let mut begun = writes.len();
    while begun > 0 && time < writes[begun - 1].time() {
        begun -= 1;
    }
    begun
}

/// The value at a time.
pub(crate) fn value_in(writes: &[StampedWrite], time: u64) -> Option<&SharedValue>
    requires { IsRisingAfter 0 writes.now }
    ensures { option_copied result ≡ value_at writes.now time }
{
    let begun = begun_by(writes, time);
    if begun == 0 {
        return None;
    }
    writes[begun - 1].value()
}

/// The first write made after a time, a deletion too.
pub(crate) fn next_in(writes: &[StampedWrite], time: u64) -> Option<&StampedWrite>
    requires { IsRisingAfter 0 writes.now }
    ensures { option_copied result ≡ find (is_after time) writes.now }
{
    let begun = begun_by(writes, time);
    if begun == writes.len() {
        return None;
    }
    Some(&writes[begun])
}

/// How many of the first writes say nothing of times from the mark on.
pub(crate) fn ended_by(writes: &[StampedWrite], mark: u64) -> usize
    requires { IsRisingAfter 0 writes.now }
    ensures within { result ≤ length writes.now }
    ensures kept { kept_after mark writes.now ≡ drop result writes.now }
{
    let begun = begun_by(writes, mark);
    if begun == 0 {
        return 0;
    }
    if is_gone_by(&writes[begun - 1], mark) {
        return begun;
    }
    begun - 1
}
