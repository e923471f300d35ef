//! The first of some versions that ends after a time.
ghost use Rattle.std.specs.Prelude.{◌≡◌, find, option_map};
ghost use Rattle.history.specs.Versions.{version_of, ends_after};
ghost use Rattle.chains.specs.Rows.{versions_upto, version_of_loan};

use crate::shared_value::SharedValue;
use crate::stamped::StampedWrite;
use crate::write::first_time_or;
use history::Version;

/// The version of a write that ends at `to`, if that is after the time.
fn version_after(write: &StampedWrite, to: u64, time: u64) -> Option<Version<&SharedValue>>
    ensures { option_map version_of_loan result ≡ find (ends_after time) (version_of write.now.time to write.now.write) }
{
    let Some(value) = write.value() else {
        return None;
    };
    if to <= time {
        return None;
    }
    Some(Version {
        from: write.time(),
        to,
        value,
    })
}

/// The first version of these writes that ends after the time; the last one ends at `end`.
pub(crate) fn ending_in(
    writes: &[StampedWrite],
    end: u64,
    time: u64,
) -> Option<Version<&SharedValue>>
    ensures { option_map version_of_loan result ≡ find (ends_after time) (versions_upto end writes.now) }
{
    let mut rest = writes;
    while let [first, after @ ..] = rest {
        if let Some(version) = version_after(first, first_time_or(after, end), time) {
            return Some(version);
        }
        rest = after;
    }
    None
}
