//! Conflicts with commits that are later than a snapshot.
ghost use Rattle.std.specs.Prelude.{◌≡◌, find, map, nat_lt};
ghost use Rattle.chains.specs.KeyWrites.{writes_of};
ghost use Rattle.chains.specs.Writes.{last_time};

use chains::{Frozen, SharedValue};
use history::{Key, KeyWrite};

/// The first of the keys written, which rise, whose last write in these versions is later than the
/// snapshot (in microseconds since 1970): the first committer wins (Berenson et al., SIGMOD 1995).
pub fn first_conflict(
    versions: &Frozen,
    snapshot: u64,
    writes: &[KeyWrite<SharedValue>],
) -> Option<Key>
    ensures { result ≡ find (λ key. nat_lt snapshot (last_time (writes_of versions.now key))) (map (λ w. w.key) writes.now) }
{
    for w in writes {
        if snapshot < versions.last_write(w.key) {
            return Some(w.key);
        }
    }
    None
}
