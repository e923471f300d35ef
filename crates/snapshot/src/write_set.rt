//! Writes in the order of their keys.
ghost use Rattle.std.specs.Prelude.{◌≡◌, ◌≤◌, ◌<◌, length, MatchOption, OnOk, OnErr, None};
ghost use Rattle.history.specs.Key.{write_in};
ghost use Rattle.snapshot.specs.WriteSets.{AreRising, IsPlace, IsPlaceOf, with_write, without};

use chains::SharedValue;
use history::{Key, KeyWrite};
use std::alloc::AllocError;

/// The most keys that a transaction writes.
pub const MOST_KEYS: usize = 1024;

/// The place of the write of a key, counted from 0: `Err` with the place where it belongs, if the key
/// has none.
pub fn place_of<V>(writes: &[KeyWrite<V>], key: Key) -> Result<usize, usize>
    requires { AreRising writes.now }
    ensures { IsPlace key writes.now result }
{
    let place = writes.partition_point(|w| w.key.is_before(key));
    if place < writes.len() && !key.is_before(writes[place].key) {
        Ok(place)
    } else {
        Err(place)
    }
}

/// The same; none where the key has no write and the writes are of `MOST_KEYS` keys already.
pub fn place_with_room<V>(writes: &[KeyWrite<V>], key: Key) -> Option<Result<usize, usize>>
    requires rising { AreRising writes.now }
    requires few { length writes.now ≤ 1024 }
    ensures full { MatchOption result ((write_in writes.now key ≡ None) × (length writes.now ≡ 1024))
        (λ place. (write_in writes.now key ≡ None → length writes.now < 1024)) }
    ensures place { MatchOption result (Unit {0}) (IsPlace key writes.now) }
{
    match place_of(writes, key) {
        Ok(place) => Some(Ok(place)),
        Err(place) if writes.len() < MOST_KEYS => Some(Err(place)),
        Err(_) => None,
    }
}

/// Puts a write at its place, in place of the one that its key has. `Err` where no memory was found: the
/// writes are as they were.
pub fn put_at(
    writes: &mut Vec<KeyWrite<SharedValue>>,
    place: Result<usize, usize>,
    write: KeyWrite<SharedValue>,
) -> Result<(), AllocError>
    requires rising { AreRising writes.old.items }
    requires place { IsPlace write.key writes.old.items place }
    ensures ok { OnOk result (writes.new.items ≡ with_write writes.old.items write) }
    ensures err { OnErr result (writes.new.items ≡ writes.old.items) }
{
    match place {
        Ok(place) => {
            writes[place] = write;
            Ok(())
        }
        Err(place) => match writes.insert(place, write) {
            Ok(()) => Ok(()),
            Err(_) => Err(AllocError),
        },
    }
}

/// Takes the write of a key away, if it has one.
pub fn remove_write(writes: &mut Vec<KeyWrite<SharedValue>>, key: Key)
    requires { AreRising writes.old.items }
    ensures { writes.new.items ≡ without writes.old.items key }
{
    if let Ok(place) = place_of(writes, key) {
        let _removed = writes.remove(place);
    }
}
