//! Values and commits of the examples, in memory.
ghost use Rattle.std.specs.Prelude.{◌≡◌, IfOk};
ghost use Rattle.history.specs.Key.{key_of};

use chains::Frozen;
use clock::LAST_TIME;
use history::{Key, KeyWrite};
use std::alloc::Global;
use std::test::Fail;
use store::SharedValue;
use wire::Value;

/// The key of most examples.
pub const SEVEN: Key = Key {
    relation: 1,
    record: 7,
};

/// A value of one field.
pub fn value(alloc: Global, field: &[u8]) -> Result<SharedValue, Fail> {
    Ok(SharedValue::new(Value::new(alloc, &[field])?))
}

/// A value of one field for a record of relation 1.
pub fn put(alloc: Global, record: u64, field: &[u8]) -> Result<KeyWrite<SharedValue>, Fail>
    ensures { IfOk result (λ w. w.key ≡ key_of 1 «record») }
{
    Ok(KeyWrite {
        key: Key {
            relation: 1,
            record,
        },
        write: Some(value(alloc, field)?),
    })
}

/// What commits of one record of relation 1 each leave: their times in microseconds since 1970, which
/// have to rise, the records, and the text that is a record's one field, none where it is gone.
pub fn published(alloc: Global, commits: &[(u64, u64, Option<&str>)]) -> Result<Frozen, Fail> {
    let mut frozen = Frozen::new();
    let mut last = 0;
    for (time, record, text) in commits {
        if *time <= last || *time > LAST_TIME {
            return Err(Fail::from("the times do not rise"));
        }
        let key = Key {
            relation: 1,
            record: *record,
        };
        let write = match text {
            None => None,
            Some(text) => Some(value(alloc, text.as_bytes())?),
        };
        frozen = frozen.with_commit(alloc, *time, &[KeyWrite { key, write }])?;
        last = *time;
    }
    Ok(frozen)
}

/// Whether it is a value of this one field.
pub fn is_value(value: Option<&SharedValue>, field: &[u8]) -> bool {
    match value {
        None => false,
        Some(value) => value.value().len() == 1 && value.value().field(0) == Some(field),
    }
}

/// Whether it is a value of this text as its one field, or no value where there is no text.
pub fn is_text(value: Option<&SharedValue>, text: Option<&str>) -> bool {
    match text {
        None => value.is_none(),
        Some(text) => is_value(value, text.as_bytes()),
    }
}
