//! What comes next in a walk over one key's versions.
ghost use Rattle.std.specs.Prelude.{◌≡◌, IfOk, IsTrue, MatchOption, [], option_map};
ghost use Rattle.archive.specs.Answers.{record_of};
ghost use Rattle.vacuum.specs.Archives.{key_records};
ghost use Rattle.vacuum.specs.Ahead.{first_record, IsAheadOf, HasMoved};

use archive::Head;
use chains::{Chain, Part};
use history::Key;
use std::alloc::AllocError;
use wire::Value;

/// Versions of one key that lie together, of which the first one has the next record. So only where
/// they are at their end the key and its versions are searched for again.
#[derive(Drop)]
pub(crate) struct Ahead {
    key: Key,
    part: Part,
}

impl Ahead {
    /// The record of the first of these versions, if that ended by `upto`.
    pub(crate) fn record(&self, upto: u64) -> Option<(Head, &Value)>
        ensures { option_map (λ p. record_of p.0 p.1.now) result ≡ first_record self.now.key upto self.now.part }
    {
        let Some(version) = self.part.peek() else {
            return None;
        };
        if upto < version.to {
            return None;
        }
        let head = Head {
            key: self.key,
            from: version.from,
            to: version.to,
        };
        Some((head, version.value.value()))
    }
}

/// Goes on after the first of the versions, if there are some. Gives whether the next one of them
/// has a record too.
pub(crate) fn moves(ahead: &mut Option<Ahead>, upto: u64) -> bool
    ensures { IsTrue result → HasMoved upto ahead.old ahead.new }
{
    let Some(found) = ahead else {
        return false;
    };
    found.part.advance();
    found.record(upto).is_some()
}

/// What comes next of a key of which the versions that ended by `passed` are done, if there is a
/// record.
pub(crate) fn ahead_in(chain: &Chain, passed: u64, upto: u64) -> Result<Option<Ahead>, AllocError>
    ensures { IfOk result (λ found. MatchOption found (key_records passed upto chain.now ≡ []) (IsAheadOf passed upto chain.now)) }
{
    let Some(part) = chain.part_after(passed, upto)? else {
        return Ok(None);
    };
    let key = chain.key();
    let ahead = Ahead { key, part };
    if ahead.record(upto).is_none() {
        return Ok(None);
    }
    Ok(Some(ahead))
}
