//! The record at the beginning of bytes, if it is one that a chain may hold.

ghost use Rattle.std.specs.Prelude.{◌≡◌, ◌≢◌, ◌++◌, ℕ, List, ◌↔◌, IsTrue, IfOk, MatchOption};
ghost use Rattle.deltas.specs.declared.«record».Record.{Record};
ghost use Rattle.deltas.specs.Records.{spelling, IsRecord};
ghost use Rattle.deltas.specs.Chains.{IsPermitted};

use crate::chain::Kinds;
use crate::read::take_record;
use crate::record::Record;
use crate::unpacking::{is_permitted, is_record};
use std::alloc::{AllocError, Global};

fn is_record_of(kinds: Kinds, record: &Record) -> bool
    ensures { IsTrue result ↔ IsRecord «record».now × IsPermitted kinds «record».now.content }
{
    is_record(record) && is_permitted(kinds, &record.content)
}

/// The first record, and what follows it; none where no record of these kinds is spelled there.
pub fn take_record_of(
    alloc: Global,
    kinds: Kinds,
    bytes: &[u8],
) -> Result<Option<(Record, &[u8])>, AllocError>
    ensures { IfOk result (λ o. MatchOption o ((r : Record) (rest : List ℕ) → IsRecord r → IsPermitted kinds r.content → bytes.now ≢ spelling r ++ rest)
        (λ p. IsRecord p.0 × IsPermitted kinds p.0.content × (bytes.now ≡ spelling p.0 ++ p.1.now))) }
{
    let Some((record, rest)) = take_record(alloc, bytes)? else {
        return Ok(None);
    };
    if !is_record_of(kinds, &record) {
        return Ok(None);
    }
    Ok(Some((record, rest)))
}
