//! Records packed into extents, one extent at a time and in no memory of their own.

ghost use Rattle.std.specs.Prelude.{◌≡◌, ◌++◌, ◌-◌, ◌+◌, ◌≤◌, ◌<◌, ◌^◌, ◌∷◌, ℕ, List, length, map, drop, replicate, option_map, IfOk, MatchOption};
ghost use Rattle.deltas.specs.declared.«record».Record.{Record};
ghost use Rattle.deltas.specs.Records.{spelling};
ghost use Rattle.deltas.specs.Loans.{record_of_loan};
ghost use Rattle.deltas.specs.Filling.{first_within, IsFirstBody, IsFilled};

use crate::extent_image::{BODY_LEN, EXTENT_LEN};
use crate::filled_extent::FilledExtent;
use crate::record_ref::RecordRef;
use crate::record_source::RecordSource;
use crate::slice_writer::{loan_len, put_header, put_record};

// The next record, if its bytes fit there.
fn peek_within<S: RecordSource>(source: &S, room: usize) -> Option<RecordRef<'_>>
    ensures is { option_map record_of_loan result ≡ first_within room (S.left source.now) }
    ensures short { (first : Record) (rest : List Record) → S.left source.now ≡ first ∷ rest → length (spelling first) ≤ 4116 }
{
    let record = source.peek()?;
    if loan_len(record) > room {
        return None;
    }
    Some(record)
}

// The first body of the records that are left, and zeros behind it.
fn fill_body<S: RecordSource>(source: &mut S, body: &mut [u8]) -> FilledExtent
    requires { length body.old ≡ 8176 }
    ensures { (bytes : List ℕ) × IsFirstBody (S.left source.old) bytes result (S.left source.new) × (body.new ≡ bytes ++ replicate (8176 - length bytes) 0) }
{
    let mut used = 0;
    let mut records = 0;
    while let Some(record) = peek_within(source, BODY_LEN - used) {
        used = put_record(body, used, record);
        records += 1;
        source.advance();
    }
    body[used..].fill(0);
    FilledExtent {
        records,
        used: used as u32,
    }
}

/// Fills all bytes of the extent of this number, before the extent `next` of its chain or the last
/// where that is 0, with as many of the records that are left as it holds, and goes on after them.
/// Where no record is left, it holds none.
pub fn fill_extent<S: RecordSource>(
    source: &mut S,
    number: u32,
    next: u32,
    image: &mut [u8; EXTENT_LEN],
) -> FilledExtent
    ensures { IsFilled number next (S.left source.old) image.new result (S.left source.new) }
{
    let filled = fill_body(source, &mut image[16..]);
    put_header(image, number, next, filled.used);
    filled
}
