//! The fields that a value has otherwise than the one before.

ghost use Rattle.std.specs.Prelude.{◌≡◌, ◌≤◌, ◌<◌, ◌^◌, ◌*◌, length};
ghost use Rattle.law_image.specs.Facts.{mask_of, changed_of};
ghost use Rattle.wire.specs.Fields.{fields_bytes};

use wire::FieldsIter;

/// A bit for each field that differs.
pub fn mask(olds: FieldsIter, news: FieldsIter) -> u16
    requires few { length olds ≤ 16 }
    ensures is { result ≡ mask_of olds.entry news.entry }
    ensures small { result < 2 ^ length olds.entry }
{
    let mut olds = olds;
    let mut news = news;
    let (Some(a), Some(b)) = (olds.take_field(), news.take_field()) else {
        return 0;
    };
    let first = if a == b { 0 } else { 1 };
    first + 2 * mask(olds, news)
}

/// How many bytes spell the fields that differ.
pub fn changed_len(olds: FieldsIter, news: FieldsIter) -> usize
    requires few { length olds ≤ 16 }
    ensures is { result ≡ length (fields_bytes (changed_of olds.entry news.entry)) }
    ensures small { result ≤ 256 * length olds.entry }
{
    let mut olds = olds;
    let mut news = news;
    let (Some(a), Some(b)) = (olds.take_field(), news.take_field()) else {
        return 0;
    };
    let first = if a == b { 0 } else { 1 + b.len() };
    first + changed_len(olds, news)
}
