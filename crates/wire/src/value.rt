//! A value: what a store has under a key.

ghost use Rattle.std.specs.Prelude.{[], ◌≡◌, ◌≢◌, ◌<◌, ◌≤◌, ◌↔◌, ◌∷◌, ◌++◌, ℕ, List, length, map, slice_get, option_copied, is_ok, if◌then◌else◌, IfOk, IfSome};
ghost use Rattle.std.specs.Prelude.{MatchOption, IsTrue, Ok, Err};
ghost use Rattle.wire.specs.Fields.{AreShort};
ghost use Rattle.wire.specs.Values.{IsValue, HasSizes, value_bytes};

use crate::fields::{Fields, FieldsIter};
use std::alloc::{AllocError, Global};
use std::marker::Model;

/// 1 to 16 fields of 0 to 255 bytes.
#[derive(Drop)]
pub struct Value {
    fields: Fields,
}

impl Model for Value {
    ghost use Rattle.std.specs.Prelude.{◌<◌, ℕ, List, length};

    ghost Value = { List (List ℕ) };

    ghost view = { λ v. v.fields };

    ghost invariant = { λ v. 0 < length v.fields };
}

/// Why fields are no value.
#[derive(Clone, Copy, Debug, PartialEq, Eq, Drop)]
pub enum ValueFault {
    /// There are none or more than 16, or one has more than 255 bytes.
    BadValue,
    NoMemory,
}

fn have_sizes(parts: &[&[u8]]) -> bool
    ensures { IsTrue result ↔ HasSizes (map (λ part. part.now) parts.now) }
{
    !parts.is_empty() && parts.len() <= 16 && are_short(parts)
}

fn are_short(parts: &[&[u8]]) -> bool
    ensures { IsTrue result ↔ AreShort (map (λ part. part.now) parts.now) }
{
    let mut rest = parts;
    while let [part, after @ ..] = rest {
        if part.len() > 255 {
            return false;
        }
        rest = after;
    }
    true
}

impl Value {
    /// A value of these fields.
    pub fn new(alloc: Global, fields: &[&[u8]]) -> Result<Value, ValueFault>
        ensures made { IfOk result (λ value. value ≡ map (λ field. field.now) fields.now) }
        ensures bad { (result ≡ Err ValueFault.BadValue) ↔ ¬ HasSizes (map (λ field. field.now) fields.now) }
    {
        if !have_sizes(fields) {
            return Err(ValueFault::BadValue);
        }
        match Fields::gather(alloc, fields) {
            Ok(fields) => Ok(Value { fields }),
            Err(_) => Err(ValueFault::NoMemory),
        }
    }

    /// The value of these fields; none where there is no field.
    pub fn of(fields: Fields) -> Option<Value>
        ensures { MatchOption result (fields ≡ []) (λ value. value ≡ fields) }
    {
        if fields.count() == 0 {
            return None;
        }
        Some(Value { fields })
    }

    /// How many fields there are: 1 to 16.
    pub fn len(&self) -> u8
        ensures is { result ≡ length self.now }
        ensures value { IsValue self.now }
    {
        self.fields.count()
    }

    /// The fields.
    pub fn fields(&self) -> &Fields
        ensures { result.now ≡ self.now }
    {
        &self.fields
    }

    /// The fields from the first on.
    pub fn iter(&self) -> FieldsIter<'_>
        ensures { result ≡ self.now }
    {
        self.fields.iter()
    }

    /// The field at a place, counted from 0; none after the last.
    pub fn field(&self, index: usize) -> Option<&[u8]>
        ensures { option_copied result ≡ slice_get self.now index }
    {
        let mut left = self.iter();
        for _ in 0..index {
            if left.take_field().is_none() {
                return None;
            }
        }
        left.take_field()
    }

    /// The same value in memory of its own.
    pub fn copy(&self, alloc: Global) -> Result<Value, AllocError>
        ensures { IfOk result (λ value. value ≡ self.now) }
    {
        Ok(Value {
            fields: self.fields.copy(alloc)?,
        })
    }

    /// The same value where its bytes lie in itself: a copy, which takes no memory and is never refused. None
    /// where they lie in memory of its own.
    #[inline]
    pub fn short_copy(&self) -> Option<Value>
        ensures { IfSome result (λ value. value ≡ self.now) }
    {
        match self.fields.short_copy() {
            None => None,
            Some(fields) => Some(Value { fields }),
        }
    }

    /// The same value, which takes no memory: of one whose bytes lie in memory of its own this is one more holder,
    /// and another one is copied.
    ///
    /// # Errors
    ///
    /// Where the count of holders is at its end.
    pub fn share(&self) -> Result<Value, AllocError>
        ensures { IfOk result (λ value. value ≡ self.now) }
    {
        Ok(Value {
            fields: self.fields.share()?,
        })
    }

    /// Whether the other is the same value.
    pub fn is_same(&self, other: &Value) -> bool
        ensures { IsTrue result ↔ (self.now ≡ other.now) }
    {
        self.fields.is_same(&other.fields)
    }
}

/// Appends the value's bytes: how many fields, and then each as its length and its bytes.
/// An error leaves what was there.
pub fn put_fields(out: &mut Vec<u8>, value: &Value) -> Result<(), AllocError>
    ensures { out.new.items ≡ (if is_ok result then out.old.items ++ value_bytes value.now else out.old.items) }
{
    let len = out.len();
    if out.push(value.len()).is_err() {
        return Err(AllocError);
    }
    let appended = out.extend_from_slice(value.fields.spelled());
    if appended.is_err() {
        out.truncate(len);
    }
    appended
}

/// The first value, and what follows it; none where no value is there.
pub fn take_fields(alloc: Global, bytes: &[u8]) -> Result<Option<(Value, &[u8])>, AllocError>
    ensures { IfOk result (λ o. MatchOption o ((value : List (List ℕ)) (rest : List ℕ) → IsValue value → bytes.now ≢ value_bytes value ++ rest)
        (λ p. IsValue p.0 × (bytes.now ≡ value_bytes p.0 ++ p.1.now))) }
{
    let [count, after @ ..] = bytes else {
        return Ok(None);
    };
    if *count == 0 {
        return Ok(None);
    }
    let Some((fields, rest)) = Fields::take(alloc, *count, after)? else {
        return Ok(None);
    };
    Ok(Some((Value { fields }, rest)))
}

/// Bytes begin with at most one value.
pub fn one_value()
    ensures { (a b : List (List ℕ)) (rest others : List ℕ) → value_bytes a ++ rest ≡ value_bytes b ++ others → (a ≡ b) × (rest ≡ others) }
{}
