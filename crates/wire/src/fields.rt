//! The fields of a value, or some of them.

ghost use Rattle.std.specs.Prelude.{◌≡◌, ◌≤◌, ℕ, length, MatchOption, IfOk, OnOk, IfSome, IsTrue, ◌↔◌, [], ◌∷◌, ◌++◌, ◌+◌, ◌-◌, ◌<◌, ◌⊎◌, map};

use crate::spelled::Spelled;
use std::alloc::{AllocError, Global};
use std::marker::Model;

/// 0 to 16 fields of 0 to 255 bytes. One block of memory holds each as its length and its bytes.
#[derive(Drop)]
pub struct Fields {
    spelled: Spelled,
}

impl Model for Fields {
    ghost use Rattle.std.specs.Prelude.{ℕ, List};
    ghost use Rattle.wire.specs.Fields.{fields_at, AreFields};

    ghost Value = { List (List ℕ) };

    ghost view = { λ f. fields_at f.spelled.count f.spelled.bytes };

    ghost invariant = { λ f. AreFields f.spelled.count f.spelled.bytes };
}

ghost use Rattle.wire.specs.Fields.{HasFields, fields_at, rest_at, AreShort};

// What follows the first field.
fn skip_field(bytes: &[u8]) -> Option<&[u8]>
    ensures { MatchOption result (¬ HasFields 1 bytes.now) (λ rest. HasFields 1 bytes.now × (rest.now ≡ rest_at 1 bytes.now)) }
{
    let [len, after @ ..] = bytes else {
        return None;
    };
    let len = *len as usize;
    if after.len() < len {
        return None;
    }
    Some(&after[len..])
}

// The first field, and the bytes behind it.
fn split(count: u8, bytes: &[u8]) -> (&[u8], &[u8])
    requires some { 0 < count }
    requires has { HasFields count bytes.now }
    ensures has { HasFields (count - 1) result.1.now }
    ensures short { length result.0.now ≤ 255 }
    ensures fields { fields_at count bytes.now ≡ result.0.now ∷ fields_at (count - 1) result.1.now }
{
    let len = bytes[0] as usize;
    (&bytes[1..1 + len], &bytes[1 + len..])
}

// What follows that many fields.
fn skip_fields(count: u8, bytes: &[u8]) -> Option<&[u8]>
    ensures { MatchOption result (¬ HasFields count bytes.now) (λ rest. HasFields count bytes.now × (rest.now ≡ rest_at count bytes.now)) }
{
    let mut rest = bytes;
    for _ in 0..count {
        let Some(after) = skip_field(rest) else {
            return None;
        };
        rest = after;
    }
    Some(rest)
}

// The bytes that fields take, each with its length.
fn bytes_of(parts: &[&[u8]]) -> usize {
    let mut bytes = 0usize;
    for part in parts {
        bytes = bytes.saturating_add(part.len()).saturating_add(1);
    }
    bytes
}

fn are_same(a: &[u8], b: &[u8]) -> bool
    ensures { IsTrue result ↔ (a.now ≡ b.now) }
{
    a == b
}

impl Fields {
    ghost use Rattle.wire.specs.Fields.{fields_bytes, AreAllFields};

    /// That many fields at the beginning, and what follows them; none where they aren't there, or
    /// are more than 16.
    pub fn take(
        alloc: Global,
        count: u8,
        bytes: &[u8],
    ) -> Result<Option<(Fields, &[u8])>, AllocError>
        ensures { IfOk result (λ o. MatchOption o (¬ ((count ≤ 16) × HasFields count bytes.now))
            (λ p. (count ≤ 16) × HasFields count bytes.now × (p.0 ≡ fields_at count bytes.now) × (p.1.now ≡ rest_at count bytes.now))) }
    {
        if count > 16 {
            return Ok(None);
        }
        let Some(rest) = skip_fields(count, bytes) else {
            return Ok(None);
        };
        let spelled = Spelled::of(alloc, count, &bytes[..bytes.len() - rest.len()])?;
        Ok(Some((Fields { spelled }, rest)))
    }

    /// How many fields there are: at most 16.
    pub fn count(&self) -> u8
        ensures is { result ≡ length self.now }
        ensures few { result ≤ 16 }
        ensures fields { AreAllFields self.now }
    {
        self.spelled.count()
    }

    /// No field.
    pub fn none(alloc: Global) -> Fields
        ensures { result ≡ [] }
    {
        Fields {
            spelled: Spelled::new(alloc),
        }
    }

    // No field yet, and memory for so many bytes.
    fn with_room(alloc: Global, bytes: usize) -> Result<Fields, AllocError>
        ensures { IfOk result (λ fields. fields ≡ []) }
    {
        Ok(Fields {
            spelled: Spelled::with_room(alloc, bytes)?,
        })
    }

    /// These fields, and one more; none where there are 16, or it has more than 255 bytes.
    pub fn with(self, field: &[u8]) -> Result<Option<Fields>, AllocError>
        ensures { IfOk result (λ o. MatchOption o ((16 ≤ length self) ⊎ (256 ≤ length field.now)) (λ fields. fields ≡ self ++ field.now ∷ [])) }
    {
        if self.count() >= 16 || field.len() > 255 {
            return Ok(None);
        }
        let mut fields = self;
        fields.push(field)?;
        Ok(Some(fields))
    }

    // One field more.
    fn push(&mut self, field: &[u8]) -> Result<(), AllocError>
        requires few { length self.old < 16 }
        requires short { length field.now ≤ 255 }
        ensures { OnOk result (self.new ≡ self.old ++ field.now ∷ []) }
    {
        self.spelled.push(field)?;
        Ok(())
    }

    /// These fields, each copied.
    pub(crate) fn gather(alloc: Global, parts: &[&[u8]]) -> Result<Fields, AllocError>
        requires few { length parts.now ≤ 16 }
        requires short { AreShort (map (λ part. part.now) parts.now) }
        ensures { IfOk result (λ fields. fields ≡ map (λ part. part.now) parts.now) }
    {
        let mut fields = Fields::with_room(alloc, bytes_of(parts))?;
        let mut rest = parts;
        while let [part, after @ ..] = rest {
            fields.push(part)?;
            rest = after;
        }
        Ok(fields)
    }

    /// The same fields in memory of their own.
    pub fn copy(&self, alloc: Global) -> Result<Fields, AllocError>
        ensures { IfOk result (λ fields. fields ≡ self.now) }
    {
        Ok(Fields {
            spelled: self.spelled.copy(alloc)?,
        })
    }

    /// The same fields where they lie in these.
    #[inline]
    pub(crate) fn short_copy(&self) -> Option<Fields>
        ensures { IfSome result (λ fields. fields ≡ self.now) }
    {
        match self.spelled.short_copy() {
            None => None,
            Some(spelled) => Some(Fields { spelled }),
        }
    }

    /// The same fields, which takes no memory: what lies in these is copied, and of what lies in memory of its own
    /// this is one more holder.
    pub(crate) fn share(&self) -> Result<Fields, AllocError>
        ensures { IfOk result (λ fields. fields ≡ self.now) }
    {
        Ok(Fields {
            spelled: self.spelled.share()?,
        })
    }

    /// Whether the other has the same fields in the same order.
    pub fn is_same(&self, other: &Fields) -> bool
        ensures { IsTrue result ↔ (self.now ≡ other.now) }
    {
        if self.count() != other.count() {
            return false;
        }
        are_same(self.spelled(), other.spelled())
    }

    /// The fields from the first on.
    pub fn iter(&self) -> FieldsIter<'_>
        ensures { result ≡ self.now }
    {
        FieldsIter {
            count: self.spelled.count(),
            spelled: self.spelled.bytes(),
        }
    }

    /// Each field as its length and its bytes.
    pub fn spelled(&self) -> &[u8]
        ensures is { result.now ≡ fields_bytes self.now }
        ensures short { length result.now ≤ 4096 }
    {
        self.spelled.bytes()
    }
}

/// The fields that are left of some, from the first.
#[derive(Drop)]
pub struct FieldsIter<'a> {
    count: u8,
    spelled: &'a [u8],
}

impl<'a> Model for FieldsIter<'a> {
    ghost use Rattle.std.specs.Prelude.{ℕ, List};
    ghost use Rattle.wire.specs.Fields.{fields_at, HasFields};

    ghost Value = { List (List ℕ) };

    ghost view = { λ f. fields_at f.count f.spelled.now };

    ghost invariant = { λ f. HasFields f.count f.spelled.now };
}

impl<'a> FieldsIter<'a> {
    /// The next field; none at the end.
    pub fn take_field(&mut self) -> Option<&'a [u8]>
        ensures short { IfSome result (λ field. length field.now ≤ 255) }
        ensures next { MatchOption result ((self.old ≡ []) × (self.new ≡ [])) (λ field. self.old ≡ field.now ∷ self.new) }
    {
        if self.count == 0 {
            return None;
        }
        let (field, rest) = split(self.count, self.spelled);
        self.spelled = rest;
        self.count -= 1;
        Some(field)
    }
}
