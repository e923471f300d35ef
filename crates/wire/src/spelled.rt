//! The bytes of fields: in the value itself where they are few.

ghost use Rattle.std.specs.Prelude.{◌≡◌, ◌<◌, ◌≤◌, ◌+◌, [], ◌++◌, length, IsTrue, ◌↔◌, IfOk, IfSome, OnOk, OnErr};
ghost use Rattle.wire.specs.Fields.{field_bytes};
ghost use Rattle.wire.specs.Counted.{with_field};

use std::alloc::{AllocError, Global};
use std::marker::Model;
use std::sync::Arc;

/// How many bytes lie in the value itself: four fields of 16 bytes with their lengths, and a little more.
const INLINE: usize = 69;

// With a time before it this takes 80 bytes, which is what a version takes where versions lie together. A version alone
// takes a piece of 96 bytes of memory: a count of its holders stands before it, and the word that an allocator keeps.
const _: () = prove!(size_of::<Spelled>() == 72);

// Bytes in the value itself.
#[derive(Drop)]
struct ShortBytes {
    alloc: Global,
    count: u8,
    len: u8,
    bytes: [u8; INLINE],
}

impl Model for ShortBytes {
    ghost use Rattle.std.specs.Prelude.{◌≡◌, ◌≤◌, take, length};
    ghost use Rattle.wire.specs.Counted.{Counted};

    ghost Value = { Counted };

    ghost view = { λ s. record { count = s.count; bytes = take s.len s.bytes } };

    ghost invariant = { λ s. (s.len ≤ 69) × (length s.bytes ≡ 69) };
}

impl ShortBytes {
    fn new(alloc: Global) -> ShortBytes
        ensures { result ≡ record { count = 0; bytes = [] } }
    {
        ShortBytes {
            alloc,
            count: 0,
            len: 0,
            bytes: [0; INLINE],
        }
    }

    fn of(alloc: Global, count: u8, bytes: &[u8]) -> ShortBytes
        requires { length bytes.now ≤ 69 }
        ensures { result ≡ record { count = count; bytes = bytes.now } }
    {
        let mut all = [0; INLINE];
        all[..bytes.len()].copy_from_slice(bytes);
        ShortBytes {
            alloc,
            count,
            len: bytes.len() as u8,
            bytes: all,
        }
    }

    fn copy(&self) -> ShortBytes
        ensures { result ≡ self.now }
    {
        ShortBytes {
            alloc: self.alloc,
            count: self.count,
            len: self.len,
            bytes: self.bytes,
        }
    }

    fn count(&self) -> u8
        ensures { result ≡ self.now.count }
    {
        self.count
    }

    fn bytes(&self) -> &[u8]
        ensures is { result.now ≡ self.now.bytes }
        ensures short { length result.now ≤ 69 }
    {
        &self.bytes[..self.len as usize]
    }

    // Whether a field of so many bytes fits.
    fn has_room(&self, len: usize) -> bool
        ensures { IsTrue result ↔ (length self.now.bytes + 1 + len ≤ 69) }
    {
        len < INLINE - self.len as usize
    }

    fn append(&mut self, bytes: &[u8])
        requires { length self.old.bytes + length bytes.now ≤ 69 }
        ensures { self.new ≡ record { count = self.old.count; bytes = self.old.bytes ++ bytes.now } }
    {
        let len = self.len as usize;
        let end = len + bytes.len();
        self.bytes[len..end].copy_from_slice(bytes);
        self.len = end as u8;
    }

    fn push(&mut self, field: &[u8])
        requires few { self.old.count < 255 }
        requires fits { length self.old.bytes + 1 + length field.now ≤ 69 }
        ensures { self.new ≡ with_field self.old field.now }
    {
        self.append(&[field.len() as u8]);
        self.append(field);
        self.count += 1;
    }
}

// Appends a field. Where there is no memory nothing changes.
fn push_field(bytes: &mut Vec<u8>, field: &[u8]) -> Result<(), AllocError>
    requires { length field.now ≤ 255 }
    ensures ok { OnOk result (bytes.new.items ≡ bytes.old.items ++ field_bytes field.now) }
    ensures err { OnErr result (bytes.new.items ≡ bytes.old.items) }
{
    bytes.reserve(field.len() + 1)?;
    bytes.push_reserved(field.len() as u8);
    bytes.extend_from_slice(field).unwrap();
    Ok(())
}

// The count comes first in both, so it is read without asking which of the two it is.
#[derive(Drop)]
enum Place {
    Short(ShortBytes),
    /// Bytes that several may hold. Who puts a field after them does so where no other holds them.
    Long {
        alloc: Global,
        count: u8,
        bytes: Arc<Vec<u8>>,
    },
}

/// How many fields there are, and their bytes. Both kinds of place hold the count next to what they
/// hold of the bytes, and so the whole takes 72 bytes: a `SmallVec` next to a count takes 16 more,
/// for its length and for what tells its kind of place.
#[derive(Drop)]
pub(crate) struct Spelled {
    place: Place,
}

impl Model for Spelled {
    ghost use Rattle.wire.specs.Counted.{Counted};

    ghost Value = { Counted };

    ghost use Rattle.wire.specs.Places.{counted_in};

    ghost view = { λ s. counted_in s.place };
}

impl Spelled {
    /// No field.
    pub(crate) fn new(alloc: Global) -> Spelled
        ensures { result ≡ record { count = 0; bytes = [] } }
    {
        Spelled {
            place: Place::Short(ShortBytes::new(alloc)),
        }
    }

    /// No field yet, and room for so many bytes.
    pub(crate) fn with_room(alloc: Global, room: usize) -> Result<Spelled, AllocError>
        ensures { IfOk result (λ spelled. spelled ≡ record { count = 0; bytes = [] }) }
    {
        if room <= INLINE {
            return Ok(Spelled::new(alloc));
        }
        Self::long(alloc, 0, Vec::with_capacity(alloc, room)?)
    }

    // So many fields in memory of their own.
    fn long(alloc: Global, count: u8, bytes: Vec<u8>) -> Result<Spelled, AllocError>
        ensures { IfOk result (λ spelled. spelled ≡ record { count = count; bytes = bytes.items }) }
    {
        let bytes = Arc::new(alloc, bytes)?;
        Ok(Spelled {
            place: Place::Long {
                alloc,
                count,
                bytes,
            },
        })
    }

    /// So many fields, whose bytes are copied.
    pub(crate) fn of(alloc: Global, count: u8, bytes: &[u8]) -> Result<Spelled, AllocError>
        ensures { IfOk result (λ spelled. spelled ≡ record { count = count; bytes = bytes.now }) }
    {
        if bytes.len() <= INLINE {
            return Ok(Spelled {
                place: Place::Short(ShortBytes::of(alloc, count, bytes)),
            });
        }
        Self::long(alloc, count, Vec::from_slice(alloc, bytes)?)
    }

    /// The same in memory of its own.
    pub(crate) fn copy(&self, alloc: Global) -> Result<Spelled, AllocError>
        ensures { IfOk result (λ spelled. spelled ≡ self.now) }
    {
        match &self.place {
            Place::Short(short) => Ok(Spelled {
                place: Place::Short(short.copy()),
            }),
            Place::Long { count, bytes, .. } => Spelled::of(alloc, *count, bytes.as_slice()),
        }
    }

    /// The same, which takes no memory: few bytes are copied, and of many this is one more holder. An error where
    /// the count of their holders is at its end.
    pub(crate) fn share(&self) -> Result<Spelled, AllocError>
        ensures { IfOk result (λ spelled. spelled ≡ self.now) }
    {
        let place = match &self.place {
            Place::Short(short) => Place::Short(short.copy()),
            Place::Long {
                alloc,
                count,
                bytes,
            } => Place::Long {
                alloc: *alloc,
                count: *count,
                bytes: Arc::try_clone(bytes)?,
            },
        };
        Ok(Spelled { place })
    }

    /// The same where its bytes lie in itself: a copy, which takes no memory and is never refused.
    #[inline]
    pub(crate) fn short_copy(&self) -> Option<Spelled>
        ensures { IfSome result (λ spelled. spelled ≡ self.now) }
    {
        match &self.place {
            Place::Short(short) => Some(Spelled {
                place: Place::Short(short.copy()),
            }),
            Place::Long { .. } => None,
        }
    }

    fn alloc(&self) -> Global {
        match &self.place {
            Place::Short(short) => short.alloc,
            Place::Long { alloc, .. } => *alloc,
        }
    }

    // The same and one field more, in memory of their own with room for as many bytes again as lie in a value.
    fn longer(&self, field: &[u8]) -> Result<Spelled, AllocError>
        requires few { self.now.count < 255 }
        requires short { length field.now ≤ 255 }
        ensures { IfOk result (λ spelled. spelled ≡ with_field self.now field.now) }
    {
        let alloc = self.alloc();
        let before = self.bytes();
        let room = before.len().saturating_add(1 + field.len());
        let mut bytes = Vec::with_capacity(alloc, room.max(2 * INLINE))?;
        bytes.extend_from_slice(before)?;
        push_field(&mut bytes, field)?;
        Self::long(alloc, self.count() + 1, bytes)
    }

    /// How many fields there are.
    pub(crate) fn count(&self) -> u8
        ensures { result ≡ self.now.count }
    {
        match &self.place {
            Place::Short(short) => short.count(),
            Place::Long { count, .. } => *count,
        }
    }

    /// The bytes of the fields.
    pub(crate) fn bytes(&self) -> &[u8]
        ensures { result.now ≡ self.now.bytes }
    {
        match &self.place {
            Place::Short(short) => short.bytes(),
            Place::Long { bytes, .. } => bytes.as_slice(),
        }
    }

    /// One field more. Where there is no memory nothing changes.
    pub(crate) fn push(&mut self, field: &[u8]) -> Result<(), AllocError>
        requires few { self.old.count < 255 }
        requires short { length field.now ≤ 255 }
        ensures ok { OnOk result (self.new ≡ with_field self.old field.now) }
        ensures err { OnErr result (self.new ≡ self.old) }
    {
        if let Place::Short(short) = &mut self.place
            && short.has_room(field.len())
        {
            short.push(field);
            return Ok(());
        }
        if let Place::Long { count, bytes, .. } = &mut self.place
            && let Some(own) = Arc::get_mut(bytes)
        {
            push_field(own, field)?;
            *count += 1;
            return Ok(());
        }
        *self = self.longer(field)?;
        Ok(())
    }
}
