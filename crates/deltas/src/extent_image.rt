//! The bytes of one extent.

ghost use Rattle.std.specs.Prelude.{◌≡◌, ◌≢◌, length, MatchOption, IsTrue, ◌↔◌};
ghost use Rattle.byteorder.specs.Endian.{little_number};
ghost use Rattle.deltas.specs.Reading.{body_of, number_of, next_of};

use byteorder::{ByteOrder, LittleEndian};
use std::marker::Model;

/// How many bytes an extent has.
pub const EXTENT_LEN: usize = 8192;

/// How many of them records can fill.
pub const BODY_LEN: usize = 8176;

/// All 8,192 bytes of an extent.
#[derive(Drop)]
pub struct Image {
    bytes: Vec<u8>,
}

impl Model for Image {
    ghost use Rattle.std.specs.Prelude.{◌≡◌, ℕ, List, length};

    ghost Value = { List ℕ };

    ghost view = { λ i. i.bytes.items };

    ghost invariant = { λ i. length i.bytes.items ≡ 8192 };
}

impl Image {
    /// The extent with these bytes; none where they aren't 8,192.
    pub fn of(bytes: Vec<u8>) -> Option<Image>
        ensures { MatchOption result (length bytes.items ≢ 8192) (λ image. image ≡ bytes.items) }
    {
        if bytes.len() != EXTENT_LEN {
            return None;
        }
        Some(Image { bytes })
    }

    /// The extent with these bytes, which are 8,192.
    pub(crate) fn of_all(bytes: Vec<u8>) -> Image
        requires { length bytes.items ≡ 8192 }
        ensures { result ≡ bytes.items }
    {
        Image { bytes }
    }

    /// The bytes as they are on the disk.
    pub fn bytes(&self) -> &[u8]
        ensures is { result.now ≡ self.now }
        ensures len { length self.now ≡ 8192 }
    {
        self.bytes.as_slice()
    }

    /// The number that the extent has as its own.
    #[tactic(auto, unfolding(crate::specs::Reading::number_of))]
    pub fn number(&self) -> u32
        ensures { result ≡ number_of self.now }
    {
        LittleEndian::read_u32(self.bytes())
    }

    /// The number that it names as the next extent's; 0 for the last of a chain.
    #[tactic(auto, unfolding(crate::specs::Reading::next_of))]
    pub fn next(&self) -> u32
        ensures { result ≡ next_of self.now }
    {
        LittleEndian::read_u32(&self.bytes()[4..])
    }

    /// The bytes that the extent says are records.
    #[tactic(auto, unfolding(crate::specs::Reading::body_of))]
    pub(crate) fn body(&self) -> &[u8]
        ensures { result.now ≡ body_of self.now }
    {
        let bytes = self.bytes();
        let used = (LittleEndian::read_u32(&bytes[8..]) as usize).min(BODY_LEN);
        &bytes[16..16 + used]
    }

    /// Whether it has just these bytes.
    pub(crate) fn has_bytes(&self, bytes: &[u8]) -> bool
        ensures { IsTrue result ↔ (self.now ≡ bytes.now) }
    {
        self.bytes() == bytes
    }

    /// Whether the other has the same bytes.
    pub fn is_same(&self, other: &Image) -> bool
        ensures { IsTrue result ↔ (self.now ≡ other.now) }
    {
        self.has_bytes(other.bytes())
    }
}
