//! Bytes as an extent.

ghost use Rattle.std.specs.Prelude.{◌≡◌, ◌≤◌, ◌↔◌, length, IsTrue, IfSome, Some, option_map};
ghost use Rattle.log_extents.specs.Extents.{LinkedExtent, linked_bytes, IsLinked, extent_of};
ghost use Rattle.log_extents.specs.Reading.{body_at, linked_at};

use crate::extent::{BODY_LEN, HEAD_LEN, LinkedRef};
use crate::filling::fill_extent;
use byteorder::{ByteOrder, LittleEndian};
use deltas::EXTENT_LEN;

// The bytes that are said to be used.
#[tactic(auto, unfolding(crate::specs::Reading::body_at))]
fn read_body(image: &[u8]) -> &[u8]
    requires { length image.now ≡ 8192 }
    ensures is { result.now ≡ body_at image.now }
    ensures fits { length result.now ≤ 8168 }
{
    let used = (LittleEndian::read_u32(&image[12..]) as usize).min(BODY_LEN);
    &image[HEAD_LEN..HEAD_LEN + used]
}

// The numbers at their places, and the bytes behind them.
#[tactic(auto, unfolding(crate::specs::Reading::linked_at))]
fn read_fields(image: &[u8]) -> LinkedRef<'_>
    requires { length image.now ≡ 8192 }
    ensures is { extent_of result ≡ linked_at image.now }
    ensures fits { length result.body.now ≤ 8168 }
{
    LinkedRef {
        gate: image[0],
        number: LittleEndian::read_u32(&image[4..]),
        next: LittleEndian::read_u32(&image[8..]),
        link: LittleEndian::read_u32(&image[16..]),
        body: read_body(image),
    }
}

fn is_in_range(extent: LinkedRef<'_>, most: u32) -> bool
    requires { length extent.body.now ≤ 8168 }
    ensures { IsTrue result ↔ IsLinked most (extent_of extent.entry) }
{
    1 <= extent.number
        && extent.number <= most
        && extent.next <= most
        && extent.link <= most
        && !extent.body.is_empty()
}

// All bytes of the extent.
#[tactic(auto, unfolding(crate::specs::Extents::linked_bytes))]
fn extent_image(extent: LinkedRef<'_>) -> [u8; EXTENT_LEN]
    requires { length extent.body.now ≤ 8168 }
    ensures { result ≡ linked_bytes (extent_of extent.entry) }
{
    let mut image = [0; EXTENT_LEN];
    fill_extent(
        extent.link,
        extent.number,
        extent.next,
        extent.body,
        &mut image,
    );
    image[0] = extent.gate;
    image
}

// Whether the extent is in range and these are its bytes: it is written again, and compared.
fn is_said(extent: LinkedRef<'_>, image: &[u8; EXTENT_LEN], most: u32) -> bool
    requires { length extent.body.now ≤ 8168 }
    ensures { IsTrue result ↔ IsLinked most (extent_of extent.entry) × (image.now ≡ linked_bytes (extent_of extent.entry)) }
{
    is_in_range(extent, most) && extent_image(extent).as_slice() == image.as_slice()
}

/// What these bytes say, if they are an extent of a heap of so many extents: its number is 1 to
/// `most`, next and link are at most that, and it has at least one byte of its chain.
pub fn read_extent(image: &[u8; EXTENT_LEN], most: u32) -> Option<LinkedRef<'_>>
    ensures found { IfSome result (λ extent. IsLinked most (extent_of extent) × (image.now ≡ linked_bytes (extent_of extent))) }
    ensures only { (e : LinkedExtent) → IsLinked most e → image.now ≡ linked_bytes e → option_map extent_of result ≡ Some e }
{
    let extent = read_fields(image);
    let is_said = is_said(extent, image, most);
    if is_said { Some(extent) } else { None }
}
