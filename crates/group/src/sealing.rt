//! Bodies of records sealed into the extents that were taken for them.
ghost use Rattle.std.specs.Prelude.{[], ◌≡◌, ◌≤◌, length, map, IfOk, IfErr};
ghost use Rattle.std.specs.Vec.{vec_capacity};
ghost use Rattle.deltas.specs.Extents.{extent_bytes};
ghost use Rattle.group.specs.Queued.{stored_as};
ghost use Rattle.deltas.specs.Chains.{chain_of, first_number};

use crate::queued::StoredExtent;
use deltas::{ExtentBody, Image, seal};
use extents::Extent;
use std::alloc::{AllocError, Global};

fn next_number(extents: &[Extent]) -> u32
    ensures { result ≡ first_number extents.now }
{
    match extents {
        [] => 0,
        [extent, ..] => extent.number(),
    }
}

// The bytes of each extent.
fn seal_images(
    alloc: Global,
    extents: &[Extent],
    bodies: Vec<ExtentBody>,
) -> Result<Vec<Image>, AllocError>
    ensures { IfOk result (λ images. images.items ≡ map extent_bytes (chain_of extents.now bodies.items)) }
{
    let mut images = Vec::with_capacity(alloc, bodies.len())?;
    let mut bodies = bodies.into_iter();
    let mut numbers = extents;
    while let [extent, after @ ..] = numbers {
        let Some(body) = bodies.next() else {
            return Ok(images);
        };
        images.push(seal(extent.number(), next_number(after), body))?;
        numbers = after;
    }
    Ok(images)
}

// Each extent beside its bytes.
fn stored_together(
    extents: Vec<Extent>,
    images: Vec<Image>,
    mut stored: Vec<StoredExtent>,
) -> Vec<StoredExtent>
    requires lengths { length images.items ≡ length extents.items }
    requires empty { stored.items ≡ [] }
    requires room { length images.items ≤ vec_capacity stored }
    ensures { result.items ≡ stored_as extents.items images.items }
{
    let mut extents = extents.into_iter();
    let mut images = images.into_iter();
    while let Some(image) = images.next() {
        match extents.next() {
            None => {}
            Some(extent) => stored.push_reserved(StoredExtent { extent, image }),
        }
    }
    extents.destroy_empty();
    stored
}

/// Each extent with the bytes that are to be written there: its own number, that of the next one,
/// and the body of its place, of which no byte is copied.
///
/// # Errors
///
/// Where there is no memory for the list; the extents come back.
pub fn seal_all(
    alloc: Global,
    extents: Vec<Extent>,
    bodies: Vec<ExtentBody>,
) -> Result<Vec<StoredExtent>, Vec<Extent>>
    requires { length bodies.items ≡ length extents.items }
    ensures ok { IfOk result (λ stored. stored.items ≡ stored_as extents.items (map extent_bytes (chain_of extents.items bodies.items))) }
    ensures err { IfErr result (λ back. back.items ≡ extents.items) }
{
    let images = match seal_images(alloc, &extents, bodies) {
        Ok(images) => images,
        Err(AllocError) => return Err(extents),
    };
    match Vec::with_capacity(alloc, extents.len()) {
        Ok(stored) => Ok(stored_together(extents, images, stored)),
        Err(AllocError) => Err(extents),
    }
}
