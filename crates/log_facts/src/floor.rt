//! The floors that a log has.
ghost use Rattle.std.specs.Prelude.{◌≡◌, IfOk};
ghost use Rattle.log_facts.specs.Facts as told;

use std::alloc::{AllocError, Global};
use wire::{Body, Slot};

/// The floor of a relation, or of all.
#[derive(Clone, Copy, Debug, PartialEq, Eq)]
pub struct Floor {
    pub relation: Option<u16>,
    pub time: u64,
}

/// The floor that a slot raises, if it is one of a floor.
fn floor_in(body: &Body) -> Option<Floor>
    ensures { result ≡ told.floor_in body.now }
{
    match body {
        Body::Floor { relation, floor } => Some(Floor {
            relation: *relation,
            time: *floor,
        }),
        _ => None,
    }
}

/// Whether a slot raises the floor of this relation.
fn raises(relation: Option<u16>, slot: &Slot) -> bool
    ensures { result ≡ told.raises relation slot.now }
{
    match floor_in(&slot.body) {
        Some(floor) => is_same(relation, floor.relation),
        None => false,
    }
}

pub(crate) fn is_same(a: Option<u16>, b: Option<u16>) -> bool
    ensures { result ≡ told.is_same a b }
{
    match (a, b) {
        (None, None) => true,
        (Some(a), Some(b)) => a == b,
        _ => false,
    }
}

/// Whether one of the slots raises the floor of this relation.
fn is_raised(relation: Option<u16>, slots: &[Slot]) -> bool
    ensures { result ≡ told.is_raised relation slots.now }
{
    let mut rest = slots;
    while let [slot, more @ ..] = rest {
        if raises(relation, slot) {
            return true;
        }
        rest = more;
    }
    false
}

/// The floors, each relation's last one.
///
/// # Errors
///
/// Where there is no memory for them.
pub fn floors(alloc: Global, slots: &[Slot]) -> Result<Vec<Floor>, AllocError>
    ensures { IfOk result (λ floors. floors.items ≡ told.floors slots.now) }
{
    let mut floors = Vec::new(alloc);
    let mut rest = slots;
    while let [slot, more @ ..] = rest {
        if let Some(floor) = floor_in(&slot.body) {
            if !is_raised(floor.relation, more) {
                floors.push(floor)?;
            }
        }
        rest = more;
    }
    Ok(floors)
}
