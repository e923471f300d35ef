//! The floors of a log that lies in the heap.
ghost use Rattle.std.specs.Prelude.{◌≡◌, IfOk};
ghost use Rattle.log_facts.specs.HeapFacts as told;

use crate::floor::{Floor, is_same};
use log_entries::RelationFloor;
use log_shown::LogItem;
use std::alloc::{AllocError, Global};

fn floor_of(floor: &RelationFloor) -> Floor
    ensures { result ≡ told.floor_of floor.now }
{
    Floor {
        relation: Some(floor.relation),
        time: floor.floor,
    }
}

/// The floor that is raised here.
fn floor_in(item: &LogItem) -> Option<Floor>
    ensures { result ≡ told.floor_in item.now }
{
    match item {
        LogItem::BaseFloor(floor) => Some(floor_of(floor)),
        LogItem::Floor { floor, .. } => Some(floor_of(floor)),
        _ => None,
    }
}

/// Each floor that is raised, in its order.
fn raised(alloc: Global, items: &[LogItem]) -> Result<Vec<Floor>, AllocError>
    ensures { IfOk result (λ floors. floors.items ≡ told.raised items.now) }
{
    let mut floors = Vec::new(alloc);
    let mut rest = items;
    while let [item, more @ ..] = rest {
        if let Some(floor) = floor_in(item) {
            floors.push(floor)?;
        }
        rest = more;
    }
    Ok(floors)
}

/// Whether one of these floors is of this relation.
fn is_raised(relation: Option<u16>, floors: &[Floor]) -> bool
    ensures { result ≡ told.is_raised relation floors.now }
{
    let mut rest = floors;
    while let [floor, more @ ..] = rest {
        if is_same(relation, floor.relation) {
            return true;
        }
        rest = more;
    }
    false
}

/// Of these floors each relation's last one.
fn last_floors(alloc: Global, raised: &[Floor]) -> Result<Vec<Floor>, AllocError>
    ensures { IfOk result (λ floors. floors.items ≡ told.last_floors raised.now) }
{
    let mut floors = Vec::new(alloc);
    let mut rest = raised;
    while let [floor, more @ ..] = rest {
        if !is_raised(floor.relation, more) {
            floors.push(*floor)?;
        }
        rest = more;
    }
    Ok(floors)
}

/// The floors, each relation's last one.
///
/// # Errors
///
/// Where there is no memory for them.
pub fn heap_floors(alloc: Global, items: &[LogItem]) -> Result<Vec<Floor>, AllocError>
    ensures { IfOk result (λ floors. floors.items ≡ told.floors items.now) }
{
    let raised = raised(alloc, items)?;
    last_floors(alloc, raised.as_slice())
}
