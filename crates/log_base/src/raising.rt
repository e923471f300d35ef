//! Floors that are raised one by one, by rising relation.

ghost use Rattle.std.specs.Prelude.{◌≡◌, [], OnOk, IfOk, map};
ghost use Rattle.floors.specs.Floors.{AreRising, with_own};
ghost use Rattle.log_base.specs.Bases.{own_from, own_behind, raised_by, relation_floor};

use floors::OwnFloor;
use log_entries::RelationFloor;
use log_recovery::{LiveChain, LivePart};
use std::alloc::{AllocError, Global};

// Raises the floor of one relation. Without memory all stays as it was.
fn raise(own: &mut Vec<OwnFloor>, floor: &RelationFloor) -> Result<(), AllocError>
    requires { AreRising own.old.items }
    ensures ok { OnOk result (own.new.items ≡ with_own own.old.items floor.now.relation floor.now.floor) }
    ensures rising { AreRising own.new.items }
{
    let relation = floor.relation;
    let place = own.partition_point(|o| o.relation < relation);
    let raised = OwnFloor {
        relation,
        floor: floor.floor,
    };
    if place < own.len() && own[place].relation == relation {
        own[place] = raised;
    } else {
        own.insert(place, raised)?;
    }
    Ok(())
}

// Raises these, one after the other.
fn raise_all(own: &mut Vec<OwnFloor>, more: &[RelationFloor]) -> Result<(), AllocError>
    requires { AreRising own.old.items }
    ensures ok { OnOk result (own.new.items ≡ raised_by own.old.items more.now) }
    ensures rising { AreRising own.new.items }
{
    let mut rest = more;
    while let [first, after @ ..] = rest {
        raise(own, first)?;
        rest = after;
    }
    Ok(())
}

// Raises what a chain raises.
fn raise_part(own: &mut Vec<OwnFloor>, part: &LivePart) -> Result<(), AllocError>
    requires { AreRising own.old.items }
    ensures ok { OnOk result (own.new.items ≡ own_behind own.old.items part.now) }
    ensures rising { AreRising own.new.items }
{
    match part {
        LivePart::Commits(_) | LivePart::Archived(_) => Ok(()),
        LivePart::Floor(floor) => raise(own, floor),
        LivePart::Base(base) => raise_all(own, base.floors.as_slice()),
    }
}

// The floors behind these chains, by rising relation.
fn own_from(alloc: Global, chains: &[LiveChain]) -> Result<Vec<OwnFloor>, AllocError>
    ensures { IfOk result (λ own. own.items ≡ own_from [] chains.now) }
{
    let mut own = Vec::new(alloc);
    let mut rest = chains;
    while let [first, after @ ..] = rest {
        raise_part(&mut own, &first.part)?;
        rest = after;
    }
    Ok(own)
}

// These floors, as a base has them.
fn spelled(alloc: Global, own: &[OwnFloor]) -> Result<Vec<RelationFloor>, AllocError>
    ensures { IfOk result (λ floors. floors.items ≡ map relation_floor own.now) }
{
    let mut floors = Vec::new(alloc);
    let mut rest = own;
    while let [first, after @ ..] = rest {
        floors.push(RelationFloor {
            relation: first.relation,
            floor: first.floor,
        })?;
        rest = after;
    }
    Ok(floors)
}

/// The floors after these chains, as a base has them.
pub(crate) fn floors_from(
    alloc: Global,
    chains: &[LiveChain],
) -> Result<Vec<RelationFloor>, AllocError>
    ensures { IfOk result (λ floors. floors.items ≡ map relation_floor (own_from [] chains.now)) }
{
    let own = own_from(alloc, chains)?;
    spelled(alloc, own.as_slice())
}
