//! The commit order, and commits that wait: their tickets, conflicts, records and extents.
ghost use Rattle.std.specs.Prelude.{◌≡◌};

use crate::published::{SEVEN, published, put};
use chains::Frozen;
use deltas::{ExtentBody, pack_all};
use extents::{Extents, Usage};
use group::{
    CommitHead, CommitOrder, Queued, QueuedParts, StoredExtent, Ticket, TicketState, WriteRecords,
    first_conflict, give_back_all, keep_all, seal_all, take_extents,
};
use std::alloc::Global;
use std::test::Fail;
use wire::Member;

fn head(time: u64, label: u64, awaited: bool) -> CommitHead
    ensures { result ≡ record { time = time; label = label; awaited = awaited } }
{
    CommitHead {
        time,
        label,
        awaited,
    }
}

/// Whether these are the times of the commits with a label.
fn has_times(alloc: Global, order: &CommitOrder, label: u64, want: &[u64]) -> bool {
    matches!(order.times_of(alloc, label), Ok(times) if times.as_slice() == want)
}

/// Whether so many commits are published, and this is the time of the last.
fn has_published(order: &CommitOrder, count: usize, last: u64) -> bool {
    order.published() == count && order.last() == last
}

#[test]
fn a_commit_that_waits_is_assigned_and_not_published(rt: HostRuntime) -> Result<(), Fail> {
    let mut order = CommitOrder::new(rt.alloc());
    order.reserve(1)?;
    let last = order.last_assigned();
    assert!(rt; last == 0);
    order.push_reserved(head(100, 9, true));
    let redeemed = [order.redeem(100), order.redeem(99)];
    assert!(rt; redeemed == [TicketState::Waiting, TicketState::Unknown]);
    assert!(rt; order.last_assigned() == 100 && has_published(&order, 0, 0));
    assert!(rt; has_times(rt.alloc(), &order, 9, &[]));
    Ok(())
}

#[test]
fn a_published_commit_is_redeemed_once(rt: HostRuntime) -> Result<(), Fail> {
    let heads = [head(100, 9, false), head(110, 8, true), head(120, 9, false)];
    let mut order = CommitOrder::of_published(heads.to_vec(rt.alloc())?);
    let redeemed = [order.redeem(110), order.redeem(110), order.redeem(100)];
    assert!(rt;
        redeemed
            == [
                TicketState::Published,
                TicketState::Unknown,
                TicketState::Unknown
            ]
    );
    assert!(rt; has_published(&order, 3, 120) && has_times(rt.alloc(), &order, 9, &[100, 120]));
    Ok(())
}

#[test]
fn commits_are_published_in_their_order(rt: HostRuntime) -> Result<(), Fail> {
    let mut order = CommitOrder::new(rt.alloc());
    order.reserve(2)?;
    order.push_reserved(head(100, 9, true));
    order.push_reserved(head(101, 8, true));
    order.publish(1);
    assert!(rt; has_published(&order, 1, 100));
    assert!(rt; order.redeem(100) == TicketState::Published);
    assert!(rt; order.redeem(101) == TicketState::Waiting);
    Ok(())
}

#[test]
fn a_ticket_says_whose_it_is(rt: HostRuntime) {
    let ticket = Ticket::new(3, 130);
    let is_said = ticket.mark() == 3 && ticket.time() == 130;
    ticket.give_up();
    assert!(rt; is_said);
}

// Records 9 and 7 are written after 130, in that order.
#[test]
fn the_least_key_in_conflict_is_found(rt: HostRuntime) -> Result<(), Fail> {
    let alloc = rt.alloc();
    let versions = published(alloc, &[(140, 9, Some("a")), (150, 7, Some("a"))])?;
    let writes = [
        put(alloc, 3, b"a")?,
        put(alloc, 7, b"a")?,
        put(alloc, 9, b"a")?,
    ];
    let found = first_conflict(&versions, 130, &writes);
    assert!(rt; found.is_some_and(|key| key.record == 7));
    assert!(rt; first_conflict(&versions, 150, &writes).is_none());
    Ok(())
}

/// These bodies in extents that are taken for them.
fn stored_in(
    alloc: Global,
    extents: &mut Extents,
    bodies: Vec<ExtentBody>,
) -> Result<Vec<StoredExtent>, Fail> {
    if (extents.free_count() as usize) < bodies.len() {
        return Err("too few extents are free".into());
    }
    let taken = take_extents(alloc, extents, bodies.len())?;
    match seal_all(alloc, taken, bodies) {
        Ok(stored) => Ok(stored),
        Err(back) => {
            give_back_all(extents, back);
            Err("no memory".into())
        }
    }
}

/// Extent 1, the last of its chain, with 14 bytes of records: the value a of record 7 of relation 1.
const EXTENT_FRONT: [u8; 30] = [
    1, 0, 0, 0, 0, 0, 0, 0, 0x0e, 0, 0, 0, 0, 0, 0, 0, 1, 1, 0, 7, 0, 0, 0, 0, 0, 0, 0, 1, 1, 0x61,
];

/// Whether these are extent 1 alone, with the record.
fn is_extent(stored: &[StoredExtent]) -> bool {
    match stored {
        [one] => one.extent.number() == 1 && one.image.bytes().starts_with(&EXTENT_FRONT),
        _ => false,
    }
}

const ENTRY: Member = Member {
    label: 9,
    time: 100,
    first: 1,
    extents: 1,
    records: 1,
};

/// The commit of this entry, which waits with the value a of record 7 in extents that are taken for it.
fn queued(alloc: Global, extents: &mut Extents) -> Result<Queued, Fail> {
    let writes = [put(alloc, 7, b"a")?];
    let bodies = pack_all(alloc, &mut WriteRecords::new(&Frozen::new(), &writes))?;
    let stored = stored_in(alloc, extents, bodies)?;
    Ok(Queued::new(ENTRY, Frozen::new(), 0, stored))
}

/// Whether it says what it was made of.
fn says(waits: &Queued) -> bool {
    waits.reclaimed() == 0
        && waits.entry() == ENTRY
        && is_extent(waits.stored())
        && waits.after().at(SEVEN, 100).is_none()
}

#[test]
fn a_commit_is_stored_and_kept(rt: HostRuntime) -> Result<(), Fail> {
    let mut extents = Extents::new(rt.alloc())?;
    let waits = queued(rt.alloc(), &mut extents)?;
    assert!(rt; says(&waits));
    let QueuedParts {
        entry: _,
        after: _,
        stored,
    } = waits.spend();
    keep_all(&mut extents, stored);
    assert!(rt; extents.has(1, Usage::Kept));
    Ok(())
}

/// Whether two extents that are taken are used, and free once they are given back.
fn gives_back(alloc: Global, extents: &mut Extents) -> bool {
    if extents.free_count() < 2 {
        return false;
    }
    let Ok(taken) = take_extents(alloc, extents, 2) else {
        return false;
    };
    let are_used = extents.used() == 2;
    give_back_all(extents, taken);
    are_used && extents.used() == 0
}

#[test]
fn extents_that_are_given_back_are_free(rt: HostRuntime) -> Result<(), Fail> {
    let mut extents = Extents::new(rt.alloc())?;
    assert!(rt; gives_back(rt.alloc(), &mut extents));
    Ok(())
}
