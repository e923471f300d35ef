//! What the log of a store tells.
ghost use Rattle.std.specs.Prelude.{◌≡◌, ℕ};
ghost use Rattle.log_facts.specs.Facts as told;

use status::Header;
use wire::{Anchors, Body, Member, Slot};

/// The microseconds of 30 days.
const MONTH: u64 = 2_592_000_000_000;

/// The commits of a slot.
fn members_of(slot: &Slot) -> &[Member]
    ensures { result.now ≡ told.members_of slot.now }
{
    match &slot.body {
        Body::Commit(members) => members.as_slice(),
        _ => &[],
    }
}

/// How many commits the log names.
pub fn commits(slots: &[Slot]) -> u64
    ensures { result ≡ told.commits slots.now }
{
    let mut count = 0u64;
    let mut rest = slots;
    while let [slot, more @ ..] = rest {
        count = count.saturating_add(members_of(slot).len() as u64);
        rest = more;
    }
    count
}

/// The time of the first commit that the log names, 0 where it names none.
pub fn first_time(slots: &[Slot]) -> u64
    ensures { result ≡ told.first_time slots.now }
{
    let mut rest = slots;
    while let [slot, more @ ..] = rest {
        if let [member, ..] = members_of(slot) {
            return member.time;
        }
        rest = more;
    }
    0
}

/// The time of the last of these commits, or this one where there is none.
fn last_of(otherwise: u64, members: &[Member]) -> u64
    ensures { result ≡ told.last_of otherwise members.now }
{
    let mut time = otherwise;
    let mut rest = members;
    while let [member, more @ ..] = rest {
        time = member.time;
        rest = more;
    }
    time
}

/// The time of the last commit that the log names, 0 where it names none.
pub fn last_time(slots: &[Slot]) -> u64
    ensures { result ≡ told.last_time slots.now }
{
    let mut time = 0;
    let mut rest = slots;
    while let [slot, more @ ..] = rest {
        time = last_of(time, members_of(slot));
        rest = more;
    }
    time
}

fn archived_by(before: u64, body: &Body) -> u64
    ensures { result ≡ told.archived_by before body.now }
{
    match body {
        Body::Archived(run) => run.upto,
        _ => before,
    }
}

/// The time up to which it is archived, 0 where nothing is.
pub fn archived(slots: &[Slot]) -> u64
    ensures { result ≡ told.archived slots.now }
{
    let mut time = 0;
    let mut rest = slots;
    while let [slot, more @ ..] = rest {
        time = archived_by(time, &slot.body);
        rest = more;
    }
    time
}

fn archive_by(before: u64, body: &Body) -> u64
    ensures { result ≡ told.archive_by before body.now }
{
    match body {
        Body::Archived(run) => run.start.saturating_add(run.len),
        _ => before,
    }
}

/// The bytes of the archive.
pub fn archive(slots: &[Slot]) -> u64
    ensures { result ≡ told.archive slots.now }
{
    let mut bytes = 0;
    let mut rest = slots;
    while let [slot, more @ ..] = rest {
        bytes = archive_by(bytes, &slot.body);
        rest = more;
    }
    bytes
}

fn anchors_by(before: Anchors, body: &Body) -> Anchors
    ensures { result ≡ told.anchors_by before body.now }
{
    match body {
        Body::Reclaimed(anchors) => *anchors,
        _ => before,
    }
}

/// What the last reclaim left.
pub fn last_anchors(slots: &[Slot]) -> Anchors
    ensures { result ≡ told.last_anchors slots.now }
{
    let mut anchors = Anchors {
        upto: 0,
        first: 0,
        extents: 0,
        records: 0,
    };
    let mut rest = slots;
    while let [slot, more @ ..] = rest {
        anchors = anchors_by(anchors, &slot.body);
        rest = more;
    }
    anchors
}

/// A number with the extents of these commits, of those that are later than a mark.
fn extents_by(mark: u64, before: u64, members: &[Member]) -> u64
    ensures { result ≡ told.extents_by mark before members.now }
{
    let mut count = before;
    let mut rest = members;
    while let [member, more @ ..] = rest {
        if mark < member.time {
            count = count.saturating_add(u64::from(member.extents));
        }
        rest = more;
    }
    count
}

/// The extents of the heap that are in use: those that the last reclaim left, and those of later
/// commits.
pub fn extents(slots: &[Slot]) -> u64
    ensures { result ≡ told.extents slots.now }
{
    let anchors = last_anchors(slots);
    let mut count = u64::from(anchors.extents);
    let mut rest = slots;
    while let [slot, more @ ..] = rest {
        count = extents_by(anchors.upto, count, members_of(slot));
        rest = more;
    }
    count
}

/// How many slots have a commit later than a time.
fn slots_after(time: u64, slots: &[Slot]) -> u64
    ensures { result ≡ told.slots_after time slots.now }
{
    let mut count = 0u64;
    let mut rest = slots;
    while let [slot, more @ ..] = rest {
        if time < last_of(0, members_of(slot)) {
            count = count.saturating_add(1);
        }
        rest = more;
    }
    count
}

/// How many days so many slots last where this many are used in 30.
fn days_by(left: u64, recent: u64) -> Option<u64>
    ensures { result ≡ told.days_by left recent }
{
    if recent == 0 {
        return None;
    }
    Some(left.saturating_mul(30) / recent)
}

/// How many days the slots that are left last, if they are used as in the 30 days before the last commit.
pub fn days_left(header: &Header, slots: &[Slot]) -> Option<u64>
    ensures { result ≡ told.days_left header.now slots.now }
{
    let left = header.total().saturating_sub(slots.len() as u64);
    let since = last_time(slots).saturating_sub(MONTH);
    days_by(left, slots_after(since, slots))
}
