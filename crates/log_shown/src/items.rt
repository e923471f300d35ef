//! What is shown of a log: what each chain says, without what its commits write.

ghost use Rattle.std.specs.Prelude.{◌≡◌, ◌++◌, ◌≤◌, OnOk, IfOk, length, map, take};
ghost use Rattle.std.specs.List.{flat_map};
ghost use Rattle.log_extents.specs.Chains.{first_or};
ghost use Rattle.log_shown.specs.declared.items.LogItem.TheVariants as says;
ghost use Rattle.log_shown.specs.Shown.{member_item, base_parts, entry_items, chain_items, items_of, begins_at, items_before};

use log_entries::{AnchorName, Archive, Base, Entry, Member, RelationFloor, Roll};
use log_recovery::LogChain;
use std::alloc::{AllocError, Global};

/// One thing that a log says: what a chain is, or a part of it, which comes after its chain.
#[derive(Clone, Copy, Debug, PartialEq, Eq)]
pub enum LogItem {
    /// The base, which begins at the extent `head`.
    Base {
        head: u32,
        upto: u64,
        anchors: AnchorName,
    },
    /// A roll of the base.
    BaseRoll(Roll),
    /// A run of the base.
    BaseRun(Archive),
    /// A floor of the base.
    BaseFloor(RelationFloor),
    /// A group, which begins at the extent `head` and has so many.
    Group {
        head: u32,
        extents: usize,
    },
    /// A commit of a group, and how many records it has.
    Commit {
        label: u64,
        time: u64,
        records: usize,
    },
    /// A run, whose chain is the extent `head`.
    Run {
        head: u32,
        run: Archive,
    },
    /// A floor, whose chain is the extent `head`.
    Floor {
        head: u32,
        floor: RelationFloor,
    },
}

fn push_members(items: &mut Vec<LogItem>, members: &[Member]) -> Result<(), AllocError>
    ensures { OnOk result (items.new.items ≡ items.old.items ++ map member_item members.now) }
{
    let mut rest = members;
    while let [member, after @ ..] = rest {
        items.push(LogItem::Commit {
            label: member.label,
            time: member.time,
            records: member.records.as_slice().len(),
        })?;
        rest = after;
    }
    Ok(())
}

fn push_rolls(items: &mut Vec<LogItem>, rolls: &[Roll]) -> Result<(), AllocError>
    ensures { OnOk result (items.new.items ≡ items.old.items ++ map says.BaseRoll rolls.now) }
{
    let mut rest = rolls;
    while let [roll, after @ ..] = rest {
        items.push(LogItem::BaseRoll(*roll))?;
        rest = after;
    }
    Ok(())
}

fn push_runs(items: &mut Vec<LogItem>, runs: &[Archive]) -> Result<(), AllocError>
    ensures { OnOk result (items.new.items ≡ items.old.items ++ map says.BaseRun runs.now) }
{
    let mut rest = runs;
    while let [run, after @ ..] = rest {
        items.push(LogItem::BaseRun(*run))?;
        rest = after;
    }
    Ok(())
}

fn push_floors(items: &mut Vec<LogItem>, floors: &[RelationFloor]) -> Result<(), AllocError>
    ensures { OnOk result (items.new.items ≡ items.old.items ++ map says.BaseFloor floors.now) }
{
    let mut rest = floors;
    while let [floor, after @ ..] = rest {
        items.push(LogItem::BaseFloor(*floor))?;
        rest = after;
    }
    Ok(())
}

fn push_base(items: &mut Vec<LogItem>, base: &Base) -> Result<(), AllocError>
    ensures { OnOk result (items.new.items ≡ items.old.items ++ base_parts base.now) }
{
    push_rolls(items, base.rolls.as_slice())?;
    push_runs(items, base.archives.as_slice())?;
    push_floors(items, base.floors.as_slice())
}

// What the chain says whose first extent is this one, and which has so many.
fn push_entry(
    items: &mut Vec<LogItem>,
    head: u32,
    extents: usize,
    entry: &Entry,
) -> Result<(), AllocError>
    ensures { OnOk result (items.new.items ≡ items.old.items ++ entry_items head extents entry.now) }
{
    match entry {
        Entry::Group(members) => {
            items.push(LogItem::Group { head, extents })?;
            push_members(items, members.as_slice())
        }
        Entry::Archived(run) => Ok(items.push(LogItem::Run { head, run: *run })?),
        Entry::Floor(floor) => Ok(items.push(LogItem::Floor {
            head,
            floor: *floor,
        })?),
        Entry::Base(base) => {
            items.push(LogItem::Base {
                head,
                upto: base.upto,
                anchors: base.anchors,
            })?;
            push_base(items, base)
        }
    }
}

// The first extent of a chain.
fn head_of(chain: &LogChain) -> u32
    ensures { result ≡ first_or 0 chain.now.numbers }
{
    match chain.numbers.as_slice() {
        [first, ..] => *first,
        [] => 0,
    }
}

fn push_chain(items: &mut Vec<LogItem>, chain: &LogChain) -> Result<(), AllocError>
    ensures { OnOk result (items.new.items ≡ items.old.items ++ chain_items chain.now) }
{
    push_entry(items, head_of(chain), chain.numbers.len(), &chain.entry)
}

/// What these chains say.
pub(crate) fn items_of(alloc: Global, chains: &[LogChain]) -> Result<Vec<LogItem>, AllocError>
    ensures { IfOk result (λ items. items.items ≡ items_of chains.now) }
{
    let mut items = Vec::new(alloc);
    for chain in chains {
        push_chain(&mut items, chain)?;
    }
    Ok(items)
}

/// What the first of these chains says.
pub(crate) fn items_of_first(alloc: Global, chains: &[LogChain]) -> Result<Vec<LogItem>, AllocError>
    ensures { IfOk result (λ items. items.items ≡ items_of (take 1 chains.now)) }
{
    let mut items = Vec::new(alloc);
    let [first, ..] = chains else {
        return Ok(items);
    };
    push_chain(&mut items, first)?;
    Ok(items)
}

// Whether a chain that begins at this extent is said here.
fn begins_at(place: u64, item: &LogItem) -> bool
    ensures { result ≡ begins_at place item.now }
{
    match item {
        LogItem::Base { head, .. } => u64::from(*head) == place,
        LogItem::Group { head, .. } => u64::from(*head) == place,
        LogItem::Run { head, .. } => u64::from(*head) == place,
        LogItem::Floor { head, .. } => u64::from(*head) == place,
        LogItem::BaseRoll(_) => false,
        LogItem::BaseRun(_) => false,
        LogItem::BaseFloor(_) => false,
        LogItem::Commit { .. } => false,
    }
}

// How much is said in front of the chain that begins at this extent.
fn count_before(place: u64, items: &[LogItem]) -> usize
    ensures { take result items.now ≡ items_before place items.now }
{
    let mut count = 0;
    for item in items {
        if begins_at(place, item) {
            return count;
        }
        count += 1;
    }
    count
}

/// What is said before the chain that begins at this extent.
pub(crate) fn items_before(place: u64, items: Vec<LogItem>) -> Vec<LogItem>
    ensures { result.items ≡ items_before place items.items }
{
    let mut items = items;
    items.truncate(count_before(place, items.as_slice()));
    items
}
