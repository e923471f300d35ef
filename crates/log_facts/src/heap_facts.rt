//! What the log of a store tells that lies in the heap.
ghost use Rattle.std.specs.Prelude.{◌≡◌, ℕ};
ghost use Rattle.log_facts.specs.HeapFacts as told;

use log_shown::{LogExtents, LogItem};

/// How many bytes the name of a commit has in a roll.
const NAME_LEN: u64 = 16;

fn reclaimed_by(before: u64, item: &LogItem) -> u64
    ensures { result ≡ told.reclaimed_by before item.now }
{
    match item {
        LogItem::Base { upto, .. } => *upto,
        _ => before,
    }
}

/// The mark of the last reclaim, 0 where there was none.
pub fn reclaimed(items: &[LogItem]) -> u64
    ensures { result ≡ told.reclaimed items.now }
{
    let mut mark = 0;
    let mut rest = items;
    while let [item, more @ ..] = rest {
        mark = reclaimed_by(mark, item);
        rest = more;
    }
    mark
}

fn commits_by(mark: u64, before: u64, item: &LogItem) -> u64
    ensures { result ≡ told.commits_by mark before item.now }
{
    match item {
        LogItem::BaseRoll(roll) => before.saturating_add(roll.len / NAME_LEN),
        LogItem::Commit { time, .. } => {
            if mark < *time {
                before.saturating_add(1)
            } else {
                before
            }
        }
        _ => before,
    }
}

/// How many commits the store has. Those up to the mark of the last reclaim are in rolls.
pub fn commits(items: &[LogItem]) -> u64
    ensures { result ≡ told.commits items.now }
{
    let mark = reclaimed(items);
    let mut count = 0;
    let mut rest = items;
    while let [item, more @ ..] = rest {
        count = commits_by(mark, count, item);
        rest = more;
    }
    count
}

fn last_by(before: u64, item: &LogItem) -> u64
    ensures { result ≡ told.last_by before item.now }
{
    match item {
        LogItem::Commit { time, .. } => *time,
        _ => before,
    }
}

/// The time of the last commit, 0 where there is none.
pub fn last_time(items: &[LogItem]) -> u64
    ensures { result ≡ told.last_time items.now }
{
    let mut time = 0;
    let mut rest = items;
    while let [item, more @ ..] = rest {
        time = last_by(time, item);
        rest = more;
    }
    reclaimed(items).max(time)
}

fn archived_by(before: u64, item: &LogItem) -> u64
    ensures { result ≡ told.archived_by before item.now }
{
    match item {
        LogItem::BaseRun(run) => run.upto,
        LogItem::Run { run, .. } => run.upto,
        _ => before,
    }
}

/// The time up to which it is archived, 0 where nothing is.
pub fn archived(items: &[LogItem]) -> u64
    ensures { result ≡ told.archived items.now }
{
    let mut time = 0;
    let mut rest = items;
    while let [item, more @ ..] = rest {
        time = archived_by(time, item);
        rest = more;
    }
    time
}

fn archive_by(before: u64, item: &LogItem) -> u64
    ensures { result ≡ told.archive_by before item.now }
{
    match item {
        LogItem::BaseRoll(roll) => before.max(roll.start.saturating_add(roll.len)),
        LogItem::BaseRun(run) => before.max(run.start.saturating_add(run.len)),
        LogItem::Run { run, .. } => before.max(run.start.saturating_add(run.len)),
        _ => before,
    }
}

/// The bytes of the archive: where the last of all runs and rolls ends.
pub fn archive(items: &[LogItem]) -> u64
    ensures { result ≡ told.archive items.now }
{
    let mut bytes = 0;
    let mut rest = items;
    while let [item, more @ ..] = rest {
        bytes = archive_by(bytes, item);
        rest = more;
    }
    bytes
}

/// How many extents the log may still take, of the half of the heap that is its own.
pub fn log_free(most: u32, extents: &LogExtents) -> u64
    ensures { result ≡ told.log_free most extents.now }
{
    u64::from((most / 2).saturating_sub(extents.log))
}
