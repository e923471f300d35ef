//! Which folder an action needs.
ghost use Rattle.std.specs.Prelude.{◌≡◌, if◌then◌else◌};
ghost use Rattle.shell.specs.declared.needs.Need.TheVariants.{Change, Make, Nothing};
ghost use Rattle.shell.specs.Layouts.{is_size};
ghost use Rattle.shell.specs.Needs.{make_in, need_of};

use command_line::{Action, Layout};
use log_roots::{LEAST_EXTENTS, MOST_EXTENTS};
use status::{LEAST_SLOTS, MOST_SLOTS};

/// What an action needs of the files of a folder.
#[derive(Clone, Copy, Debug, PartialEq, Eq)]
pub enum Need<'a> {
    /// No folder is looked at: the store is one in memory, or the words ask for what there cannot be.
    Nothing,
    /// To make a store in this folder.
    Make(&'a str),
    /// To open the store in it, which no other process may have open meanwhile.
    Change(&'a str),
    /// To read its log, while no process has it open to change it.
    Read(&'a str),
}

/// Whether a store has this size.
pub fn is_size(layout: Layout) -> bool
    ensures { result ≡ is_size layout }
{
    match layout {
        Layout::Slots(slots) => slots >= LEAST_SLOTS && slots <= MOST_SLOTS,
        Layout::Extents(extents) => {
            extents >= LEAST_EXTENTS && extents <= MOST_EXTENTS && extents % 16 == 0
        }
    }
}

/// The folder, where what is asked of its store can be.
fn change_if<'a>(can_be: bool, dir: &'a str) -> Need<'a>
    ensures { result ≡ (if can_be then Change dir.entry else Nothing) }
{
    if can_be {
        Need::Change(dir)
    } else {
        Need::Nothing
    }
}

fn make_if<'a>(can_be: bool, dir: &'a str) -> Need<'a>
    ensures { result ≡ (if can_be then Make dir.entry else Nothing) }
{
    if can_be {
        Need::Make(dir)
    } else {
        Need::Nothing
    }
}

/// The folder, where a store is to be made in it that there can be.
fn make_in<'a>(layout: Option<Layout>, dir: &'a str) -> Need<'a>
    ensures { result ≡ make_in layout dir.entry }
{
    match layout {
        Some(layout) => make_if(is_size(layout), dir),
        None => Need::Nothing,
    }
}

/// Which folder an action needs, and for what.
pub fn folder_need<'a>(action: &Action<'a>) -> Need<'a>
    ensures { result ≡ need_of action.now }
{
    match *action {
        Action::Example => Need::Nothing,
        Action::Format { dir, layout } => make_in(layout, dir),
        Action::Run { dir } => Need::Change(dir),
        Action::At { dir, key: _, time } => change_if(time.is_some(), dir),
        Action::Between {
            dir,
            key: _,
            from,
            to,
        } => change_if(from.is_some() && to.is_some(), dir),
        Action::Ask {
            dir,
            question,
            style: _,
        } => change_if(question.is_some(), dir),
        Action::Write { dir, write: _ } => Need::Change(dir),
        Action::Vacuum { dir, time } => change_if(time.is_some(), dir),
        Action::Grow { dir } => Need::Change(dir),
        Action::Floor {
            dir,
            relation: _,
            time,
        } => change_if(time.is_some(), dir),
        Action::Info { dir, json: _ } => Need::Read(dir),
        Action::Dump { dir } => Need::Read(dir),
        Action::Stress {
            writers: _,
            readers: _,
            rounds: _,
        } => Need::Nothing,
    }
}
