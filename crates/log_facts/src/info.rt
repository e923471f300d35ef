//! The text of what a log tells.
ghost use Rattle.std.specs.Prelude.{◌≡◌, IfOk, OnOk, map, ◌++◌};
ghost use Rattle.log_facts.specs.Facts as facts;
ghost use Rattle.log_facts.specs.Names.{named_as};
ghost use Rattle.log_facts.specs.Texts as told;

use crate::facts::{
    archive, archived, commits, days_left, extents, first_time, last_anchors, last_time,
};
use crate::floor::{Floor, floors};
use crate::json_info::json_text;
use crate::lines::{Named, spell_lines};
use status::Header;
use std::alloc::{AllocError, Global};
use std::io;
use wire::Slot;

/// A number with its name.
pub(crate) fn named(name: &'static str, number: u64) -> Named<'static>
    ensures { named_as result ≡ told.named name.entry.now number }
{
    Named { name, number }
}

/// The numbers in their order.
fn numbers(header: &Header, slots: &[Slot]) -> [Named<'static>; 10]
    ensures { map named_as result ≡ told.numbers header.now slots.now }
{
    [
        named("profile", u64::from(header.profile.number())),
        named("slots", header.total()),
        named("used", slots.len() as u64),
        named("extents", extents(slots)),
        named("commits", commits(slots)),
        named("first", first_time(slots)),
        named("last", last_time(slots)),
        named("archived", archived(slots)),
        named("archive", archive(slots)),
        named("reclaimed", last_anchors(slots).upto),
    ]
}

/// All numbers: these, and the days that the slots last, if that is known.
fn all_numbers(
    alloc: Global,
    header: &Header,
    slots: &[Slot],
) -> Result<Vec<Named<'static>>, AllocError>
    ensures { IfOk result (λ all. map named_as all.items ≡ told.all_numbers header.now slots.now) }
{
    let mut all = Vec::new(alloc);
    all.extend_from_slice(&numbers(header, slots))?;
    if let Some(days) = days_left(header, slots) {
        all.push(named("days", days))?;
    }
    Ok(all)
}

/// The text of numbers and floors as lines.
fn lines_text(alloc: Global, numbers: &[Named<'_>], floors: &[Floor]) -> io::Result<Vec<u8>>
    ensures { IfOk result (λ text. text.items ≡ told.lines (map named_as numbers.now) floors.now) }
{
    let mut text = Vec::new(alloc);
    spell_lines(&mut text, numbers, floors)?;
    Ok(text)
}

pub(crate) fn text_by(
    alloc: Global,
    json: bool,
    numbers: &[Named<'_>],
    floors: &[Floor],
) -> io::Result<Vec<u8>>
    ensures { IfOk result (λ text. text.items ≡ told.text_by json (map named_as numbers.now) floors.now) }
{
    if json {
        return Ok(json_text(alloc, numbers, floors)?);
    }
    lines_text(alloc, numbers, floors)
}

/// The text of what the log of a store tells: the profile, how much is used, the times of the first and the
/// last commit, the marks, for how many days the slots last, and the floors; in JSON or as lines.
///
/// # Errors
///
/// Where there is no memory for it.
pub fn info_text(alloc: Global, json: bool, header: &Header, slots: &[Slot]) -> io::Result<Vec<u8>>
    ensures { IfOk result (λ text. text.items ≡ told.info_text json header.now slots.now) }
{
    let numbers = all_numbers(alloc, header, slots)?;
    let floors = floors(alloc, slots)?;
    text_by(alloc, json, numbers.as_slice(), floors.as_slice())
}
