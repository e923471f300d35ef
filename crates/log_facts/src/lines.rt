//! What a log tells as lines.
ghost use Rattle.std.specs.Prelude.{◌≡◌, ◌++◌, OnOk, Some, map, codes};
ghost use Rattle.std.specs.List.{flat_map};
ghost use Rattle.std.specs.Io.KnownBytes.{Appends};
ghost use Rattle.log_facts.specs.Names.{named_as};
ghost use Rattle.log_facts.specs.Texts as told;

use crate::floor::Floor;
use std::io;
use std::io::Write;

/// A number and its name.
#[derive(Clone, Copy, Debug, PartialEq, Eq)]
pub struct Named<'a> {
    pub name: &'a str,
    pub number: u64,
}

fn spell_number(text: &mut Vec<u8>, number: Named<'_>) -> io::Result<()>
    ensures { OnOk result (Appends (Some text.old.items) (Some text.new.items) (told.number_line (named_as number.entry))) }
{
    writeln!(text, "{} {}", number.name, number.number)
}

fn spell_numbers(text: &mut Vec<u8>, numbers: &[Named<'_>]) -> io::Result<()>
    ensures { OnOk result (Appends (Some text.old.items) (Some text.new.items) (flat_map told.number_line (map named_as numbers.now))) }
{
    for number in numbers {
        spell_number(text, *number)?;
    }
    Ok(())
}

fn spell_floor(text: &mut Vec<u8>, floor: Floor) -> io::Result<()>
    ensures { OnOk result (Appends (Some text.old.items) (Some text.new.items) (told.floor_line floor)) }
{
    let time = floor.time;
    match floor.relation {
        Some(relation) => writeln!(text, "floor {relation} {time}"),
        None => writeln!(text, "floor {time}"),
    }
}

fn spell_floors(text: &mut Vec<u8>, floors: &[Floor]) -> io::Result<()>
    ensures { OnOk result (Appends (Some text.old.items) (Some text.new.items) (flat_map told.floor_line floors.now)) }
{
    for floor in floors {
        spell_floor(text, *floor)?;
    }
    Ok(())
}

/// Spells a line for each number, and one for each floor.
pub fn spell_lines(text: &mut Vec<u8>, numbers: &[Named<'_>], floors: &[Floor]) -> io::Result<()>
    ensures { OnOk result (Appends (Some text.old.items) (Some text.new.items) (told.lines (map named_as numbers.now) floors.now)) }
{
    spell_numbers(text, numbers)?;
    spell_floors(text, floors)
}
