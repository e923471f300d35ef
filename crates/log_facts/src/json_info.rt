//! What a log tells in JSON.
ghost use Rattle.std.specs.Prelude.{◌≡◌, ◌++◌, ◌∷◌, [], OnOk, IfOk, map, codes};
ghost use Rattle.std.specs.List.{flat_map};
ghost use Rattle.json.specs.Print.{print};
ghost use Rattle.json.specs.Token.{begin_array, end_array, key};
ghost use Rattle.log_facts.specs.Json.{Adds};
ghost use Rattle.log_facts.specs.Names.{named_as};
ghost use Rattle.log_facts.specs.Texts as told;

use crate::floor::Floor;
use crate::lines::Named;
use json::Writer;
use std::alloc::{AllocError, Global};

fn write_number(line: &mut Writer, number: Named<'_>) -> Result<(), AllocError>
    ensures { OnOk result (Adds line.old line.new (told.number_tokens (named_as number.entry))) }
{
    line.key(number.name)?;
    line.u64(number.number)
}

fn write_numbers(line: &mut Writer, numbers: &[Named<'_>]) -> Result<(), AllocError>
    ensures { OnOk result (Adds line.old line.new (flat_map told.number_tokens (map named_as numbers.now))) }
{
    for number in numbers {
        write_number(line, *number)?;
    }
    Ok(())
}

fn write_relation(line: &mut Writer, relation: Option<u16>) -> Result<(), AllocError>
    ensures { OnOk result (Adds line.old line.new (told.relation_tokens relation)) }
{
    match relation {
        Some(relation) => {
            line.key("relation")?;
            line.u64(u64::from(relation))
        }
        None => Ok(()),
    }
}

fn write_floor(line: &mut Writer, floor: Floor) -> Result<(), AllocError>
    ensures { OnOk result (Adds line.old line.new (told.floor_tokens floor)) }
{
    line.begin_object()?;
    write_relation(line, floor.relation)?;
    line.key("floor")?;
    line.u64(floor.time)?;
    line.end_object()
}

fn write_each_floor(line: &mut Writer, floors: &[Floor]) -> Result<(), AllocError>
    ensures { OnOk result (Adds line.old line.new (flat_map told.floor_tokens floors.now)) }
{
    for floor in floors {
        write_floor(line, *floor)?;
    }
    Ok(())
}

fn write_floors(line: &mut Writer, floors: &[Floor]) -> Result<(), AllocError>
    ensures { OnOk result (Adds line.old line.new (key (codes "floors") ∷ begin_array ∷ (flat_map told.floor_tokens floors.now ++ end_array ∷ []))) }
{
    line.key("floors")?;
    line.begin_array()?;
    write_each_floor(line, floors)?;
    line.end_array()
}

fn write_object(
    line: &mut Writer,
    numbers: &[Named<'_>],
    floors: &[Floor],
) -> Result<(), AllocError>
    ensures { OnOk result (Adds line.old line.new (told.tokens (map named_as numbers.now) floors.now)) }
{
    line.begin_object()?;
    write_numbers(line, numbers)?;
    write_floors(line, floors)?;
    line.end_object()
}

/// The text of an object with each number, and with the floors as an array.
pub fn json_text(
    alloc: Global,
    numbers: &[Named<'_>],
    floors: &[Floor],
) -> Result<Vec<u8>, AllocError>
    ensures { IfOk result (λ text. text.items ≡ print (told.tokens (map named_as numbers.now) floors.now) ++ codes "\n") }
{
    let mut line = Writer::new(Vec::new(alloc));
    write_object(&mut line, numbers, floors)?;
    let mut text = line.into_inner();
    text.push(b'\n')?;
    Ok(text)
}
