//! Dialogues as text: lines of a script with their answers, and how a store of each profile says them.
use std::alloc::{AllocError, Global};
use std::fmt::Write;

/// How a line ends that is of the newest profile, and how it does of profiles 1 and 2: the line of an
/// opening, the first line of a log, and the first bytes of a header.
const ENDINGS: &[(&str, &str, &str)] = &[
    (" floors 0", " floor 0", " floor 0"),
    (" pieces 0", "", " pieces 0"),
    (
        "4e4f4f5645523031 03000000",
        "4e4f4f5645523031 01000000",
        "4e4f4f5645523031 02000000",
    ),
];

/// A line of the newest profile in two parts, of which the second is as this profile has it.
pub fn parts_of_profile(line: &str, profile: u8) -> (&str, &str) {
    for (newest, first, second) in ENDINGS {
        if let Some(before) = line.strip_suffix(*newest) {
            return match profile {
                1 => (before, *first),
                2 => (before, *second),
                _ => (before, *newest),
            };
        }
    }
    (line, "")
}

/// The answer of a line of a dialogue: what stands behind its bar, or all of a line that has none. Behind
/// a bar alone stands a further line of an answer.
fn answer_of(line: &str) -> &str {
    match line.split_once(" | ") {
        Some((_, answer)) => answer,
        None => line.strip_prefix("| ").unwrap_or(line),
    }
}

/// The place behind a line that stands at a place of a text. The line is as this profile has it.
fn behind_line(text: &str, place: usize, line: &str, profile: u8) -> Option<usize> {
    let (before, ending) = parts_of_profile(line, profile);
    let rest = text.get(place..)?.strip_prefix(before)?;
    let rest = rest.strip_prefix(ending)?.strip_prefix('\n')?;
    Some(text.len().saturating_sub(rest.len()))
}

/// What was said behind the first answers of a dialogue, as a store of this profile has them, if they
/// were said.
pub fn behind_answers<'a>(
    said: &'a str,
    dialogue: &str,
    answers: usize,
    profile: u8,
) -> Option<&'a str> {
    let mut place: usize = 0;
    for line in dialogue.lines().take(answers) {
        place = behind_line(said, place, answer_of(line), profile)?;
    }
    said.get(place..)
}

/// Whether the answers of a dialogue were said, as a store of this profile has them, and no more.
pub fn are_answers(said: &str, dialogue: &str, profile: u8) -> bool {
    behind_answers(said, dialogue, usize::MAX, profile) == Some("")
}

/// Appends a line.
fn push_line(text: &mut String, line: &str) -> Result<(), AllocError> {
    text.push_str(line)?;
    text.push('\n')
}

/// The script of a dialogue's first lines: of each what stands before its bar.
pub fn script_of(alloc: Global, dialogue: &str, lines: usize) -> Result<String, AllocError> {
    let mut script = String::new(alloc);
    for line in dialogue.lines().take(lines) {
        if let Some((command, _)) = line.split_once(" | ") {
            push_line(&mut script, command)?;
        }
    }
    Ok(script)
}

/// Appends a number.
fn push_number(text: &mut String, number: u32) -> Result<(), AllocError> {
    write!(text, "{number}")?;
    Ok(())
}

/// A field of so many bytes, behind a blank.
fn push_field(text: &mut String, len: u32) -> Result<(), AllocError> {
    text.push(' ')?;
    for _ in 0..len {
        text.push_str("61")?;
    }
    Ok(())
}

/// A field of 255 bytes as it is stored: its length, and its bytes.
fn push_stored_field(text: &mut String) -> Result<(), AllocError> {
    text.push_str(" ff")?;
    push_field(text, 255)
}

/// So many fields of this many bytes each.
fn push_fields(text: &mut String, count: u32, len: u32) -> Result<(), AllocError> {
    for _ in 0..count {
        push_field(text, len)?;
    }
    Ok(())
}

/// One sign of a part of a dialogue, as `repeated` says.
fn push_sign(text: &mut String, sign: char, number: u32) -> Result<(), AllocError> {
    match sign {
        '#' => push_number(text, number),
        '+' => push_number(text, number.saturating_add(1)),
        '@' => push_number(text, number.saturating_add(100)),
        'A' => push_fields(text, 16, 255),
        'B' => push_fields(text, 17, 1),
        'C' => push_fields(text, 1, 256),
        'E' => push_stored_field(text),
        other => text.push(other),
    }
}

/// One repetition of a part of a dialogue.
fn push_part(text: &mut String, part: &str, number: u32) -> Result<(), AllocError> {
    for sign in part.chars() {
        push_sign(text, sign, number)?;
    }
    Ok(())
}

/// A part of a dialogue as its repetition of this number.
pub fn numbered(alloc: Global, part: &str, number: u32) -> Result<String, AllocError> {
    let mut text = String::new(alloc);
    push_part(&mut text, part, number)?;
    Ok(text)
}

/// All repetitions of a part of a dialogue.
fn push_parts(text: &mut String, (part, count): (&str, u32)) -> Result<(), AllocError> {
    for number in 0..count {
        push_part(text, part, number)?;
    }
    Ok(())
}

/// A dialogue of parts, each repeated so many times. In a part `#` stands for the repetition's number
/// from 0, `+` for one more, `@` for 100 more; `A` for 16 fields of 255 bytes, `B` for 17 of one, `C` for
/// one of 256, and `E` for one of 255 as it is stored.
pub fn repeated(alloc: Global, parts: &[(&str, u32)]) -> Result<String, AllocError> {
    let mut text = String::new(alloc);
    for part in parts {
        push_parts(&mut text, *part)?;
    }
    Ok(text)
}
