//! Fields as text.
ghost use Rattle.std.specs.Prelude.{◌≡◌, ◌++◌, IfOk, OnOk, Some, MatchOption, option_map, true, false};
ghost use Rattle.std.specs.Io.KnownBytes.{Appends};
ghost use Rattle.std.specs.Str.{is_utf8};
ghost use Rattle.hex.specs.Hex.{encode_lower};
ghost use Rattle.forms.specs.Csv.{is_cell_text};
ghost use Rattle.forms.specs.Fields as told;

use hex::FromHexError;
use std::alloc::{AllocError, Global};

/// Bytes as a text, if they are one.
pub fn as_text(bytes: &[u8]) -> Option<&str>
    ensures { MatchOption result (is_utf8 bytes.now ≡ false) (λ text. (text.now ≡ bytes.now) × (is_utf8 bytes.now ≡ true)) }
{
    match str::from_utf8(bytes) {
        Ok(text) => Some(text),
        Err(_) => None,
    }
}

/// Whether a byte of a text is shown: it is no control character but a tab or the end of a line.
fn is_shown_byte(byte: u8) -> bool
    ensures { result ≡ told.is_shown_byte byte }
{
    (byte >= 32 && byte != 127) || (byte == 9 || (byte == 10 || byte == 13))
}

/// Whether each byte is shown.
fn are_shown(bytes: &[u8]) -> bool
    ensures { result ≡ told.are_shown bytes.now }
{
    bytes.iter().all(|byte| is_shown_byte(*byte))
}

/// Whether a field is a text that is shown.
fn is_text(field: &[u8]) -> bool
    ensures { result ≡ told.is_text field.now }
{
    are_shown(field) && as_text(field).is_some()
}

/// Whether a field is a text that is shown, and does not begin as that of bytes in hexadecimal.
pub fn is_cell_text(field: &[u8]) -> bool
    ensures { result ≡ is_cell_text field.now }
{
    match field {
        [b'\\', b'x', ..] => false,
        _ => is_text(field),
    }
}

/// Spells bytes in hexadecimal.
pub fn spell_hex(alloc: Global, text: &mut Vec<u8>, bytes: &[u8]) -> Result<(), AllocError>
    ensures { OnOk result (Appends (Some text.old.items) (Some text.new.items) (encode_lower bytes.now)) }
{
    let digits = hex::encode(alloc, bytes)?;
    text.extend_from_slice(digits.as_bytes())
}

/// Spells a byte of a text.
fn spell_byte(text: &mut Vec<u8>, byte: u8) -> Result<(), AllocError>
    ensures { OnOk result (Appends (Some text.old.items) (Some text.new.items) (told.escape_byte byte)) }
{
    match byte {
        b'\\' => text.extend_from_slice(b"\\\\"),
        b'\t' => text.extend_from_slice(b"\\t"),
        b'\n' => text.extend_from_slice(b"\\n"),
        b'\r' => text.extend_from_slice(b"\\r"),
        _ => Ok(text.push(byte)?),
    }
}

/// Spells the bytes of a text.
fn spell_bytes(text: &mut Vec<u8>, bytes: &[u8]) -> Result<(), AllocError>
    ensures { OnOk result (Appends (Some text.old.items) (Some text.new.items) (told.escaped bytes.now)) }
{
    for byte in bytes {
        spell_byte(text, *byte)?;
    }
    Ok(())
}

/// Spells a field as text on one line, and one that is no text as `\x` and its bytes in hexadecimal.
pub fn spell_text_field(alloc: Global, text: &mut Vec<u8>, field: &[u8]) -> Result<(), AllocError>
    ensures { OnOk result (Appends (Some text.old.items) (Some text.new.items) (told.text_field field.now)) }
{
    if is_text(field) {
        return spell_bytes(text, field);
    }
    text.extend_from_slice(b"\\x")?;
    spell_hex(alloc, text, field)
}

/// Spells a field in hexadecimal, the empty one as `-`.
pub fn spell_hex_field(alloc: Global, text: &mut Vec<u8>, field: &[u8]) -> Result<(), AllocError>
    ensures { OnOk result (Appends (Some text.old.items) (Some text.new.items) (told.hex_field field.now)) }
{
    if field.is_empty() {
        text.push(b'-')?;
        return Ok(());
    }
    spell_hex(alloc, text, field)
}

/// The byte that a backslash and a letter spell.
fn escaped_byte(letter: u8) -> Option<u8>
    ensures { result ≡ told.escaped_byte letter }
{
    match letter {
        b'\\' => Some(b'\\'),
        b't' => Some(b'\t'),
        b'n' => Some(b'\n'),
        b'r' => Some(b'\r'),
        _ => None,
    }
}

/// Reads a byte that follows a backslash or not, and tells whether the next one does; none where a
/// backslash comes before a letter that it may not precede.
fn read_byte(bytes: &mut Vec<u8>, is_after: bool, byte: u8) -> Result<Option<bool>, AllocError>
    ensures { IfOk result (told.ReadsByte bytes.old.items is_after byte bytes.new.items) }
{
    if is_after {
        return match escaped_byte(byte) {
            Some(meant) => {
                bytes.push(meant)?;
                Ok(Some(false))
            }
            None => Ok(None),
        };
    }
    if byte == b'\\' {
        return Ok(Some(true));
    }
    bytes.push(byte)?;
    Ok(Some(false))
}

/// The bytes that a text means, by its escapes, if it means any.
fn unescaped(alloc: Global, text: &[u8]) -> Result<Option<Vec<u8>>, AllocError>
    ensures { IfOk result (λ found. option_map (λ bytes. bytes.items) found ≡ told.unescaped false text.now) }
{
    let mut bytes = Vec::new(alloc);
    let mut is_after = false;
    for byte in text {
        match read_byte(&mut bytes, is_after, *byte)? {
            Some(after) => is_after = after,
            None => return Ok(None),
        }
    }
    if is_after {
        return Ok(None);
    }
    Ok(Some(bytes))
}

/// The bytes that digits spell, if they are digits.
fn from_digits(alloc: Global, digits: &[u8]) -> Result<Option<Vec<u8>>, AllocError>
    ensures { IfOk result (λ found. option_map (λ bytes. bytes.items) found ≡ told.bytes_of_digits digits.now) }
{
    match hex::decode(alloc, digits) {
        Ok(bytes) => Ok(Some(bytes)),
        Err(FromHexError::OutOfMemory) => Err(AllocError),
        Err(_) => Ok(None),
    }
}

/// The field that a text means, as `spell_text_field` spells it, if it means one.
///
/// # Errors
///
/// Where there is no memory for it.
pub fn field_of(alloc: Global, text: &str) -> Result<Option<Vec<u8>>, AllocError>
    ensures { IfOk result (λ found. option_map (λ bytes. bytes.items) found ≡ told.field_of text.now) }
{
    match text.as_bytes() {
        [b'\\', b'x', digits @ ..] => from_digits(alloc, digits),
        bytes => unescaped(alloc, bytes),
    }
}
