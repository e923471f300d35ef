//! Bytes as hexadecimal digits.
ghost use Rattle.std.specs.Prelude.{◌≡◌, ◌<◌, length, map, slice_index, OnOk, Some};
ghost use Rattle.std.specs.Io.KnownBytes.{Appends};
ghost use Rattle.hex.specs.Hex.{lower_digits};
ghost use Rattle.session.specs.Digits.{pair_text};
ghost use Rattle.session.specs.Texts.{hex_text};

use std::alloc::AllocError;

/// So many bytes are spelled at once: of a number of bytes that is known beforehand the machine makes
/// the digits side by side, in fewer steps than a table of digits takes. The kit's `hex` makes a new
/// text for each field.
const BLOCK: usize = 16;

/// The lower-case digit of a number below 16.
fn digit(number: u8) -> u8
    requires { number < 16 }
    ensures { result ≡ slice_index lower_digits number }
{
    if number < 10 {
        number + b'0'
    } else {
        number - 10 + b'a'
    }
}

/// The two digits of a byte, the high one first.
fn digit_pair(byte: u8) -> [u8; 2]
    ensures { result ≡ pair_text byte }
{
    [digit(byte >> 4), digit(byte & 0x0f)]
}

/// The digits of each byte of a block.
fn digit_pairs(block: &[u8; BLOCK]) -> [[u8; 2]; BLOCK]
    ensures { result ≡ map pair_text block.now }
{
    let mut pairs = [[0; 2]; BLOCK];
    for i in 0..BLOCK {
        pairs[i] = digit_pair(block[i]);
    }
    pairs
}

/// Spells the bytes of a block.
fn spell_block(text: &mut Vec<u8>, block: &[u8; BLOCK]) -> Result<(), AllocError>
    ensures { OnOk result (Appends (Some text.old.items) (Some text.new.items) (hex_text block.now)) }
{
    let pairs = digit_pairs(block);
    text.extend_from_slice(pairs.as_flattened())
}

/// Spells bytes that fill no block.
fn spell_rest(text: &mut Vec<u8>, bytes: &[u8]) -> Result<(), AllocError>
    requires { length bytes.now < 16 }
    ensures { OnOk result (Appends (Some text.old.items) (Some text.new.items) (hex_text bytes.now)) }
{
    if bytes.is_empty() {
        return Ok(());
    }
    let mut block = [0; BLOCK];
    block[..bytes.len()].copy_from_slice(bytes);
    let pairs = digit_pairs(&block);
    text.extend_from_slice(pairs[..bytes.len()].as_flattened())
}

/// Spells bytes in hexadecimal, two lower-case digits a byte.
pub fn spell_hex(text: &mut Vec<u8>, bytes: &[u8]) -> Result<(), AllocError>
    ensures { OnOk result (Appends (Some text.old.items) (Some text.new.items) (hex_text bytes.now)) }
{
    let (blocks, rest) = bytes.as_chunks::<BLOCK>();
    for block in blocks {
        spell_block(text, block)?;
    }
    spell_rest(text, rest)
}
