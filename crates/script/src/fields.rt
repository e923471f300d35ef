//! Fields in lower-case hexadecimal.
ghost use Rattle.std.specs.Prelude.{◌≡◌, ◌+◌, ◌*◌, ◌<◌, List, ℕ, IfOk, IsTrue, map};
ghost use Rattle.std.specs.List.{list_all};
ghost use Rattle.std.specs.Str.{bytes_eq};
ghost use Rattle.script.specs.Words as told;

use crate::words::Words;
use std::alloc::{AllocError, Global};
use std::marker::Model;

/// The fields that words of a line spell: two lower-case hexadecimal digits a byte, `-` for the empty field.
#[derive(Drop)]
pub struct Fields<'a> {
    words: Words<'a>,
}

impl<'a> Model for Fields<'a> {
    ghost Value = { List (List ℕ) };

    ghost view = { λ f. map told.field_bytes f.words };

    ghost invariant = { λ f. IsTrue (list_all told.is_field f.words) };
}

fn is_hex_digit(byte: u8) -> bool
    ensures { result ≡ told.is_hex_digit byte }
{
    byte.is_ascii_digit() || (byte >= b'a' && byte <= b'f')
}

fn has_only_hex_digits(word: &[u8]) -> bool
    ensures { result ≡ list_all told.is_hex_digit word.now }
{
    word.iter().all(|b| is_hex_digit(*b))
}

fn is_dash(word: &[u8]) -> bool
    ensures { result ≡ bytes_eq word.now told.dash }
{
    word == b"-".as_slice()
}

/// Whether a word spells a field.
fn is_field(word: &[u8]) -> bool
    ensures { result ≡ told.is_field word.now }
{
    if is_dash(word) {
        return true;
    }
    if word.is_empty() || word.len() % 2 != 0 {
        return false;
    }
    has_only_hex_digits(word)
}

/// Whether each word that is left spells a field.
fn are_fields(mut words: Words<'_>) -> bool
    ensures { result ≡ list_all told.is_field words.entry }
{
    while let Some(word) = words.next() {
        if !is_field(word) {
            return false;
        }
    }
    true
}

/// The value of a hexadecimal digit.
fn hex_digit_value(digit: u8) -> u8
    requires { IsTrue (told.is_hex_digit digit) }
    ensures value { result ≡ told.hex_digit_value digit }
    ensures small { result < 16 }
{
    if digit.is_ascii_digit() {
        digit - b'0'
    } else {
        digit - b'a' + 10
    }
}

/// The bytes that hexadecimal digits spell, two a byte.
fn hex_bytes(alloc: Global, word: &[u8]) -> Result<Vec<u8>, AllocError>
    requires { IsTrue (list_all told.is_hex_digit word.now) }
    ensures { IfOk result (λ bytes. bytes.items ≡ told.hex_bytes word.now) }
{
    let mut bytes = Vec::with_capacity(alloc, word.len() / 2)?;
    let mut rest = word;
    while let [high, low, more @ ..] = rest {
        bytes.push(hex_digit_value(*high) * 16 + hex_digit_value(*low))?;
        rest = more;
    }
    Ok(bytes)
}

/// The bytes of a field.
fn field_bytes(alloc: Global, word: &[u8]) -> Result<Vec<u8>, AllocError>
    requires { IsTrue (told.is_field word.now) }
    ensures { IfOk result (λ bytes. bytes.items ≡ told.field_bytes word.now) }
{
    if is_dash(word) {
        return Ok(Vec::new(alloc));
    }
    hex_bytes(alloc, word)
}

impl<'a> Fields<'a> {
    /// The fields that the words left spell, where each word spells one.
    pub(crate) fn new(words: Words<'a>) -> Option<Fields<'a>>
        ensures { result ≡ told.fields_in words.entry }
    {
        if are_fields(words.again()) {
            Some(Fields { words })
        } else {
            None
        }
    }

    /// The bytes of each field.
    pub fn decode(self, alloc: Global) -> Result<Vec<Vec<u8>>, AllocError>
        ensures { IfOk result (λ fields. map (λ f. f.items) fields.items ≡ self.entry) }
    {
        let Fields { mut words } = self;
        let mut fields = Vec::new(alloc);
        while let Some(word) = words.next() {
            fields.push(field_bytes(alloc, word)?)?;
        }
        Ok(fields)
    }
}
