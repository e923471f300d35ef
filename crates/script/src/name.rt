//! Names of transactions and tickets.
ghost use Rattle.std.specs.Prelude.{◌≡◌, ◌≤◌, ℕ, List, take};
ghost use Rattle.script.specs.Words.{is_name_byte};
ghost use Rattle.script.specs.Words as names;
ghost use Rattle.std.specs.List.{list_all};

use std::marker::Model;

/// A name: 1 to 16 of `a` to `z` and `0` to `9`.
#[derive(Drop)]
pub struct Name {
    bytes: [u8; 16],
    len: usize,
}

impl Model for Name {
    ghost Value = { List ℕ };

    ghost view = { λ n. take n.len n.bytes };

    ghost invariant = { λ n. n.len ≤ 16 };
}

fn is_letter_or_digit(byte: u8) -> bool
    ensures { result ≡ is_name_byte byte }
{
    byte.is_ascii_lowercase() || byte.is_ascii_digit()
}

fn has_only_letters_and_digits(word: &[u8]) -> bool
    ensures { result ≡ list_all is_name_byte word.now }
{
    word.iter().all(|b| is_letter_or_digit(*b))
}

/// Whether a word is a name.
fn is_name(word: &[u8]) -> bool
    ensures { result ≡ names.is_name word.now }
{
    if word.is_empty() || word.len() > 16 {
        return false;
    }
    has_only_letters_and_digits(word)
}

impl Name {
    /// The name that a word spells.
    pub fn new(word: &[u8]) -> Option<Name>
        ensures { result ≡ names.name_in word.now }
    {
        if !is_name(word) {
            return None;
        }
        let mut bytes = [0; 16];
        bytes[..word.len()].copy_from_slice(word);
        Some(Name {
            bytes,
            len: word.len(),
        })
    }

    /// The bytes of the name.
    pub fn as_bytes(&self) -> &[u8]
        ensures { result.now ≡ self.now }
    {
        &self.bytes[..self.len]
    }
}
