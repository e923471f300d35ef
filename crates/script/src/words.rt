//! The words of a line.
ghost use Rattle.std.specs.Prelude.{◌≡◌, ◌↔◌, List, [], ◌∷◌, ℕ, IsTrue, MatchOption, option_map};
ghost use Rattle.std.specs.Option.{option_map_or};
ghost use Rattle.script.specs.Words as told;

use std::marker::Model;

/// The words that are left of a line, parted by one space.
#[derive(Drop)]
pub struct Words<'a> {
    rest: Option<&'a [u8]>,
}

impl<'a> Model for Words<'a> {
    ghost Value = { List (List ℕ) };

    ghost view = { λ w. told.words_left (option_map (λ text. text.now) w.rest) };
}

/// The first word of a text, and what follows the space after it.
fn split_first_word(text: &[u8]) -> (&[u8], Option<&[u8]>)
    ensures { told.words_of text.now ≡ result.0.now ∷ option_map_or (λ rest. told.words_of rest.now) result.1 [] }
{
    for (at, byte) in text.iter().enumerate() {
        if *byte == b' ' {
            return (&text[..at], Some(&text[at + 1..]));
        }
    }
    (text, None)
}

impl<'a> Words<'a> {
    /// The words of a line.
    pub fn new(line: &'a [u8]) -> Words<'a>
        ensures { result ≡ told.words_of line.entry.now }
    {
        Words { rest: Some(line) }
    }

    /// The next word, if one is left.
    pub fn next(&mut self) -> Option<&'a [u8]>
        ensures { MatchOption result ((self.old ≡ []) × (self.new ≡ [])) (λ word. self.old ≡ word.now ∷ self.new) }
    {
        let (word, rest) = split_first_word(self.rest?);
        self.rest = rest;
        Some(word)
    }

    /// The same words once more.
    pub fn again(&self) -> Words<'a>
        ensures { result ≡ self.now }
    {
        Words { rest: self.rest }
    }

    /// Whether no word is left.
    pub fn is_empty(&self) -> bool
        ensures { IsTrue result ↔ (self.now ≡ []) }
    {
        self.rest.is_none()
    }
}
