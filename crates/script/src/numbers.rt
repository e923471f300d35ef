//! Decimal numbers.
ghost use Rattle.std.specs.Prelude.{◌≡◌};
ghost use Rattle.script.specs.Words.{number_in};
ghost use Rattle.script.specs.Lines.{most};

/// The number that a word of 1 to 20 digits spells.
pub fn number(word: &[u8]) -> Option<u64>
    ensures { result ≡ number_in most word.now }
{
    if word.is_empty() || word.len() > 20 {
        return None;
    }
    let mut value = 0u64;
    for byte in word {
        if !byte.is_ascii_digit() {
            return None;
        }
        value = value.checked_mul(10)?.checked_add(u64::from(*byte - b'0'))?;
    }
    Some(value)
}

/// The number that a word of 1 to 20 digits spells, up to 65,535.
pub fn relation_number(word: &[u8]) -> Option<u16>
    ensures { result ≡ number_in 65_535 word.now }
{
    u16::try_from(number(word)?).ok()
}
