//! The forms of an answer.
ghost use Rattle.std.specs.Prelude.{◌≡◌};
ghost use Rattle.forms.specs.Styles as told;

/// How fields are spelled.
#[derive(Clone, Copy, Debug, PartialEq, Eq)]
pub enum Form {
    /// In hexadecimal, `-` for an empty one; words are parted by spaces.
    Hex,
    /// As text; words are parted by tabs.
    Text,
    /// In JSON, an object a line.
    Json,
    /// In CSV, a row a line, below the names of the columns.
    Csv,
}

/// How an answer is spelled.
#[derive(Clone, Copy, Debug, PartialEq, Eq)]
pub struct Style {
    pub form: Form,
    /// Whether a time is spelled as an instant.
    pub instants: bool,
}

impl Style {
    /// That of scripts: fields in hexadecimal, times as numbers.
    pub fn plain() -> Self
        ensures { result ≡ told.plain }
    {
        Style {
            form: Form::Hex,
            instants: false,
        }
    }

    /// Whether it is that of scripts.
    pub fn is_plain(self) -> bool
        ensures { result ≡ told.is_plain self }
    {
        match self.form {
            Form::Hex => !self.instants,
            Form::Text => false,
            Form::Json => false,
            Form::Csv => false,
        }
    }
}
