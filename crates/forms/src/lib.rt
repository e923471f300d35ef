//! How answers are spelled: fields in hexadecimal, as text, in JSON or in CSV, times as numbers or as instants.
#![tactic(auto)]

mod csv_line;
mod field;
mod json_line;
pub mod laws;
mod lines;
mod moment;
mod style;
mod text_field;

pub use lines::{
    spell_count, spell_found, spell_record, spell_record_head, spell_row, spell_row_head,
    spell_times,
};
pub use style::{Form, Style};
pub use text_field::{field_of, spell_hex_field, spell_text_field};
