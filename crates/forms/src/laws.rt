//! What is true of the texts of fields.
ghost use Rattle.forms.specs.Laws.{CellsMeanFields, RowsReadBack, TextsMeanFields};

/// What is spelled of a field as text means that field, whatever its bytes are.
pub fn texts_mean_fields()
    ensures { TextsMeanFields }
{}

/// So does what is spelled of it as a cell.
pub fn cells_mean_fields()
    ensures { CellsMeanFields }
{}

/// What is spelled as rows of CSV is read back as these rows, by the rules of RFC 4180 that the kit's reader follows.
pub fn rows_read_back()
    ensures { RowsReadBack }
{}
