//! Laws of texts that are read back, each proved as the contract of a function that does nothing.

ghost use Rattle.desk_fields.specs.Laws.{EditsReadBack, RowsReadBack};

/// What is written of a row in form is read as that row, and what is read is written as it was.
pub fn rows_are_read_back()
    ensures { RowsReadBack }
{}

/// One edit in form has a ticket's code and a text.
pub fn edits_are_read_back()
    ensures { EditsReadBack }
{}
