//! Laws of records, each proved as the contract of a function that does nothing.

ghost use Rattle.desk_records.specs.Laws.{RecordsReadBack, RowsAreInForm, RowsHaveKeys};

/// What is written of a row in form is read as that row, and what is read is written as it was.
pub fn records_are_read_back()
    ensures { RecordsReadBack }
{}

/// No two rows of sound tables have records of one key.
pub fn rows_have_keys_of_their_own()
    ensures { RowsHaveKeys }
{}

/// The rows of sound tables are in form, so that the records of the tables are read again.
pub fn rows_are_in_form()
    ensures { RowsAreInForm }
{}
