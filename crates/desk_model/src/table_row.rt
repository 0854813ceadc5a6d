use crate::TableName;
use desk_rows::Keyed;
use desk_text::{Bytes, OutOfMemory};
use std::alloc::Global;

/// A row of one of the ten tables: its table, the code that names it there, and the text of what its code doesn't tell. With
/// the table's number the two are all that there is to keep of the row.
pub trait TableRow: Keyed {
    ghost use Rattle.std.specs.Prelude.{◌≡◌, IfOk};
    ghost use Rattle.desk_model.specs.declared.row.Row.{Row};
    ghost use Rattle.desk_model.specs.declared.table_name.TableName.{TableName};
    ghost use Rattle.desk_model.specs.RowTexts.{body_text};
    ghost use Rattle.desk_model.specs.Rows.{record_code};
    ghost use Rattle.desk_model.specs.Tables.{table_of};

    // The row as one of any table.
    ghost as_row: { Self → Row };

    // The table that such rows are of.
    ghost table: { TableName };

    /// The table that such rows are of.
    fn table() -> TableName
        ensures table { result ≡ table }
        ensures rows { (row : Self) → table_of (as_row row) ≡ table };

    /// The code that names the row in its table.
    ///
    /// `OutOfMemory`: none was left for the code.
    fn code_text(&self, alloc: Global) -> Result<Bytes, OutOfMemory>
        ensures { IfOk result (λ code. code ≡ record_code (as_row self.now)) };

    /// The version and the row's fields, joined by TAB.
    ///
    /// `OutOfMemory`: none was left for the text.
    fn body_text(&self, alloc: Global) -> Result<Bytes, OutOfMemory>
        ensures { IfOk result (λ body. body ≡ body_text (as_row self.now)) };
}
