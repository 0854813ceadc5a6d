ghost use Rattle.std.specs.Prelude.{◌≡◌, ◌∷◌, ℕ, Err, IfOk, List, MatchBool, true};
ghost use Rattle.desk_model.specs.declared.row.Row.{Row};
ghost use Rattle.desk_model.specs.RowTexts.{version};
ghost use Rattle.desk_fields.specs.RowTexts.{HasVersion, IsRowOf, has_texts};

use crate::RowFault;
use crate::fields::Fields;
use crate::rows::row_of;
use desk_model::Row;
use std::alloc::Global;

/// The version of the texts of rows.
const VERSION: &[u8] = b"1";

/// The row of the table of this number, from 1 to 10, that has this code and this text.
///
/// `Version`: the first field of the text isn't `1`. `Shape`: it is, and no row of the table has this code and this
/// text. `OutOfMemory`: there was no memory to read it; it comes only behind the version, and only where rows of the table hold texts
/// or lists.
pub fn read_row(alloc: Global, table: u8, code: &[u8], body: &[u8]) -> Result<Row, RowFault>
    ensures row { IfOk result (λ row. IsRowOf table code.now body.now row) }
    ensures version { result ≡ Err RowFault.Version → HasVersion body.now → ⊥ }
    ensures versioned { result ≡ Err RowFault.Shape → HasVersion body.now }
    ensures shape { result ≡ Err RowFault.Shape → (row : Row) → IsRowOf table code.now body.now row → ⊥ }
    ensures memory { result ≡ Err RowFault.OutOfMemory → HasVersion body.now × (has_texts table ≡ true) }
{
    let mut fields = Fields::of(body);
    if !take_version(&mut fields) {
        return Err(RowFault::Version);
    }
    Ok(row_of(alloc, table, code, &mut fields)?)
}

/// Takes the first field, and answers whether it is the version.
fn take_version(fields: &mut Fields<'_>) -> bool
    ensures { MatchBool result (fields.old ≡ version ∷ fields.new)
        ((rest : List (List ℕ)) → fields.old ≡ version ∷ rest → ⊥) }
{
    match fields.next() {
        Some(field) => field == VERSION,
        None => false,
    }
}
