ghost use Rattle.std.specs.Prelude.{◌≡◌, ◌≢◌, ◌+◌, ◌^◌, ◌≤◌, Err, IfErr, IfOk, Ok, OnOk, length};
ghost use Rattle.desk_model.specs.Declaration.{Declared};
ghost use Rattle.desk_model.specs.declared.edit.Edit.TheVariants.{Declare};
ghost use Rattle.desk_declare.specs.Declaration.{declaration_in, declaration_of, rows_added};

use crate::DeclareFault;
use crate::row::{add_row, begin};
use crate::rows::Rows;
use csv::ByteRecord;
use desk_model::{Declaration, Edit};
use std::alloc::Global;

/// The edit that a declaration in comma-separated values spells: a head `D`, then rows `M` for materials, `S` for
/// the substances in them and `E` for the exemptions that are claimed for them, each after its material's.
///
/// One byte-order mark at the start is no part of the text. The first record with a fault decides, and its faults are
/// tried in the order in which [`DeclareFault`] lists them.
#[tactic(auto, unfolding(crate::specs::Declaration::declaration_in))]
pub fn read_declaration(alloc: Global, bytes: &[u8]) -> Result<Edit, DeclareFault>
    ensures edit { result ≢ Err DeclareFault.OutOfMemory → result ≡ declaration_of bytes.now }
    ensures declares { IfOk result (λ edit. (d : Declared) × (edit ≡ Declare d)) }
{
    let mut rows = Rows::new(alloc, bytes);
    let mut row = ByteRecord::new(alloc);
    if !rows.next(&mut row)? {
        return Err(DeclareFault::NoHead);
    }
    let mut declaration = begin(alloc, &row)?;
    add_rows(alloc, &mut declaration, &mut rows, &mut row)?;
    Ok(Edit::Declare { declaration })
}

/// Adds what each of the rows under the head lists. `row` is room for one of them.
fn add_rows(
    alloc: Global,
    declaration: &mut Declaration,
    rows: &mut Rows<'_>,
    row: &mut ByteRecord,
) -> Result<(), DeclareFault>
    requires { length rows.old + 2 ≤ 2 ^ 64 }
    ensures ok { OnOk result (rows_added 2 rows.old declaration.old ≡ Ok declaration.new) }
    ensures error { IfErr result (λ fault. fault ≢ DeclareFault.OutOfMemory → rows_added 2 rows.old declaration.old ≡ Err fault) }
{
    let mut place = 1;
    'rows: while rows.next(row)? {
        place += 1;
        add_row(alloc, declaration, place, row)?;
    }
    Ok(())
}
