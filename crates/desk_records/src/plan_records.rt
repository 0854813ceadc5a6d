ghost use Rattle.std.specs.Prelude.{◌≡◌, ◌<◌, ◌^◌, [], ◌∷◌, ◌++◌, ◌≢◌, ℕ, decimal, IfErr, IfOk, map, true};
ghost use Rattle.desk_edge.specs.Content.{IsChanged};
ghost use Rattle.desk_edge.specs.declared.change.Change.TheVariants.{Put, Drop};
ghost use Rattle.desk_history.specs.Sound.{Sound};
ghost use Rattle.desk_history.specs.Step.{step};
ghost use Rattle.desk_model.specs.declared.edit.Edit.{Edit};
ghost use Rattle.desk_model.specs.declared.row.Row.TheVariants.{Ticket};
ghost use Rattle.desk_model.specs.Forms.{is_edit_in_form};
ghost use Rattle.desk_model.specs.Rows.{pair_code};
ghost use Rattle.desk_model.specs.Tables.{number_of_table};
ghost use Rattle.desk_model.specs.declared.table_name.TableName.TheVariants.{Shipments};
ghost use Rattle.desk_records.specs.Changes.{AreDropsInForm, plan_changes, row_changes};
ghost use Rattle.desk_records.specs.Records.{record_of, tables_content};
ghost use Rattle.desk_tables.specs.Desk.{Desk};
ghost use Rattle.desk_tables.specs.Plan.{IsPlan};

use crate::row_record::record_of_row;
use desk_edge::{Change, Key};
use desk_model::{TableName, TableRow, TicketRow, code_bytes, pair_code};
use desk_tables::{RowChange, TablesPlan};
use desk_text::{Bytes, OutOfMemory};
use std::alloc::Global;

/// What the plan does to the records of a store of the tables: the record of each row that goes in is put, with the
/// ticket's at the end, or the key of the row that is taken out is dropped. An edit that is kept changes nothing.
///
/// `OutOfMemory`: none was left for the changes. An edit that is kept takes none.
#[tactic(auto, unfolding(crate::specs::Changes::plan_changes))]
pub fn changes(alloc: Global, plan: &TablesPlan) -> Result<Vec<Change>, OutOfMemory>
    ensures changes { IfOk result (λ changes. changes.items ≡ plan_changes plan.now) }

    // Where the plan is an edit's, a store of the tables that makes them is one of the tables after the edit.
    ensures moves { IfOk result (λ changes. (desk : Desk) (edit : Edit)
        → Sound desk.lists → is_edit_in_form edit ≡ true → IsPlan desk edit plan.now
        → IsChanged changes.items (tables_content desk.lists) (tables_content (step desk.lists edit).1)) }
    ensures memory { IfErr result (λ _. (n : ℕ) → plan.now ≢ TablesPlan.Kept n) }
{
    match plan {
        TablesPlan::Kept { .. } => Ok(Vec::new(alloc)),
        TablesPlan::New { change, ticket, .. } => with_ticket(alloc, change, ticket),
    }
}

/// The changes of an edit that is new.
fn with_ticket(
    alloc: Global,
    change: &RowChange,
    ticket: &TicketRow,
) -> Result<Vec<Change>, OutOfMemory>
    ensures changes { IfOk result (λ changes.
        changes.items ≡ row_changes change.now ++ Put (record_of (Ticket ticket.now)) ∷ []) }
    ensures form { IfOk result (λ _. AreDropsInForm change.now) }
{
    let mut changes = changes_of_rows(alloc, change)?;
    changes.push(put(alloc, ticket)?)?;
    Ok(changes)
}

/// The changes that a change of rows makes.
#[tactic(auto, unfolding(crate::specs::Changes::row_changes, crate::specs::Changes::AreDropsInForm))]
fn changes_of_rows(alloc: Global, change: &RowChange) -> Result<Vec<Change>, OutOfMemory>
    ensures changes { IfOk result (λ changes. changes.items ≡ row_changes change.now) }
    ensures form { IfOk result (λ _. AreDropsInForm change.now) }
{
    match change {
        RowChange::PutSubstance { row, .. } => one(alloc, put(alloc, row)?),
        RowChange::PutMember { row, .. } => one(alloc, put(alloc, row)?),
        RowChange::DropMember { substance, rule } => {
            let (substance, rule) = (substance.as_bytes(), rule.code());
            one(
                alloc,
                dropped_pair(alloc, TableName::Members, substance, rule.as_bytes())?,
            )
        }
        RowChange::PutMaterials { rows, .. } => put_all(alloc, rows.as_slice()),
        RowChange::PutPart { row, .. } => one(alloc, put(alloc, row)?),
        RowChange::PutLine { row, .. } => one(alloc, put(alloc, row)?),
        RowChange::DropLine { parent, child } => {
            let (parent, child) = (parent.as_bytes(), child.as_bytes());
            one(alloc, dropped_pair(alloc, TableName::Lines, parent, child)?)
        }
        RowChange::PutProduct { row, .. } => one(alloc, put(alloc, row)?),
        RowChange::PutExemption { row, .. } => one(alloc, put(alloc, row)?),
        RowChange::DropExemption { row } => {
            one(
                alloc,
                dropped(TableName::Exemptions, code_bytes(alloc, row)?),
            )
        }
        RowChange::PutCandidate { row, .. } => one(alloc, put(alloc, row)?),
        RowChange::PutShipment { row, .. } => one(alloc, put(alloc, row)?),
        RowChange::DropShipment { year, product } => {
            one(alloc, dropped_shipment(alloc, *year, product.as_bytes())?)
        }
    }
}

/// This change alone.
fn one(alloc: Global, change: Change) -> Result<Vec<Change>, OutOfMemory>
    ensures { IfOk result (λ changes. changes.items ≡ change ∷ []) }
{
    let mut changes = Vec::new(alloc);
    changes.push(change)?;
    Ok(changes)
}

/// Each of these rows goes in.
fn put_all<R: TableRow>(alloc: Global, rows: &[R]) -> Result<Vec<Change>, OutOfMemory>
    ensures { IfOk result (λ changes. changes.items ≡ map (λ row. Put (record_of (R.as_row row))) rows.now) }
{
    let mut changes = Vec::new(alloc);
    for row in rows {
        changes.push(put(alloc, row)?)?;
    }
    Ok(changes)
}

/// This row goes in.
fn put<R: TableRow>(alloc: Global, row: &R) -> Result<Change, OutOfMemory>
    ensures { IfOk result (λ change. change ≡ Put (record_of (R.as_row row.now))) }
{
    Ok(Change::Put(record_of_row(alloc, row)?))
}

/// The row of this code is taken out.
fn dropped(table: TableName, code: Bytes) -> Change
    ensures { result ≡ Drop (record { kind = number_of_table table; code = code }) }
{
    Change::Drop(Key {
        kind: table.number(),
        code,
    })
}

/// The row whose code has these two parts is taken out.
fn dropped_pair(
    alloc: Global,
    table: TableName,
    first: &[u8],
    second: &[u8],
) -> Result<Change, OutOfMemory>
    ensures { IfOk result (λ change. change ≡ Drop (record { kind = number_of_table table; code = pair_code first.now second.now })) }
{
    Ok(dropped(table, pair_code(alloc, first, second)?))
}

/// The shipment of the year and the product is taken out.
fn dropped_shipment(alloc: Global, year: u16, product: &[u8]) -> Result<Change, OutOfMemory>
    ensures change { IfOk result (λ change.
        change ≡ Drop (record { kind = number_of_table Shipments; code = pair_code (decimal year) product.now })) }
    ensures year { year < 2 ^ 64 }
{
    let year = format!(in alloc; "{year}")?;
    dropped_pair(alloc, TableName::Shipments, year.as_bytes(), product)
}
