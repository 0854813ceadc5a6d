ghost use Rattle.std.specs.Prelude.{◌≡◌, Err, IfOk, true};
ghost use Rattle.desk_fields.specs.RowTexts.{HasVersion, has_texts};
ghost use Rattle.desk_model.specs.declared.row.Row.{Row};
ghost use Rattle.desk_records.specs.Records.{IsRecordOf, record_of};

use crate::RecordFault;
use desk_edge::Record;
use desk_fields::read_row;
use desk_model::{Row, TableRow};
use desk_text::OutOfMemory;
use std::alloc::Global;

/// The record of a row: the number of its table as the kind, its code, and its text as the body.
///
/// `OutOfMemory`: none was left for the record.
pub fn write_record(alloc: Global, row: &Row) -> Result<Record, OutOfMemory>
    ensures { IfOk result (λ kept. kept ≡ record_of row.now) }
{
    match row {
        Row::Substance(row) => record_of_row(alloc, row),
        Row::Member(row) => record_of_row(alloc, row),
        Row::Material(row) => record_of_row(alloc, row),
        Row::Part(row) => record_of_row(alloc, row),
        Row::Line(row) => record_of_row(alloc, row),
        Row::Product(row) => record_of_row(alloc, row),
        Row::Exemption(row) => record_of_row(alloc, row),
        Row::Candidate(row) => record_of_row(alloc, row),
        Row::Shipment(row) => record_of_row(alloc, row),
        Row::Ticket(row) => record_of_row(alloc, row),
    }
}

/// The record of a row of one table.
///
/// `OutOfMemory`: none was left for the record.
#[tactic(auto, unfolding(desk_model::specs::Rows::table_number))]
pub fn record_of_row<R: TableRow>(alloc: Global, row: &R) -> Result<Record, OutOfMemory>
    ensures { IfOk result (λ kept. kept ≡ record_of (R.as_row row.now)) }
{
    Ok(Record {
        kind: R::table().number(),
        code: row.code_text(alloc)?,
        body: row.body_text(alloc)?,
    })
}

/// The row that has this record.
///
/// `Version`: the first field of the body isn't `1`. `Shape`: it is, and no row has this record: its kind is no
/// table's, its code or a field has another form or another spelling, a value is out of range, or a field is
/// missing or too many. `OutOfMemory`: there was no memory to read it; it comes only behind the version, and only where rows of the
/// table hold texts or lists.
pub fn read_record(alloc: Global, kept: &Record) -> Result<Row, RecordFault>
    ensures row { IfOk result (λ row. IsRecordOf row kept.now) }
    ensures version { result ≡ Err RecordFault.Version → HasVersion kept.now.body → ⊥ }
    ensures versioned { result ≡ Err RecordFault.Shape → HasVersion kept.now.body }
    ensures shape { result ≡ Err RecordFault.Shape → (row : Row) → IsRecordOf row kept.now → ⊥ }
    ensures memory { result ≡ Err RecordFault.OutOfMemory → HasVersion kept.now.body × (has_texts kept.now.kind ≡ true) }
{
    read_row(alloc, kept.kind, kept.code.as_slice(), kept.body.as_slice())
}
