ghost use Rattle.std.specs.Prelude.{◌≡◌, ◌++◌, IfOk, OnOk, map};
ghost use Rattle.desk_records.specs.Records.{record_of, records_of};

use crate::row_record::record_of_row;
use desk_edge::Record;
use desk_model::TableRow;
use desk_tables::Tables;
use desk_text::OutOfMemory;
use std::alloc::Global;

/// The records of all rows, in the order of the tables and of their keys: those of table 9 in order of year and then of
/// product. A store sorts them by its own key, in which a year is digits and a `/` stands between two codes.
///
/// `OutOfMemory`: none was left for the records.
#[tactic(auto, unfolding(desk_model::specs::Rows::rows_of))]
pub fn records_of(alloc: Global, tables: &Tables) -> Result<Vec<Record>, OutOfMemory>
    ensures { IfOk result (λ records. records.items ≡ records_of tables.now.lists) }
{
    let mut records = Vec::new(alloc);
    push_records(alloc, &mut records, tables.substances())?;
    push_records(alloc, &mut records, tables.members())?;
    push_records(alloc, &mut records, tables.materials())?;
    push_records(alloc, &mut records, tables.parts())?;
    push_records(alloc, &mut records, tables.lines())?;
    push_records(alloc, &mut records, tables.products())?;
    push_records(alloc, &mut records, tables.exemptions())?;
    push_records(alloc, &mut records, tables.candidates())?;
    push_records(alloc, &mut records, tables.shipments())?;
    push_records(alloc, &mut records, tables.tickets())?;
    Ok(records)
}

/// Appends the records of these rows.
fn push_records<R: TableRow>(
    alloc: Global,
    records: &mut Vec<Record>,
    rows: &[R],
) -> Result<(), OutOfMemory>
    ensures { OnOk result (records.new.items ≡ records.old.items ++ map record_of (map R.as_row rows.now)) }
{
    for row in rows {
        records.push(record_of_row(alloc, row)?)?;
    }
    Ok(())
}
