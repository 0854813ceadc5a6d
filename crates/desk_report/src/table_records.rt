ghost use Rattle.std.specs.Prelude.{◌≡◌, IfOk};
ghost use Rattle.desk_report.specs.File.{in_table, table_at};

use desk_edge::Record;
use desk_model::TableRow;
use desk_records::record_of_row;
use desk_tables::Tables;
use desk_text::OutOfMemory;
use std::alloc::Global;

/// The records of the table at this place, counted from 0, in the order of its rows; none where there is no such table.
pub(crate) fn table_records(
    alloc: Global,
    tables: &Tables,
    place: usize,
) -> Result<Vec<Record>, OutOfMemory>
    ensures { IfOk result (λ records. records.items ≡ table_at tables.now.lists place) }
{
    match place {
        0 => records_in(alloc, tables.substances()),
        1 => records_in(alloc, tables.members()),
        2 => records_in(alloc, tables.materials()),
        3 => records_in(alloc, tables.parts()),
        4 => records_in(alloc, tables.lines()),
        5 => records_in(alloc, tables.products()),
        6 => records_in(alloc, tables.exemptions()),
        7 => records_in(alloc, tables.candidates()),
        8 => records_in(alloc, tables.shipments()),
        9 => records_in(alloc, tables.tickets()),
        _ => Ok(Vec::new(alloc)),
    }
}

/// The records of these rows.
fn records_in<R: TableRow>(alloc: Global, rows: &[R]) -> Result<Vec<Record>, OutOfMemory>
    ensures { IfOk result (λ records. records.items ≡ in_table R.as_row rows.now) }
{
    let mut records = Vec::new(alloc);
    for row in rows {
        records.push(record_of_row(alloc, row)?)?;
    }
    Ok(records)
}
