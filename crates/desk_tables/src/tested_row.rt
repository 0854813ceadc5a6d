ghost use Rattle.std.specs.Prelude.{◌≡◌, ◌<◌, ◌⊎◌, true, false, IfErr, IfOk, MatchOption, length, map, nat_lt, slice_index_or};
ghost use Rattle.std.specs.List.{list_all};
ghost use Rattle.desk_model.specs.Rows.{record_code, table_number};
ghost use Rattle.desk_model.specs.Tables.{number_of_table, table_limit};
ghost use Rattle.desk_history.specs.Breaches.{Breaks};
ghost use Rattle.desk_tables.specs.Soundness.{IsNaming, NamesBreachIn};

use crate::{SoundFault, Tables};
use desk_model::{TableName, TableRow};
use desk_text::{Bytes, OutOfMemory};
use std::alloc::Global;

/// A row of one of the tables 1 to 9, which is tested by itself for those clauses of soundness that look-ups decide.
pub(crate) trait TestedRow: TableRow {
    ghost use Rattle.std.specs.Prelude.{◌≡◌, Bool};
    ghost use Rattle.desk_model.specs.Lists.{Lists};

    // What the row has to keep by itself.
    ghost fits: { Lists → Self → Bool };

    /// Whether the row keeps what it has to keep by itself.
    fn fits(&self, tables: &Tables) -> bool
        ensures { result ≡ fits tables.now.lists self.now };
}

/// Tests the rows of a table, and that there aren't more of them than its limit.
pub(crate) fn rows_fault<R: TestedRow>(
    alloc: Global,
    tables: &Tables,
    rows: &[R],
) -> Option<SoundFault>
    requires breaks { (row : R) → R.TestedRow.fits tables.now.lists row ≡ false → Breaks tables.now.lists (R.as_row row) }
    requires full { nat_lt (table_limit R.table) (length rows.now) ≡ true → (row : R) → Breaks tables.now.lists (R.as_row row) }
    ensures { MatchOption result
        ((list_all (R.TestedRow.fits tables.now.lists) rows.now ≡ true) × (nat_lt (table_limit R.table) (length rows.now) ≡ false))
        (NamesBreachIn tables.now.lists (map R.as_row rows.now)) }
{
    match first_broken(tables, rows, R::table().limit()) {
        Some(place) => Some(fault_at(alloc, &rows[place])),
        None => None,
    }
}

/// The place of the first row that breaks a clause; where there are too many rows each does.
fn first_broken<R: TestedRow>(tables: &Tables, rows: &[R], limit: usize) -> Option<usize>
    ensures { MatchOption result
        ((list_all (R.TestedRow.fits tables.now.lists) rows.now ≡ true) × (nat_lt limit (length rows.now) ≡ false))
        (λ place. (place < length rows.now) × ((nat_lt limit (length rows.now) ≡ true) ⊎ ((d : R) → R.TestedRow.fits tables.now.lists (slice_index_or rows.now place d) ≡ false))) }
{
    if rows.len() > limit {
        return Some(0);
    }
    for (place, row) in rows.iter().enumerate() {
        if !row.fits(tables) {
            return Some(place);
        }
    }
    None
}

/// The fault that names the row.
#[tactic(auto, unfolding(desk_model::specs::Rows::table_number))]
pub(crate) fn fault_at<R: TableRow>(alloc: Global, row: &R) -> SoundFault
    ensures { IsNaming (table_number (R.as_row row.now)) (record_code (R.as_row row.now)) result }
{
    naming(R::table(), row.code_text(alloc))
}

/// The fault that names a row of the table by its code, where there was memory for the code.
pub(crate) fn naming(table: TableName, code: Result<Bytes, OutOfMemory>) -> SoundFault
    ensures unsound { IfOk code (λ code. result ≡ SoundFault.Unsound (number_of_table table) code) }
    ensures memory { IfErr code (λ _. result ≡ SoundFault.OutOfMemory) }
{
    let table = table.number();
    match code {
        Ok(key) => SoundFault::Unsound { table, key },
        Err(_) => SoundFault::OutOfMemory,
    }
}
