use desk_fields::read_row;
use desk_tables::{Gathering, Tables};
use desk_testing::check;
use std::alloc::Global;
use std::test::Fail;

/// A table's number, a row's code and its text.
type Record = (u8, &'static str, &'static str);

/// Puts the row of a record in its place.
fn put_row(alloc: Global, gathering: &mut Gathering, record: &Record) -> Result<(), Fail> {
    let (table, code, text) = *record;
    let row = read_row(alloc, table, code.as_bytes(), text.as_bytes())?;
    Ok(gathering.put(row)?)
}

/// The tables of the rows of these records.
fn tables_of(alloc: Global, records: &[Record]) -> Result<Tables, Fail> {
    let mut gathering = Gathering::new(alloc);
    for record in records {
        put_row(alloc, &mut gathering, record)?;
    }
    Ok(gathering.into_tables())
}

/// Lines in another order than that of their keys, and one of them twice.
const LINES: [Record; 3] = [(5, "B/C", "1\t2"), (5, "A/C", "1\t1"), (5, "A/C", "1\t7")];

/// Fails unless the lines have these counts, in order.
fn have_counts(tables: &Tables, counts: &[u32]) -> Result<(), Fail> {
    let found = tables.lines().iter().map(|line| line.count);
    check(
        found.eq(counts.iter().copied()),
        "other lines, or in another order",
    )
}

/// Fails unless the lines of these rows have these counts.
fn lines_have_counts(alloc: Global, records: &[Record], counts: &[u32]) -> Result<(), Fail> {
    let tables = tables_of(alloc, records)?;
    have_counts(&tables, counts)
}

#[test]
fn rows_stand_in_the_order_of_their_keys_and_the_later_of_two_is_kept(
    rt: HostRuntime,
) -> Result<(), Fail> {
    lines_have_counts(rt.alloc(), &LINES, &[7, 2])
}
