use desk_rows::{
    Grouped, Keyed, Table, place_from_end, place_near, place_of_key, place_of_row, run_of,
};
use desk_testing::{check, expect_eq};
use desk_text::OutOfMemory;
use std::alloc::Global;
use std::cmp::Ordering;
use std::test::Fail;

#[derive(Clone, Copy, Debug, PartialEq, Eq)]
struct Price {
    item: u16,
    cents: u32,
}

impl Keyed for Price {
    type Key = u16;

    ghost key = { λ row. row.item };

    fn compare(&self, sought: &u16) -> Ordering {
        self.item.cmp(sought)
    }

    fn compare_row(&self, other: &Price) -> Ordering {
        self.item.cmp(&other.item)
    }

    fn copied(&self, _alloc: Global) -> Result<Price, OutOfMemory> {
        Ok(*self)
    }
}

impl Grouped for Price {
    type Group = u32;

    ghost group = { λ row. row.cents };

    fn compare_group(&self, sought: &u32) -> Ordering {
        self.cents.cmp(sought)
    }
}

fn cost(item: u16, cents: u32) -> Price {
    Price { item, cents }
}

/// Items 2, 4 and 6, put in out of order.
fn three_prices(alloc: Global) -> Result<Table<Price>, OutOfMemory> {
    let mut table = Table::new(alloc);
    for (item, cents) in [(4, 40), (6, 60), (2, 20)] {
        table.put(cost(item, cents))?;
    }
    Ok(table)
}

/// Fails unless the table has these rows, and says which it has.
fn has(table: &Table<Price>, rows: &[Price]) -> Result<(), Fail> {
    expect_eq(&table.as_slice(), &rows)
}

#[test]
fn rows_stand_in_the_order_of_their_keys(rt: HostRuntime) -> Result<(), Fail> {
    let table = three_prices(rt.alloc())?;
    has(&table, &[cost(2, 20), cost(4, 40), cost(6, 60)])
}

/// The first key at which other cents are found, or some where there are none.
fn first_wrong_get(table: &Table<Price>, keys: &[(u16, Option<u32>)]) -> Option<u16> {
    for (item, cents) in keys {
        if table.get(item).map(|row| row.cents) != *cents {
            return Some(*item);
        }
    }
    None
}

/// Keys, and the cents that are found at each.
const KEYS: [(u16, Option<u32>); 6] = [
    (1, None),
    (2, Some(20)),
    (3, None),
    (4, Some(40)),
    (6, Some(60)),
    (7, None),
];

#[test]
fn a_kept_key_is_found_and_no_other(rt: HostRuntime) -> Result<(), Fail> {
    let table = three_prices(rt.alloc())?;
    expect_eq(&first_wrong_get(&table, &KEYS), &None)
}

/// Fails unless a row goes where another one of its key was.
fn replaces(table: &mut Table<Price>) -> Result<(), Fail> {
    table.put(cost(4, 44))?;
    has(table, &[cost(2, 20), cost(4, 44), cost(6, 60)])
}

#[test]
fn a_put_at_a_kept_key_replaces_the_row(rt: HostRuntime) -> Result<(), Fail> {
    let mut table = three_prices(rt.alloc())?;
    expect_eq(&table.len_with(&cost(4, 44)), &3)?;
    replaces(&mut table)
}

/// Fails unless a row is given once, and not kept.
fn gives_once(table: &mut Table<Price>) -> Result<(), Fail> {
    let given = (table.take(&6), table.take(&6));
    expect_eq(&given, &(Some(cost(6, 60)), None))?;
    has(table, &[cost(2, 20), cost(4, 40)])
}

#[test]
fn a_taken_row_is_given_once(rt: HostRuntime) -> Result<(), Fail> {
    let mut table = three_prices(rt.alloc())?;
    expect_eq(&table.len_with(&cost(3, 30)), &4)?;
    gives_once(&mut table)
}

/// Puts two rows in that are new, of which the second replaces the first, and one that is not.
fn put_more(table: &mut Table<Price>, alloc: Global) -> Result<(), OutOfMemory> {
    let more = [cost(5, 50), cost(2, 22), cost(5, 55)].to_vec(alloc)?;
    table.put_all(more)
}

#[test]
fn many_rows_go_in_at_once(rt: HostRuntime) -> Result<(), Fail> {
    let mut table = three_prices(rt.alloc())?;
    put_more(&mut table, rt.alloc())?;
    has(
        &table,
        &[cost(2, 22), cost(4, 40), cost(5, 55), cost(6, 60)],
    )
}

/// Fails unless a copy of the table has the same rows.
fn is_copied(table: &Table<Price>, alloc: Global) -> Result<(), Fail> {
    let copy = table.copied(alloc)?;
    has(&copy, table.as_slice())
}

#[test]
fn a_copy_has_the_same_rows(rt: HostRuntime) -> Result<(), Fail> {
    let table = three_prices(rt.alloc())?;
    is_copied(&table, rt.alloc())
}

/// Puts items 0 to 1,999 in one by one, and then items 2,000 to 3,999 at once.
fn put_thousands(table: &mut Table<Price>, alloc: Global) -> Result<(), OutOfMemory> {
    let mut more = Vec::new(alloc);
    for item in 0..2_000 {
        table.put(cost(item, 10))?;
        more.push(cost(2_000 + item, 20))?;
    }
    table.put_all(more)
}

/// Fails unless the table has so many rows, and this one among them.
fn has_among(table: &Table<Price>, len: usize, row: Price) -> Result<(), Fail> {
    let found = (table.as_slice().len(), table.get(&row.item));
    expect_eq(&found, &(len, Some(&row)))
}

/// Fails unless a copy of the table has the thousands of rows.
fn are_copied(table: &Table<Price>, alloc: Global) -> Result<(), Fail> {
    let copy = table.copied(alloc)?;
    has_among(&copy, 4_000, cost(1_999, 10))?;
    has_among(&copy, 4_000, cost(3_999, 20))
}

#[test]
fn thousands_of_rows_go_in_and_are_copied(rt: HostRuntime) -> Result<(), Fail> {
    let mut table = Table::new(rt.alloc());
    put_thousands(&mut table, rt.alloc())?;
    are_copied(&table, rt.alloc())
}

/// Fails unless a table has no row behind no rows that go in, and a copy of it has none.
fn stays_empty(table: &mut Table<Price>, alloc: Global) -> Result<(), Fail> {
    table.put_all(Vec::new(alloc))?;
    let copy = table.copied(alloc)?;
    has(&copy, &[])
}

/// Fails unless a row that is put into an empty table is given back, and not kept.
fn gives_back(table: &mut Table<Price>) -> Result<(), Fail> {
    table.put(cost(4, 40))?;
    expect_eq(&table.take(&4), &Some(cost(4, 40)))?;
    let is_empty = table.get(&4).is_none() && table.as_slice().is_empty();
    check(is_empty, "a row that was given is kept")
}

#[test]
fn an_empty_table_takes_a_row_and_gives_it_back(rt: HostRuntime) -> Result<(), Fail> {
    let mut table = Table::new(rt.alloc());
    let answers = (table.take(&4), table.len_with(&cost(4, 40)));
    expect_eq(&answers, &(None, 1))?;
    stays_empty(&mut table, rt.alloc())?;
    gives_back(&mut table)
}

/// Whether the key is found here wherever it is looked for first.
fn is_found_from_each(table: &Table<Price>, item: &u16, place: Result<usize, usize>) -> bool {
    let rows = table.as_slice();
    place_from_end(rows, item) == place
        && place_near(rows, item, 0) == place
        && place_near(rows, item, 2) == place
        && place_near(rows, item, 9) == place
}

/// The first key that is sought, or whose row is, at another place than this.
fn first_wrong_place(table: &Table<Price>, keys: &[(u16, Result<usize, usize>)]) -> Option<u16> {
    let rows = table.as_slice();
    for (item, place) in keys {
        let of_row = place_of_row(rows, &cost(*item, 1));
        let is_found = is_found_from_each(table, item, *place);
        if place_of_key(rows, item) != *place || !is_found || of_row != *place {
            return Some(*item);
        }
    }
    None
}

/// Keys, and the place where each stands or would go.
const PLACES: [(u16, Result<usize, usize>); 5] = [
    (1, Err(0)),
    (2, Ok(0)),
    (3, Err(1)),
    (6, Ok(2)),
    (7, Err(3)),
];

#[test]
fn a_search_tells_where_a_row_stands_or_would_go(rt: HostRuntime) -> Result<(), Fail> {
    let table = three_prices(rt.alloc())?;
    expect_eq(&first_wrong_place(&table, &PLACES), &None)
}

/// Two items of 10 cents, one of 20, eleven of 30, eight of 40 and nine of 50.
fn items_by_price(alloc: Global) -> Result<Table<Price>, OutOfMemory> {
    let mut table = Table::new(alloc);
    for (cents, first, end) in [
        (10, 0, 2),
        (20, 2, 3),
        (30, 3, 14),
        (40, 14, 22),
        (50, 22, 31),
    ] {
        for item in first..end {
            table.put(cost(item, cents))?;
        }
    }
    Ok(table)
}

/// The first price whose items don't begin with this one, or aren't so many.
fn first_wrong_run(table: &Table<Price>, runs: &[(u32, Option<u16>, usize)]) -> Option<u32> {
    for (cents, first, len) in runs {
        let run = run_of(table.as_slice(), cents);
        if run.first().map(|row| row.item) != *first || run.len() != *len {
            return Some(*cents);
        }
    }
    None
}

/// Prices, the first item of each, and how many items it has.
const RUNS: [(u32, Option<u16>, usize); 8] = [
    (5, None, 0),
    (10, Some(0), 2),
    (20, Some(2), 1),
    (30, Some(3), 11),
    (35, None, 0),
    (40, Some(14), 8),
    (50, Some(22), 9),
    (60, None, 0),
];

#[test]
fn the_rows_of_a_group_are_found_whether_few_or_many(rt: HostRuntime) -> Result<(), Fail> {
    let table = items_by_price(rt.alloc())?;
    expect_eq(&first_wrong_run(&table, &RUNS), &None)
}

/// Puts item 5 into a room that is made for it, and items 1 and 4 into one for two.
fn put_into_rooms(table: &mut Table<Price>, alloc: Global) -> Result<(), OutOfMemory> {
    let room = table.room_for(alloc, 1)?;
    table.put_ready(cost(5, 50), room);
    let more = [cost(1, 10), cost(4, 44)].to_vec(alloc)?;
    let room = table.room_for(alloc, 2)?;
    table.put_all_ready(more, room);
    Ok(())
}

/// Fails unless the table has the rows that were put into rooms beside those that it had.
fn has_those_of_rooms(table: &Table<Price>) -> Result<(), Fail> {
    let rows = [
        cost(1, 10),
        cost(2, 20),
        cost(4, 44),
        cost(5, 50),
        cost(6, 60),
    ];
    has(table, &rows)
}

#[test]
fn rows_go_into_the_room_that_was_made_for_them(rt: HostRuntime) -> Result<(), Fail> {
    let mut table = three_prices(rt.alloc())?;
    put_into_rooms(&mut table, rt.alloc())?;
    has_those_of_rooms(&table)
}

/// Puts nothing into a room that is made for nothing.
fn put_nothing(table: &mut Table<Price>, alloc: Global) -> Result<(), OutOfMemory> {
    let room = table.room_for(alloc, 0)?;
    table.put_all_ready(Vec::new(alloc), room);
    Ok(())
}

/// Puts a row into a room that is made for it.
fn put_one(table: &mut Table<Price>, alloc: Global, row: Price) -> Result<(), OutOfMemory> {
    let room = table.room_for(alloc, 1)?;
    table.put_ready(row, room);
    Ok(())
}

/// Fails unless an empty table has no row behind nothing that is put in, and one row behind one.
fn takes_nothing_and_one(table: &mut Table<Price>, alloc: Global) -> Result<(), Fail> {
    put_nothing(table, alloc)?;
    has(table, &[])?;
    put_one(table, alloc, cost(4, 40))?;
    has(table, &[cost(4, 40)])
}

#[test]
fn an_empty_table_has_room_made_for_it(rt: HostRuntime) -> Result<(), Fail> {
    let mut table = Table::new(rt.alloc());
    takes_nothing_and_one(&mut table, rt.alloc())
}

/// Puts items 0 to 1,999 in, each into a room that is made for it.
fn put_through_rooms(table: &mut Table<Price>, alloc: Global) -> Result<(), OutOfMemory> {
    for item in 0..2_000 {
        put_one(table, alloc, cost(item, 10))?;
    }
    Ok(())
}

#[test]
fn thousands_of_rows_go_in_through_rooms(rt: HostRuntime) -> Result<(), Fail> {
    let mut table = Table::new(rt.alloc());
    put_through_rooms(&mut table, rt.alloc())?;
    has_among(&table, 2_000, cost(1_999, 10))
}
