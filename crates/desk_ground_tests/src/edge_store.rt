ghost use Rattle.std.specs.Prelude.{◌≡◌, ℕ, List, true};
ghost use Rattle.desk_edge.specs.Shelves.{is_lent};

use desk_edge::{Change, KeepFault, Keeper, Key, MapKeeper, MapShelf, Record, Shelf};
use desk_testing::{bytes, check, expect_eq};
use desk_text::{Bytes, OutOfMemory};
use std::alloc::Global;
use std::test::Fail;

// The steps are written for any keeper, and take it, so that the proof of a test doesn't carry what a keeper is made of.

fn key(alloc: Global, kind: u8, code: &str) -> Result<Key, OutOfMemory> {
    let code = bytes(alloc, code)?;
    Ok(Key { kind, code })
}

fn put(alloc: Global, kind: u8, code: &str, body: &str) -> Result<Change, OutOfMemory> {
    let code = bytes(alloc, code)?;
    let body = bytes(alloc, body)?;
    Ok(Change::Put(Record { kind, code, body }))
}

/// Records in this order, each put in by a change of one batch.
const THREE: [(u8, &str, &str); 3] = [(2, "a", "two"), (1, "b", "second"), (1, "a", "first")];

/// The changes that put these records in.
fn batch(alloc: Global, rows: &[(u8, &str, &str)]) -> Result<Vec<Change>, OutOfMemory> {
    let mut batch = Vec::new(alloc);
    for (kind, code, body) in rows {
        batch.push(put(alloc, *kind, code, body)?)?;
    }
    Ok(batch)
}

/// Puts the three records in.
fn put_three<K: Keeper>(keeper: &mut K, alloc: Global) -> Result<(), KeepFault> {
    let changes = batch(alloc, &THREE)?;
    keeper.commit(alloc, changes.as_slice())
}

/// A keeper of the three records, whose calls of these numbers fail. The call that put them in was the first.
fn three_records(alloc: Global, failing: Vec<u64>) -> Result<MapKeeper, KeepFault> {
    let mut keeper = MapKeeper::new(Vec::new(alloc), failing);
    put_three(&mut keeper, alloc)?;
    Ok(keeper)
}

/// The body of the first record past the key.
fn body_past<K: Keeper>(
    keeper: &mut K,
    alloc: Global,
    after: Option<&Key>,
) -> Result<Option<Bytes>, KeepFault> {
    match keeper.next_record(alloc, after)? {
        Some(record) => Ok(Some(record.body)),
        None => Ok(None),
    }
}

/// Fails unless the first record past the key, or of all, has this body, or there is none where there is no body.
fn gives<K: Keeper>(
    keeper: &mut K,
    alloc: Global,
    after: Option<&Key>,
    body: Option<&str>,
) -> Result<(), Fail> {
    let found = body_past(keeper, alloc, after)?;
    let found = found.as_ref().map(|found| found.as_slice());
    expect_eq(&(after, found), &(after, body.map(|body| body.as_bytes())))
}

/// The kind and the code of a key, and the body of the first record past it, if there is one.
type Past = (u8, &'static str, Option<&'static str>);

const PAST: [Past; 3] = [
    (1, "a", Some("second")),
    (1, "bb", Some("two")),
    (2, "a", None),
];

/// Fails unless the first record past this key has this body, or there is none where there is no body.
fn gives_past<K: Keeper>(keeper: &mut K, alloc: Global, past: &Past) -> Result<(), Fail> {
    let (kind, code, body) = *past;
    let after = key(alloc, kind, code)?;
    gives(keeper, alloc, Some(&after), body)
}

/// Fails unless the three records are given in the order of their kinds and codes.
fn gives_in_order<K: Keeper>(keeper: &mut K, alloc: Global) -> Result<(), Fail> {
    gives(keeper, alloc, None, Some("first"))?;
    for past in &PAST {
        gives_past(keeper, alloc, past)?;
    }
    Ok(())
}

#[test]
fn records_are_given_in_the_order_of_kind_and_code(rt: HostRuntime) -> Result<(), Fail> {
    let mut keeper = three_records(rt.alloc(), Vec::new(rt.alloc()))?;
    gives_in_order(&mut keeper, rt.alloc())
}

/// Fails unless a change is refused, and then a record.
fn fails_twice<K: Keeper>(keeper: &mut K, alloc: Global) -> Result<(), Fail> {
    let batch = [Change::Drop(key(alloc, 1, "a")?)];
    expect_eq(&keeper.commit(alloc, &batch), &Err(KeepFault::Failed))?;
    expect_eq(&body_past(keeper, alloc, None), &Err(KeepFault::Failed))
}

#[test]
fn a_failing_call_is_counted_and_changes_nothing(rt: HostRuntime) -> Result<(), Fail> {
    let mut keeper = three_records(rt.alloc(), [2, 3].to_vec(rt.alloc())?)?;
    fails_twice(&mut keeper, rt.alloc())?;
    expect_eq(&(keeper.faults(), keeper.records().len()), &(2, 3))
}

/// Fails unless of several changes under one key the last counts.
fn keeps_the_last<K: Keeper>(keeper: &mut K, alloc: Global) -> Result<(), Fail> {
    let changes = [
        put(alloc, 1, "a", "again")?,
        Change::Drop(key(alloc, 1, "a")?),
        Change::Drop(key(alloc, 1, "b")?),
        put(alloc, 1, "b", "early")?,
        put(alloc, 1, "b", "late")?,
    ];
    keeper.commit(alloc, &changes)?;
    gives(keeper, alloc, None, Some("late"))
}

#[test]
fn of_changes_under_one_key_the_last_counts(rt: HostRuntime) -> Result<(), Fail> {
    let mut keeper = three_records(rt.alloc(), Vec::new(rt.alloc()))?;
    keeps_the_last(&mut keeper, rt.alloc())
}

/// Whether the shelf opens the store of this name. What was lent stays so.
fn opens(shelf: &mut MapShelf, alloc: Global, name: &[u8]) -> bool
    ensures { (other : List ℕ) → is_lent shelf.old other ≡ true → is_lent shelf.new other ≡ true }
{
    shelf.open_store(alloc, name).is_ok()
}

/// Fails unless the store that is open is opened again, the next opening is refused, and that alone is counted.
fn refuses_one(shelf: &mut MapShelf, alloc: Global) -> Result<(), Fail>
    ensures { (other : List ℕ) → is_lent shelf.old other ≡ true → is_lent shelf.new other ≡ true }
{
    check(
        opens(shelf, alloc, b"desk"),
        "an open store is not opened again",
    )?;
    check(
        !opens(shelf, alloc, b"other"),
        "the third opening does not fail",
    )?;
    expect_eq(&shelf.faults(), &1)
}

/// Fails unless a store is opened while it is open, an opening that is listed fails, and the store is opened once it is closed.
fn opens_again(shelf: &mut MapShelf, alloc: Global) -> Result<(), Fail> {
    let store = shelf.open_store(alloc, b"desk")?;
    refuses_one(shelf, alloc)?;
    shelf.close_store(b"desk", store);
    check(opens(shelf, alloc, b"desk"), "a closed store is not opened")
}

#[test]
fn a_shelf_fails_on_its_list_alone(rt: HostRuntime) -> Result<(), Fail> {
    let failing = [3].to_vec(rt.alloc())?;
    let mut shelf = MapShelf::new(rt.alloc(), Vec::new(rt.alloc()), failing);
    opens_again(&mut shelf, rt.alloc())
}

/// Fails unless of two stores that are open together each has its own records, and the one that is given back has them afterwards.
fn keeps_two_apart(shelf: &mut MapShelf, alloc: Global) -> Result<(), Fail> {
    let mut first = shelf.open_store(alloc, b"first")?;
    let mut second = shelf.open_store(alloc, b"second")?;
    let filled = put_three(&mut second, alloc);
    shelf.close_store(b"second", second);
    expect_eq(&filled, &Ok(()))?;
    gives(&mut first, alloc, None, None)?;
    let mut again = shelf.open_store(alloc, b"second")?;
    gives(&mut again, alloc, None, Some("first"))
}

#[test]
fn two_stores_are_open_together(rt: HostRuntime) -> Result<(), Fail> {
    let mut shelf = MapShelf::new(rt.alloc(), Vec::new(rt.alloc()), Vec::new(rt.alloc()));
    keeps_two_apart(&mut shelf, rt.alloc())
}

/// Fails unless a store that has counted a fault counts from 0 once it is opened again, and its fault is the shelf's.
fn counts_anew(shelf: &mut MapShelf, alloc: Global) -> Result<(), Fail> {
    let mut store = shelf.open_store(alloc, b"desk")?;
    let told = body_past(&mut store, alloc, None);
    shelf.close_store(b"desk", store);
    let store = shelf.open_store(alloc, b"desk")?;
    let faults = store.faults();
    shelf.close_store(b"desk", store);
    expect_eq(&(told, faults), &(Err(KeepFault::Failed), 0))?;
    expect_eq(&shelf.faults(), &1)
}

#[test]
fn a_store_that_is_opened_again_counts_its_faults_anew(rt: HostRuntime) -> Result<(), Fail> {
    let store = MapKeeper::new(Vec::new(rt.alloc()), [1].to_vec(rt.alloc())?);
    let mut stores = Vec::new(rt.alloc());
    stores.push((bytes(rt.alloc(), "desk")?, store))?;
    let mut shelf = MapShelf::new(rt.alloc(), stores, Vec::new(rt.alloc()));
    counts_anew(&mut shelf, rt.alloc())
}
