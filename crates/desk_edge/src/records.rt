ghost use Rattle.std.specs.Prelude.{◌≡◌, ◌+◌, ◌<◌, ◌≤◌, IfOk, Some, option_copied, slice_get, vec_capacity, vec_len};
ghost use Rattle.std.specs.List.{find};
ghost use Rattle.desk_edge.specs.Content.{is_past, key_cmp, key_of};
ghost use Rattle.desk_edge.specs.Stores.{records_with, records_with_all};
ghost use Rattle.desk_rows.specs.Rows.{IsByKey, with_row, without_row};

use crate::change::Change;
use crate::key::Key;
use crate::record::Record;
use desk_rows::{Keyed, place_of_key, place_of_row};
use desk_text::OutOfMemory;
use std::alloc::Global;

/// The first record past the key, or the first of all where no key is given, once more. It takes a binary search.
pub(crate) fn copied_past(
    alloc: Global,
    records: &[Record],
    after: Option<&Key>,
) -> Result<Option<Record>, OutOfMemory>
    requires { IsByKey key_of key_cmp records.now }
    ensures { IfOk result (λ found. found ≡ find (λ kept. is_past (option_copied after.entry) (key_of kept)) records.now) }
{
    match first_past(records, after) {
        Some(found) => Ok(Some(found.copied(alloc)?)),
        None => Ok(None),
    }
}

/// The first record past the key, or the first of all where no key is given. It takes a binary search.
fn first_past<'a>(records: &'a [Record], after: Option<&Key>) -> Option<&'a Record>
    requires { IsByKey key_of key_cmp records.now }
    ensures { option_copied result ≡ find (λ kept. is_past (option_copied after.entry) (key_of kept)) records.now }
{
    match after {
        Some(key) => records.get(place_past(records, key)),
        None => records.first(),
    }
}

/// The place of the first record past the key, or the place behind them all.
fn place_past(records: &[Record], key: &Key) -> usize
    requires { IsByKey key_of key_cmp records.now }
    ensures { slice_get records.now result ≡ find (λ kept. is_past (Some key.now) (key_of kept)) records.now }
{
    records.partition_point(|record| record.compare(key).is_le())
}

/// The changes once more.
pub(crate) fn copied_all(alloc: Global, batch: &[Change]) -> Result<Vec<Change>, OutOfMemory>
    ensures { IfOk result (λ copy. copy.items ≡ batch.now) }
{
    let mut copy = Vec::with_capacity(alloc, batch.len())?;
    for change in batch {
        copy.push_reserved(change.copied(alloc)?);
    }
    Ok(copy)
}

/// The records once more.
pub(crate) fn copied_records(alloc: Global, records: &[Record]) -> Result<Vec<Record>, OutOfMemory>
    ensures { IfOk result (λ copy. copy.items ≡ records.now) }
{
    let mut copy = Vec::with_capacity(alloc, records.len())?;
    for record in records {
        copy.push_reserved(record.copied(alloc)?);
    }
    Ok(copy)
}

/// Makes all the changes, one after the other, where there is room for as many records more.
pub(crate) fn make_all(records: &mut Vec<Record>, changes: Vec<Change>)
    requires by_key { IsByKey key_of key_cmp records.old.items }
    requires room { vec_len records.old + vec_len changes ≤ vec_capacity records.old }
    ensures records { records.new.items ≡ records_with_all changes.items records.old.items }
    ensures by_key { IsByKey key_of key_cmp records.new.items }
{
    for change in changes {
        make(records, change);
    }
}

/// Makes a change, where there is room for one record more.
fn make(records: &mut Vec<Record>, change: Change)
    requires by_key { IsByKey key_of key_cmp records.old.items }
    requires room { vec_len records.old < vec_capacity records.old }
    ensures records { records.new.items ≡ records_with change records.old.items }
    ensures by_key { IsByKey key_of key_cmp records.new.items }
    ensures len { vec_len records.new ≤ vec_len records.old + 1 }
    ensures capacity { vec_capacity records.new ≡ vec_capacity records.old }
{
    match change {
        Change::Put(record) => put(records, record),
        Change::Drop(key) => take_out(records, &key),
    }
}

/// Puts the record in its place, where there is room for one record more.
fn put(records: &mut Vec<Record>, new: Record)
    requires by_key { IsByKey key_of key_cmp records.old.items }
    requires room { vec_len records.old < vec_capacity records.old }
    ensures records { records.new.items ≡ with_row key_of key_cmp new records.old.items }
    ensures by_key { IsByKey key_of key_cmp records.new.items }
    ensures len { vec_len records.new ≤ vec_len records.old + 1 }
    ensures capacity { vec_capacity records.new ≡ vec_capacity records.old }
{
    match place_of_row(records.as_slice(), &new) {
        Ok(at) => records[at] = new,
        Err(at) => {
            let entered = records.insert(at, new);
            prove!(entered.is_ok());
        }
    }
}

/// Takes out the record of this key, where there is one.
fn take_out(records: &mut Vec<Record>, key: &Key)
    requires by_key { IsByKey key_of key_cmp records.old.items }
    ensures records { records.new.items ≡ without_row key_of key_cmp key.now records.old.items }
    ensures by_key { IsByKey key_of key_cmp records.new.items }
    ensures len { vec_len records.new ≤ vec_len records.old }
    ensures capacity { vec_capacity records.new ≡ vec_capacity records.old }
{
    if let Ok(at) = place_of_key(records.as_slice(), key) {
        drop(records.remove(at));
    }
}
