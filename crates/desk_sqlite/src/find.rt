ghost use Rattle.std.specs.Prelude.{◌≡◌, [], false, true, pos, IfOk, IfSome, IsTrue, Some, option_copied};
ghost use Rattle.sqlite.specs.Held.{state};
ghost use Rattle.sqlite.specs.State.{HasCleanDisk};
ghost use Rattle.sqlite_value.specs.Order.{column};
ghost use Rattle.sqlite_value.specs.declared.value.Value.TheVariants.{Int, Blob};
ghost use Rattle.desk_edge.specs.Content.{IsFirstPast, is_past, key_of};
ghost use Rattle.desk_sqlite.specs.Ahead.{IsAhead};
ghost use Rattle.desk_sqlite.specs.Content.{AreFirstPast, AreFirstRows, AreKeyed, AreShown, IsShown, rows_content};
ghost use Rattle.desk_sqlite.specs.Store.{IsStill, Suits, rows_in};

use crate::ahead::{Ahead, first_of};
use crate::look::{first_rows, rows_beyond, rows_within};
use desk_edge::{Key, Record};
use desk_text::{Bytes, OutOfMemory};
use sqlite::{Alter, Connection, Error, ErrorCode, Row};
use sqlite_value::value::ValueRef;
use std::alloc::Global;
use std::collections::VecDeque;

/// The first record past the key, or the first of all where no key is given, and those that come behind it. A row there that is no record
/// is refused.
///
/// A desk that opens asks for each record of its store in turn. A query for each was most of what that took, so the records that may be
/// asked for next come with the first.
pub(crate) fn look_ahead<S: Alter>(
    conn: &mut Connection<S>,
    alloc: Global,
    after: Option<&Key>,
) -> Result<(Option<Record>, Option<Ahead>), Error>
    requires { conn.old.in_transaction ≡ false }
    ensures mode { conn.new.in_transaction ≡ false }
    ensures still { IsStill (state S.Store conn.old) (state S.Store conn.new) }
    ensures gives { Suits (state S.Store conn.old) → HasCleanDisk (state S.Store conn.new) → IsTrue (state S.Store conn.new).is_open
        → IfOk result (λ both. IsFirstPast (rows_content (rows_in (state S.Store conn.new))) (option_copied after.entry) both.0) }
    ensures ahead { Suits (state S.Store conn.old) → IfOk result (λ both. IsAhead (state S.Store conn.new) both.1) }
    ensures later { IfOk result (λ both. IfSome both.0 (λ kept. is_past (option_copied after.entry) (key_of kept) ≡ true)) }
{
    match find_records(conn, alloc, after) {
        Ok(found) => first_of(alloc, found, after),
        Err(error) => Err(error),
    }
}

/// The first records past the key, or the first of all where no key is given; none where there is none.
fn find_records<S: Alter>(
    conn: &mut Connection<S>,
    alloc: Global,
    after: Option<&Key>,
) -> Result<VecDeque<Record>, Error>
    requires { conn.old.in_transaction ≡ false }
    ensures mode { conn.new.in_transaction ≡ false }
    ensures still { IsStill (state S.Store conn.old) (state S.Store conn.new) }
    ensures gives { Suits (state S.Store conn.old) → HasCleanDisk (state S.Store conn.new) → IsTrue (state S.Store conn.new).is_open
        → IfOk result (λ found. AreFirstPast (rows_content (rows_in (state S.Store conn.new))) (option_copied after.entry) found.items) }
{
    match first_past(conn, after) {
        Ok(rows) => records_of(alloc, rows.as_slice()),
        Err(error) => Err(error),
    }
}

/// The first rows past the key, or the first of all where no key is given.
fn first_past<S: Alter>(conn: &mut Connection<S>, after: Option<&Key>) -> Result<Vec<Row>, Error>
    requires { conn.old.in_transaction ≡ false }
    ensures mode { conn.new.in_transaction ≡ false }
    ensures still { IsStill (state S.Store conn.old) (state S.Store conn.new) }
    ensures keyed { Suits (state S.Store conn.old) → HasCleanDisk (state S.Store conn.new) → IsTrue (state S.Store conn.new).is_open
        → AreKeyed (rows_in (state S.Store conn.old)) }
    ensures first { Suits (state S.Store conn.old) → HasCleanDisk (state S.Store conn.new) → IsTrue (state S.Store conn.new).is_open
        → IfOk result (λ shown. AreFirstRows (option_copied after.entry) (rows_in (state S.Store conn.old)) shown.items) }
{
    // Tells the proof that an open database keeps to its schema, by which no two rows have one key.
    let _keyed = conn.schema();
    match after {
        Some(key) => rows_past(conn, key),
        None => first_rows(conn),
    }
}

/// The first rows past the key.
fn rows_past<S: Alter>(conn: &mut Connection<S>, key: &Key) -> Result<Vec<Row>, Error>
    requires { conn.old.in_transaction ≡ false }
    ensures mode { conn.new.in_transaction ≡ false }
    ensures still { IsStill (state S.Store conn.old) (state S.Store conn.new) }
    ensures first { Suits (state S.Store conn.old) → HasCleanDisk (state S.Store conn.new) → IsTrue (state S.Store conn.new).is_open
        → IfOk result (λ shown. AreFirstRows (Some key.now) (rows_in (state S.Store conn.old)) shown.items) }
{
    match rows_within(conn, key.kind, key.code.as_slice()) {
        Ok(rows) => {
            if rows.is_empty() {
                rows_beyond(conn, key.kind)
            } else {
                Ok(rows)
            }
        }
        Err(error) => Err(error),
    }
}

/// The records whose columns the rows show, up to the first row that is no record. It is refused where that is the first of all.
fn records_of(alloc: Global, rows: &[Row]) -> Result<VecDeque<Record>, Error>
    ensures shown { IfOk result (λ found. AreShown found.items rows.now) }
    ensures some { IfOk result (λ found. found.items ≡ [] → rows.now ≡ []) }
{
    let mut records = VecDeque::new(alloc);
    'rows: for at in 0..rows.len() {
        let kept = match record_of(alloc, &rows[at]) {
            Ok(Some(kept)) => kept,
            Ok(None) if at > 0 => return Ok(records),
            Ok(None) => return Err(Error::SqliteFailure(ErrorCode::DatabaseCorrupt)),
            Err(_) => return Err(Error::SqliteFailure(ErrorCode::OutOfMemory)),
        };
        if records.push_back(kept).is_err() {
            return Err(Error::SqliteFailure(ErrorCode::OutOfMemory));
        }
    }
    Ok(records)
}

/// The record whose columns the row shows, where it is one.
fn record_of(alloc: Global, row: &Row) -> Result<Option<Record>, OutOfMemory>
    ensures { IfOk result (λ found. IfSome found (λ kept. IsShown kept row.now)) }
{
    let Some(kind) = number_at(row, 0) else {
        return Ok(None);
    };
    let Some(code) = bytes_at(alloc, row, 1)? else {
        return Ok(None);
    };
    let Some(body) = bytes_at(alloc, row, 2)? else {
        return Ok(None);
    };
    Ok(Some(Record { kind, code, body }))
}

/// The number in the column, where there is one of a byte.
fn number_at(row: &Row, at: usize) -> Option<u8>
    ensures { IfSome result (λ n. column row.now at ≡ Int (pos n)) }
{
    match row.get_ref(at) {
        Ok(ValueRef::Int(n)) => u8::try_from(n).ok(),
        _ => None,
    }
}

/// The bytes of the blob in the column, where there is one.
fn bytes_at(alloc: Global, row: &Row, at: usize) -> Result<Option<Bytes>, OutOfMemory>
    ensures { IfOk result (λ found. IfSome found (λ bytes. column row.now at ≡ Blob bytes)) }
{
    match row.get_ref(at) {
        Ok(ValueRef::Blob(blob)) => {
            let mut bytes = Bytes::start(alloc);
            bytes.push_all(blob)?;
            Ok(Some(bytes))
        }
        _ => Ok(None),
    }
}
