ghost use Rattle.std.specs.Prelude.{◌≡◌, false, true, IfOk, IfSome, IsSomeAnd, IsTrue, int_lt};
ghost use Rattle.sqlite.specs.Held.{state};
ghost use Rattle.sqlite.specs.State.{HasCleanDisk};
ghost use Rattle.desk_sqlite.specs.Numbers.{ShowsNoRise};
ghost use Rattle.desk_sqlite.specs.Store.{IsOurs, KeepsRows, Suits};

use crate::form::is_ours;
use sqlite::{Alter, Connection, Error, ErrorCode};

/// Makes the table of a store where there is none of its name. It answers whether the database is one such table. A database that is one
/// already is only looked at.
pub(crate) fn make_ready<S: Alter>(conn: &mut Connection<S>) -> Result<bool, Error>
    ensures mode { IfOk result (λ ours. conn.new.in_transaction ≡ false) }
    ensures suits { IfOk result (λ ours. IsTrue ours → Suits (state S.Store conn.new)) }
    ensures kept { IfOk result (λ ours. IsTrue ours → KeepsRows (state S.Store conn.old) (state S.Store conn.new)) }
    ensures found { IfOk result (λ ours. ours ≡ false → IsOurs (state S.Store conn.old).now.schema → HasCleanDisk (state S.Store conn.new)
        → ShowsNoRise (state S.Store conn.old)) }
{
    if is_ours(conn.schema()) {
        return is_store(conn);
    }
    make_table(conn)?;
    is_store(conn)
}

/// Whether the database, which is only looked at, is the table of a store.
fn is_store<S: Alter>(conn: &mut Connection<S>) -> Result<bool, Error>
    ensures mode { IfOk result (λ ours. conn.new.in_transaction ≡ false) }
    ensures suits { IfOk result (λ ours. IsTrue ours → Suits (state S.Store conn.new)) }
    ensures kept { IfOk result (λ ours. IsTrue ours → KeepsRows (state S.Store conn.old) (state S.Store conn.new)) }
    ensures found { IfOk result (λ ours. ours ≡ false → IsOurs (state S.Store conn.old).now.schema → HasCleanDisk (state S.Store conn.new)
        → ShowsNoRise (state S.Store conn.old)) }
{
    if !conn.is_autocommit() {
        return Err(Error::SqliteFailure(ErrorCode::TransactionState));
    }
    if is_ours(conn.schema()) {
        are_numbered(conn)
    } else {
        Ok(false)
    }
}

/// Makes the table of a store, where there is none of its name.
fn make_table<S: Alter>(conn: &mut Connection<S>) -> Result<(), Error> {
    if !conn.is_autocommit() {
        return Err(Error::SqliteFailure(ErrorCode::TransactionState));
    }
    match conn.execute(
        "CREATE TABLE IF NOT EXISTS record (kind INTEGER NOT NULL CHECK (kind >= 0 AND kind <= 255), \
            code BLOB NOT NULL, body BLOB NOT NULL, PRIMARY KEY (kind, code)) STRICT",
        &[],
    ) {
        Ok(_) => Ok(()),
        Err(error) => Err(error),
    }
}

/// Whether each row of a store's table has a number of its own.
///
/// A database always numbers its rows so. What is known of an open connection doesn't say it, and a drop relies on it. The numbers
/// are read one at a time, so that a large store takes no more memory than a small one.
fn are_numbered<S: Alter>(conn: &mut Connection<S>) -> Result<bool, Error>
    requires outside { conn.old.in_transaction ≡ false }
    requires ours { IsOurs (state S.Store conn.old).now.schema }
    ensures mode { conn.new.in_transaction ≡ false }
    ensures suits { IfOk result (λ numbered. IsTrue numbered → Suits (state S.Store conn.new)) }
    ensures same { IfOk result (λ numbered. IsTrue numbered → HasCleanDisk (state S.Store conn.new)
        → (state S.Store conn.new).now ≡ (state S.Store conn.old).now) }
    ensures found { IfOk result (λ numbered. numbered ≡ false → HasCleanDisk (state S.Store conn.new) → ShowsNoRise (state S.Store conn.old)) }
{
    let mut last: Option<i64> = None;
    let mut rows = conn.query("SELECT rowid FROM record ORDER BY rowid", &[])?;
    'rows: for _ in 0..u64::MAX {
        let Some(row) = rows.next()? else {
            return Ok(true);
        };
        let number: i64 = row.get(0)?;
        if !is_above(number, last) {
            return Ok(false);
        }
        last = Some(number);
    }
    Err(Error::SqliteFailure(ErrorCode::TooBig))
}

/// Whether the number is greater than the last one, if there is one.
fn is_above(number: i64, last: Option<i64>) -> bool
    ensures right { IsTrue result → IfSome last (λ before. int_lt before number ≡ true) }
    ensures found { result ≡ false → IsSomeAnd last (λ before. int_lt before number ≡ false) }
{
    match last {
        Some(before) => before < number,
        None => true,
    }
}
