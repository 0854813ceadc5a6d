ghost use Rattle.std.specs.Prelude.{◌≡◌, false, IfOk, IsTrue};
ghost use Rattle.sqlite.specs.Held.{state};
ghost use Rattle.sqlite.specs.State.{HasCleanDisk};
ghost use Rattle.desk_sqlite.specs.Content.{AreLooked};
ghost use Rattle.desk_sqlite.specs.Store.{IsStill, Suits, any_key, is_beyond, is_within, rows_in};

use sqlite::{Alter, Connection, Error, Row, params};

/// The first rows of all, in the order of the keys, and no more than 64, as of each of these looks.
pub(crate) fn first_rows<S: Alter>(conn: &mut Connection<S>) -> Result<Vec<Row>, Error>
    requires { conn.old.in_transaction ≡ false }
    ensures mode { conn.new.in_transaction ≡ false }
    ensures still { IsStill (state S.Store conn.old) (state S.Store conn.new) }
    ensures look { Suits (state S.Store conn.old) → HasCleanDisk (state S.Store conn.new) → IsTrue (state S.Store conn.new).is_open
        → IfOk result (λ shown. AreLooked any_key (rows_in (state S.Store conn.old)) shown.items) }
{
    // Tells the proof that outside a transaction the rows are those that were committed, also after a query that fails.
    let _settled = conn.is_autocommit();
    conn.query_all(
        "SELECT kind, code, body FROM record ORDER BY kind, code LIMIT 64",
        &[],
    )
}

/// The first rows of the kind past the code.
pub(crate) fn rows_within<S: Alter>(
    conn: &mut Connection<S>,
    kind: u8,
    code: &[u8],
) -> Result<Vec<Row>, Error>
    requires { conn.old.in_transaction ≡ false }
    ensures mode { conn.new.in_transaction ≡ false }
    ensures still { IsStill (state S.Store conn.old) (state S.Store conn.new) }
    ensures look { Suits (state S.Store conn.old) → HasCleanDisk (state S.Store conn.new) → IsTrue (state S.Store conn.new).is_open
        → IfOk result (λ shown. AreLooked (is_within kind code.now) (rows_in (state S.Store conn.old)) shown.items) }
{
    // Tells the proof the same as in `first_rows`.
    let _settled = conn.is_autocommit();
    conn.query_all(
        "SELECT kind, code, body FROM record WHERE kind = ?1 AND code > ?2 ORDER BY kind, code LIMIT 64",
        params![u32::from(kind), code],
    )
}

/// The first rows of the kinds past this one.
pub(crate) fn rows_beyond<S: Alter>(conn: &mut Connection<S>, kind: u8) -> Result<Vec<Row>, Error>
    requires { conn.old.in_transaction ≡ false }
    ensures mode { conn.new.in_transaction ≡ false }
    ensures still { IsStill (state S.Store conn.old) (state S.Store conn.new) }
    ensures look { Suits (state S.Store conn.old) → HasCleanDisk (state S.Store conn.new) → IsTrue (state S.Store conn.new).is_open
        → IfOk result (λ shown. AreLooked (is_beyond kind) (rows_in (state S.Store conn.old)) shown.items) }
{
    // Tells the proof the same as in `first_rows`.
    let _settled = conn.is_autocommit();
    conn.query_all(
        "SELECT kind, code, body FROM record WHERE kind > ?1 ORDER BY kind, code LIMIT 64",
        params![u32::from(kind)],
    )
}
