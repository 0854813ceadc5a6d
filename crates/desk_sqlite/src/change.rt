ghost use Rattle.std.specs.Prelude.{◌≡◌, [], ◌∷◌, false, OnOk};
ghost use Rattle.sqlite.specs.Held.{state};
ghost use Rattle.desk_sqlite.specs.Content.{ArePut, IsPut};
ghost use Rattle.desk_sqlite.specs.Inside.{IsDone, IsInside, Leaves, Spares};
ghost use Rattle.desk_sqlite.specs.Store.{Dropped};

use desk_edge::Record;
use sqlite::{Alter, Error, Transaction, params};

/// What a statement answered, but for its count of rows.
fn done_of(ran: Result<usize, Error>) -> Result<(), Error>
    ensures { IsDone ran result }
{
    match ran {
        Ok(_) => Ok(()),
        Err(error) => Err(error),
    }
}

/// Drops the record of the kind and the code, where there is one.
pub(crate) fn drop_record<S: Alter>(
    tx: &mut Transaction<'_, S>,
    kind: u8,
    code: &[u8],
) -> Result<(), Error>
    ensures same_reference { tx.new.conn.ghost_name ≡ tx.old.conn.ghost_name }
    ensures inside { IsInside (state S.Store tx.old.conn.now) (state S.Store tx.new.conn.now) }
    ensures dropped { Leaves (state S.Store tx.old.conn.now) (state S.Store tx.new.conn.now) result (Dropped kind code.now) }
    ensures ended { (state S.Store tx.old.conn.now).in_transaction ≡ false → OnOk result ⊥ × (tx.new.conn.now ≡ tx.old.conn.now) }
{
    done_of(tx.execute(
        "DELETE FROM record WHERE kind = ?1 AND code = ?2",
        params![u32::from(kind), code],
    ))
}

/// Keeps the record. It is refused where one of its key is kept.
pub(crate) fn insert_record<S: Alter>(
    tx: &mut Transaction<'_, S>,
    kept: &Record,
) -> Result<(), Error>
    ensures same_reference { tx.new.conn.ghost_name ≡ tx.old.conn.ghost_name }
    ensures inside { IsInside (state S.Store tx.old.conn.now) (state S.Store tx.new.conn.now) }
    ensures inserted { Leaves (state S.Store tx.old.conn.now) (state S.Store tx.new.conn.now) result (IsPut kept.now) }
    ensures spares { Spares (state S.Store tx.old.conn.now) (state S.Store tx.new.conn.now) result }
{
    let Record { kind, code, body } = kept;
    done_of(tx.execute(
        "INSERT INTO record (kind, code, body) VALUES (?1, ?2, ?3)",
        params![u32::from(*kind), code.as_slice(), body.as_slice()],
    ))
}

/// Keeps four records. It is refused where one of the key of any of them is kept, and where two of them have one key.
pub(crate) fn insert_four<S: Alter>(
    tx: &mut Transaction<'_, S>,
    first: &Record,
    second: &Record,
    third: &Record,
    fourth: &Record,
) -> Result<(), Error>
    ensures same_reference { tx.new.conn.ghost_name ≡ tx.old.conn.ghost_name }
    ensures inside { IsInside (state S.Store tx.old.conn.now) (state S.Store tx.new.conn.now) }
    ensures inserted { Leaves (state S.Store tx.old.conn.now) (state S.Store tx.new.conn.now) result
        (ArePut (first.now ∷ second.now ∷ third.now ∷ fourth.now ∷ [])) }
    ensures spares { Spares (state S.Store tx.old.conn.now) (state S.Store tx.new.conn.now) result }
{
    done_of(tx.execute(
        "INSERT INTO record (kind, code, body) VALUES (?1, ?2, ?3), (?4, ?5, ?6), (?7, ?8, ?9), (?10, ?11, ?12)",
        params![
            u32::from(first.kind),
            first.code.as_slice(),
            first.body.as_slice(),
            u32::from(second.kind),
            second.code.as_slice(),
            second.body.as_slice(),
            u32::from(third.kind),
            third.code.as_slice(),
            third.body.as_slice(),
            u32::from(fourth.kind),
            fourth.code.as_slice(),
            fourth.body.as_slice(),
        ],
    ))
}
