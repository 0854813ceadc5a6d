ghost use Rattle.std.specs.Prelude.{◌≡◌, [], ◌∷◌, false, OnErr, OnOk, IsTrue};
ghost use Rattle.sqlite.specs.Held.{state};
ghost use Rattle.sqlite.specs.State.{HasCleanDisk};
ghost use Rattle.desk_sqlite.specs.Content.{AreMade, ArePut, IsMade, IsPut};
ghost use Rattle.desk_sqlite.specs.Inside.{IsInside, Leaves, Spares};
ghost use Rattle.desk_sqlite.specs.Store.{IsStore, Suits, rows_in};

use crate::change::{drop_record, insert_four, insert_record};
use desk_edge::{Change, Record};
use sqlite::{Alter, Connection, Error, ErrorCode, Transaction};

/// Keeps the record in place of the one of its key.
fn replace<S: Alter>(tx: &mut Transaction<'_, S>, kept: &Record) -> Result<(), Error>
    ensures same_reference { tx.new.conn.ghost_name ≡ tx.old.conn.ghost_name }
    ensures inside { IsInside (state S.Store tx.old.conn.now) (state S.Store tx.new.conn.now) }
    ensures put { Leaves (state S.Store tx.old.conn.now) (state S.Store tx.new.conn.now) result (IsPut kept.now) }
    ensures ended { (state S.Store tx.old.conn.now).in_transaction ≡ false → OnOk result ⊥ × (tx.new.conn.now ≡ tx.old.conn.now) }
{
    match drop_record(tx, kept.kind, kept.code.as_slice()) {
        Ok(()) => insert_record(tx, kept),
        Err(error) => Err(error),
    }
}

/// Keeps the record, in place of the one of its key if there is one. Most records that are put in are new, so the other one is dropped
/// only where the insert is refused. There is no upsert: so nothing rests on which row one would have met.
fn put_record<S: Alter>(tx: &mut Transaction<'_, S>, kept: &Record) -> Result<(), Error>
    ensures same_reference { tx.new.conn.ghost_name ≡ tx.old.conn.ghost_name }
    ensures inside { IsInside (state S.Store tx.old.conn.now) (state S.Store tx.new.conn.now) }
    ensures put { Leaves (state S.Store tx.old.conn.now) (state S.Store tx.new.conn.now) result (IsPut kept.now) }
{
    match insert_record(tx, kept) {
        Err(Error::SqliteFailure(ErrorCode::ConstraintViolation(_))) => replace(tx, kept),
        done => done,
    }
}

/// Keeps two records, each in place of the one of its key if there is one.
fn put_two<S: Alter>(
    tx: &mut Transaction<'_, S>,
    first: &Record,
    second: &Record,
) -> Result<(), Error>
    ensures same_reference { tx.new.conn.ghost_name ≡ tx.old.conn.ghost_name }
    ensures inside { IsInside (state S.Store tx.old.conn.now) (state S.Store tx.new.conn.now) }
    ensures put { Leaves (state S.Store tx.old.conn.now) (state S.Store tx.new.conn.now) result (ArePut (first.now ∷ second.now ∷ [])) }
{
    match put_record(tx, first) {
        Ok(()) => put_record(tx, second),
        Err(error) => Err(error),
    }
}

/// Keeps four records one after the other, each in place of the one of its key if there is one.
fn put_in_turn<S: Alter>(
    tx: &mut Transaction<'_, S>,
    first: &Record,
    second: &Record,
    third: &Record,
    fourth: &Record,
) -> Result<(), Error>
    ensures same_reference { tx.new.conn.ghost_name ≡ tx.old.conn.ghost_name }
    ensures inside { IsInside (state S.Store tx.old.conn.now) (state S.Store tx.new.conn.now) }
    ensures put { Leaves (state S.Store tx.old.conn.now) (state S.Store tx.new.conn.now) result
        (ArePut (first.now ∷ second.now ∷ third.now ∷ fourth.now ∷ [])) }
    ensures ended { (state S.Store tx.old.conn.now).in_transaction ≡ false → OnOk result ⊥ × (tx.new.conn.now ≡ tx.old.conn.now) }
{
    replace(tx, first)?;
    put_record(tx, second)?;
    put_two(tx, third, fourth)
}

/// Keeps four records, by one statement where they are new, as most are where many are put in.
fn put_four<S: Alter>(
    tx: &mut Transaction<'_, S>,
    first: &Record,
    second: &Record,
    third: &Record,
    fourth: &Record,
) -> Result<(), Error>
    ensures same_reference { tx.new.conn.ghost_name ≡ tx.old.conn.ghost_name }
    ensures inside { IsInside (state S.Store tx.old.conn.now) (state S.Store tx.new.conn.now) }
    ensures put { Leaves (state S.Store tx.old.conn.now) (state S.Store tx.new.conn.now) result
        (ArePut (first.now ∷ second.now ∷ third.now ∷ fourth.now ∷ [])) }
{
    match insert_four(tx, first, second, third, fourth) {
        Err(Error::SqliteFailure(ErrorCode::ConstraintViolation(_))) => {
            put_in_turn(tx, first, second, third, fourth)
        }
        done => done,
    }
}

/// Makes the change.
fn make_change<S: Alter>(tx: &mut Transaction<'_, S>, change: &Change) -> Result<(), Error>
    ensures same_reference { tx.new.conn.ghost_name ≡ tx.old.conn.ghost_name }
    ensures inside { IsInside (state S.Store tx.old.conn.now) (state S.Store tx.new.conn.now) }
    ensures made { Leaves (state S.Store tx.old.conn.now) (state S.Store tx.new.conn.now) result (IsMade change.now) }
{
    match change {
        Change::Put(kept) => put_record(tx, kept),
        Change::Drop(key) => drop_record(tx, key.kind, key.code.as_slice()),
    }
}

/// Makes the changes, one after the other, up to the first that is refused.
fn make_in_turn<S: Alter>(tx: &mut Transaction<'_, S>, batch: &[Change]) -> Result<(), Error>
    ensures same_reference { tx.new.conn.ghost_name ≡ tx.old.conn.ghost_name }
    ensures inside { IsInside (state S.Store tx.old.conn.now) (state S.Store tx.new.conn.now) }
    ensures made { Leaves (state S.Store tx.old.conn.now) (state S.Store tx.new.conn.now) result (AreMade batch.now) }
{
    'changes: for change in batch {
        make_change(tx, change)?;
    }
    Ok(())
}

/// Makes up to four changes.
fn make_few<S: Alter>(tx: &mut Transaction<'_, S>, few: &[Change]) -> Result<(), Error>
    ensures same_reference { tx.new.conn.ghost_name ≡ tx.old.conn.ghost_name }
    ensures inside { IsInside (state S.Store tx.old.conn.now) (state S.Store tx.new.conn.now) }
    ensures made { Leaves (state S.Store tx.old.conn.now) (state S.Store tx.new.conn.now) result (AreMade few.now) }
{
    match few {
        [
            Change::Put(first),
            Change::Put(second),
            Change::Put(third),
            Change::Put(fourth),
        ] => put_four(tx, first, second, third, fourth),
        _ => make_in_turn(tx, few),
    }
}

/// Makes all the changes, up to the first that is refused. It goes by four, as four records that are put in take one statement.
fn make_all<S: Alter>(tx: &mut Transaction<'_, S>, batch: &[Change]) -> Result<(), Error>
    ensures same_reference { tx.new.conn.ghost_name ≡ tx.old.conn.ghost_name }
    ensures inside { IsInside (state S.Store tx.old.conn.now) (state S.Store tx.new.conn.now) }
    ensures made { Leaves (state S.Store tx.old.conn.now) (state S.Store tx.new.conn.now) result (AreMade batch.now) }
{
    for few in batch.chunks(4) {
        make_few(tx, few)?;
    }
    Ok(())
}

/// Makes all the changes in one transaction, or none of them.
pub(crate) fn commit_all<S: Alter>(conn: &mut Connection<S>, batch: &[Change]) -> Result<(), Error>
    requires { conn.old.in_transaction ≡ false }
    ensures mode { conn.new.in_transaction ≡ false }
    ensures clean { HasCleanDisk (state S.Store conn.new) → HasCleanDisk (state S.Store conn.old) }
    ensures was_open { HasCleanDisk (state S.Store conn.new) → IsTrue (state S.Store conn.new).is_open
        → IsTrue (state S.Store conn.old).is_open }
    ensures open { HasCleanDisk (state S.Store conn.new) → OnOk result (IsTrue (state S.Store conn.new).is_open) }
    ensures made { Suits (state S.Store conn.old) → HasCleanDisk (state S.Store conn.new) → IsTrue (state S.Store conn.new).is_open
        → OnOk result (IsStore (state S.Store conn.new) × AreMade batch.now (rows_in (state S.Store conn.old)) (rows_in (state S.Store conn.new))) }
    ensures undone { HasCleanDisk (state S.Store conn.new) → IsTrue (state S.Store conn.new).is_open
        → OnErr result ((state S.Store conn.new).now ≡ (state S.Store conn.old).now) }
{
    // Tells the proof that outside a transaction the rows are those that were committed, also after a transaction that fails.
    let _settled = conn.is_autocommit();
    let mut tx = conn.transaction();
    make_all(&mut tx, batch)?;
    tx.commit()
}
