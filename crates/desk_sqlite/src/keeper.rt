ghost use Rattle.std.specs.Prelude.{◌≡◌, ◌≢◌, ◌≤◌, false, true, Err, IfErr, IfOk, IfSome, OnErr, OnOk, IsErrOf, IsTrue, option_copied};
ghost use Rattle.sqlite.specs.Held.{state};
ghost use Rattle.sqlite.specs.State.{HasCleanDisk};
ghost use Rattle.desk_edge.specs.Content.{IsChanged, IsFirstPast, IsSame, is_past, key_of};
ghost use Rattle.desk_edge.specs.Faults.{CountsFaults, Rose};
ghost use Rattle.desk_sqlite.specs.Content.{AreMade, rows_content};
ghost use Rattle.desk_sqlite.specs.Numbers.{ShowsNoRise};
ghost use Rattle.desk_sqlite.specs.Refusals.{IsOfOthers, keep_fault_of};
ghost use Rattle.desk_sqlite.specs.Store.{IsOurs, IsStore, TellsContent, KeepsRows, Suits, rows_in};

use crate::ahead::Ahead;
use crate::commit::commit_all;
use crate::find::look_ahead;
use crate::form::{is_new, is_ours};
use crate::ready::make_ready;
use crate::refusal::keep_fault_of;
use desk_edge::{Change, KeepFault, Keeper, Key, Record};
use sqlite::{Alter, Connection, Error};
use std::alloc::Global;
use std::marker::Model;

/// A store of records in the table `record` of a database.
///
/// It tells what it keeps once it is ready, where the database is that one table in the form of [`SqlKeeper::ready`], the disk has
/// returned what was written and no failure has shut the connection. It keeps then, under each kind and code, the body in their row.
pub struct SqlKeeper<S: Alter> {
    connection: Connection<S>,
    is_ready: bool,
    is_ours: bool,
    faults: u64,
    ahead: Option<Ahead>,
}

// Written out, so that a function that owns one does not prove anew how each part is dropped.
impl<S: Alter + Drop> Drop for SqlKeeper<S> {
    fn drop(self) {
        let SqlKeeper {
            connection: _,
            is_ready: _,
            is_ours: _,
            faults: _,
            ahead: _,
        } = self;
    }
}

impl<S: Alter> Model for SqlKeeper<S> {
    ghost use Rattle.std.specs.Prelude.{◌≡◌, false, true};
    ghost use Rattle.sqlite.specs.Held.{state};
    ghost use Rattle.desk_sqlite.specs.Keeping.{Keeping, keeping_code};
    ghost use Rattle.desk_sqlite.specs.Ahead.{IsAhead};
    ghost use Rattle.desk_sqlite.specs.Store.{Suits};

    ghost Value = { Keeping S };

    ghost coded = { keeping_code S.code };

    ghost view = { λ k. record { connection = k.connection; is_ready = k.is_ready; is_ours = k.is_ours; faults = k.faults } };

    // A keeper that is ready is outside a transaction; where the database was found to be a store, it is one as long as the disk is
    // clean and the connection open, and the records that were read ahead are its own.
    ghost invariant = { λ k. (k.is_ready ≡ true → k.connection.in_transaction ≡ false)
        × (k.is_ours ≡ true → Suits (state S.Store k.connection))
        × (k.is_ours ≡ true → IsAhead (state S.Store k.connection) k.ahead) };
}

impl<S: Alter> SqlKeeper<S> {
    /// A keeper over the database of the connection. It isn't ready yet, and has counted no fault.
    pub fn adopt(connection: Connection<S>) -> SqlKeeper<S>
        ensures connection { result.connection ≡ connection }
        ensures new { (result.is_ready ≡ false) × (result.is_ours ≡ false) × (result.faults ≡ 0) }
    {
        SqlKeeper {
            connection,
            is_ready: false,
            is_ours: false,
            faults: 0,
            ahead: None,
        }
    }

    /// Gives the connection back.
    pub fn release(self) -> Connection<S>
        ensures { result ≡ self.connection }
    {
        let SqlKeeper {
            connection,
            is_ready: _,
            is_ours: _,
            faults: _,
            ahead: _,
        } = self;
        connection
    }

    /// How many faults were counted.
    pub fn faults(&self) -> u64
        ensures { result ≡ self.now.faults }
    {
        self.faults
    }

    /// Whether the last [`SqlKeeper::ready`] that answered `Ok` found the database to be its one table and nothing else.
    pub fn is_ours(&self) -> bool
        ensures { result ≡ self.now.is_ours }
    {
        self.is_ours
    }

    /// Makes the table `record` where there is none, and looks whether the database is this one table:
    ///
    /// ```sql
    /// CREATE TABLE record (kind INTEGER NOT NULL CHECK (kind >= 0 AND kind <= 255), code BLOB NOT NULL,
    ///     body BLOB NOT NULL, PRIMARY KEY (kind, code)) STRICT
    /// ```
    ///
    /// Where a table of that name has another form, or other tables stand beside it, it may answer `Ok`, and the keeper tells no
    /// records. `Failed` comes exactly where a fault was counted in this call: a statement was refused other than for memory, or the
    /// connection is inside a transaction.
    pub fn ready(&mut self) -> Result<(), KeepFault>
        ensures ready { OnOk result (self.new.is_ready ≡ true) }
        // A store that was there has the records that it had.
        ensures kept { OnOk result (self.new.is_ours ≡ true → KeepsRows (state S.Store self.old.connection) (state S.Store self.new.connection)) }
        // A clean database with the table of its form is found to be a store, unless what it shows of its row numbers doesn't rise.
        ensures found { OnOk result (self.new.is_ours ≡ false → IsOurs (state S.Store self.old.connection).now.schema
            → HasCleanDisk (state S.Store self.new.connection) → ShowsNoRise (state S.Store self.old.connection)) }
        ensures faults { CountsFaults (IsErrOf result KeepFault.Failed) self.old.faults self.new.faults }
    {
        self.is_ready = false;
        self.is_ours = false;
        self.ahead = None;
        match make_ready(&mut self.connection) {
            Ok(ours) => {
                self.is_ours = ours;
                self.is_ready = true;
                Ok(())
            }
            Err(error) => Err(self.refused(error)),
        }
    }

    /// Counts a fault.
    fn fault(&mut self) -> KeepFault
        ensures answer { result ≡ KeepFault.Failed }
        ensures same { (self.new.connection ≡ self.old.connection) × (self.new.is_ready ≡ self.old.is_ready) × (self.new.is_ours ≡ self.old.is_ours) }
        ensures never_falls { self.old.faults ≤ self.new.faults }
        ensures rose { Rose self.old.faults self.new.faults }
    {
        self.faults = self.faults.saturating_add(1);
        KeepFault::Failed
    }

    /// What a refused statement is told as. Each but for want of memory is a fault, which is counted.
    fn refused(&mut self, error: Error) -> KeepFault
        ensures same { (self.new.connection ≡ self.old.connection) × (self.new.is_ready ≡ self.old.is_ready) × (self.new.is_ours ≡ self.old.is_ours) }
        ensures answer { result ≡ keep_fault_of error }
        ensures faults { CountsFaults (result ≡ KeepFault.Failed) self.old.faults self.new.faults }
    {
        match keep_fault_of(error) {
            KeepFault::OutOfMemory => KeepFault::OutOfMemory,
            KeepFault::Failed => self.fault(),
        }
    }
}

impl<S: Alter + Drop> SqlKeeper<S> {
    /// A keeper over the database of the connection, made ready where the database is new or a store. `Failed` comes where it is of
    /// somebody else, to which nothing is done, or can't be made ready. Then the connection is given back.
    pub(crate) fn over(
        connection: Connection<S>,
    ) -> Result<SqlKeeper<S>, (KeepFault, Connection<S>)>
        ensures count { IfOk result (λ keeper. keeper.faults ≡ 0) }
        ensures ours { IfOk result (λ keeper. keeper.is_ours ≡ true) }
        ensures kept { IfOk result (λ keeper. KeepsRows (state S.Store connection) (state S.Store keeper.connection)) }
        ensures not_opened { IsOfOthers connection.schema → OnOk result ⊥ }
        ensures not_touched { IsOfOthers connection.schema → IfErr result (λ refused. (refused.0 ≡ KeepFault.Failed) × (refused.1 ≡ connection)) }
    {
        if !is_new(connection.schema()) && !is_ours(connection.schema()) {
            return Err((KeepFault::Failed, connection));
        }
        let mut keeper = SqlKeeper::adopt(connection);
        match keeper.ready() {
            Ok(()) if keeper.is_ours() => Ok(keeper),
            Ok(()) => Err((KeepFault::Failed, keeper.release())),
            Err(fault) => Err((fault, keeper.release())),
        }
    }
}

impl<S: Alter> Keeper for SqlKeeper<S> {
    ghost NeverFails = { ⊥ };

    ghost faults = { λ k. k.faults };

    ghost Tells = { λ k. TellsContent k.is_ours (state S.Store k.connection) };

    ghost content = { λ k. rows_content (rows_in (state S.Store k.connection)) };

    fn next_record(
        &mut self,
        alloc: Global,
        after: Option<&Key>,
    ) -> Result<Option<Record>, KeepFault>
        ensures told { TellsContent self.new.is_ours (state S.Store self.new.connection) → TellsContent self.old.is_ours (state S.Store self.old.connection) }
        ensures stays { TellsContent self.new.is_ours (state S.Store self.new.connection)
            → IsSame (rows_content (rows_in (state S.Store self.old.connection))) (rows_content (rows_in (state S.Store self.new.connection))) }
        ensures gives { IfOk result (λ found. TellsContent self.new.is_ours (state S.Store self.new.connection)
            → IsFirstPast (rows_content (rows_in (state S.Store self.new.connection))) (option_copied after.entry) found) }
        ensures later { IfOk result (λ found. IfSome found (λ kept. is_past (option_copied after.entry) (key_of kept) ≡ true)) }
        ensures faults { CountsFaults (IsErrOf result KeepFault.Failed) self.old.faults self.new.faults }
        ensures sure { ⊥ → result ≢ Err KeepFault.Failed }
        ensures ours { self.new.is_ours ≡ self.old.is_ours }
        ensures ready { self.new.is_ready ≡ self.old.is_ready }
    {
        if !self.is_ready {
            return Err(self.fault());
        }
        if let Some(ahead) = self.ahead.take()
            && let Some((kept, others)) = ahead.next(alloc, after)
        {
            self.ahead = others;
            return Ok(Some(kept));
        }
        match look_ahead(&mut self.connection, alloc, after) {
            Ok((found, others)) => {
                self.ahead = others;
                Ok(found)
            }
            Err(error) => Err(self.refused(error)),
        }
    }

    fn commit(&mut self, _alloc: Global, batch: &[Change]) -> Result<(), KeepFault>
        ensures told { TellsContent self.new.is_ours (state S.Store self.new.connection) → TellsContent self.old.is_ours (state S.Store self.old.connection) }
        ensures ok { OnOk result (TellsContent self.new.is_ours (state S.Store self.new.connection)
            → IsChanged batch.now (rows_content (rows_in (state S.Store self.old.connection))) (rows_content (rows_in (state S.Store self.new.connection)))) }
        ensures err { OnErr result (TellsContent self.new.is_ours (state S.Store self.new.connection)
            → IsSame (rows_content (rows_in (state S.Store self.old.connection))) (rows_content (rows_in (state S.Store self.new.connection)))) }
        ensures faults { CountsFaults (IsErrOf result KeepFault.Failed) self.old.faults self.new.faults }
        ensures sure { ⊥ → result ≢ Err KeepFault.Failed }
        ensures ours { self.new.is_ours ≡ self.old.is_ours }
        ensures ready { self.new.is_ready ≡ self.old.is_ready }

        // Ok comes only where the batch was committed, also where the keeper doesn't tell what it keeps.
        ensures open { OnOk result (HasCleanDisk (state S.Store self.new.connection) → IsTrue (state S.Store self.new.connection).is_open) }
        ensures made { OnOk result (Suits (state S.Store self.old.connection) → HasCleanDisk (state S.Store self.new.connection)
            → IsStore (state S.Store self.new.connection) × AreMade batch.now (rows_in (state S.Store self.old.connection)) (rows_in (state S.Store self.new.connection))) }
    {
        if !self.is_ready {
            return Err(self.fault());
        }
        self.ahead = None;
        match commit_all(&mut self.connection, batch) {
            Ok(()) => Ok(()),
            Err(error) => Err(self.refused(error)),
        }
    }
}
