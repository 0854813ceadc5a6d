ghost use Rattle.std.specs.Prelude.{◌≡◌, ◌≢◌, ◌≤◌, ℕ, List, Ok, Err, None, Some, is_ok, true, IfOk, IfErr, OnOk, OnErr, IsErrOf};
ghost use Rattle.desk_clerk.specs.Clerk.{tables_of};
ghost use Rattle.desk_engine.specs.Engine.{IsPlanOf, lists_of};
ghost use Rattle.desk_model.specs.Lists.{number_at};
ghost use Rattle.desk_clerk.specs.Opening.{IsDamagedAt, IsOpenedAs};
ghost use Rattle.desk_edge.specs.Content.{IsSame};
ghost use Rattle.desk_edge.specs.Faults.{CountsFaults, Rose};
ghost use Rattle.desk_history.specs.Sound.{Sound};
ghost use Rattle.desk_history.specs.Step.{kept_number, step};
ghost use Rattle.desk_model.specs.Lists.{Lists};
ghost use Rattle.desk_model.specs.declared.rule_fault.RuleFault.{RuleFault as Fault};
ghost use Rattle.desk_records.specs.Records.{tables_content};

use crate::accepted::Accepted;
use crate::keeping::{keep, refusal};
use crate::open_fault::OpenFault;
use crate::open_refused::OpenRefused;
use crate::opening::open_engine;
use crate::submit_fault::SubmitFault;
use desk_edge::Keeper;
use desk_engine::{Engine, Plan};
use desk_model::Edit;
use desk_tables::Tables;
use std::alloc::Global;
use std::marker::Model;

/// A desk with the store that keeps it: an engine, and the keeper of its tables. The tables are sound, and where the store tells what it
/// keeps, that is the tables.
pub struct StoredDesk<K: Keeper> {
    engine: Engine,
    keeper: K,
}

// Written out, so that a function that owns one does not prove anew how each part is dropped.
impl<K: Keeper + Drop> Drop for StoredDesk<K> {
    fn drop(self) {
        let StoredDesk {
            engine: _,
            keeper: _,
        } = self;
    }
}

impl<K: Keeper> Model for StoredDesk<K> {
    ghost use Rattle.desk_clerk.specs.Clerk.{KeptDesk};
    ghost use Rattle.desk_edge.specs.Content.{IsSame};
    ghost use Rattle.desk_engine.specs.Engine.{lists_of};
    ghost use Rattle.desk_history.specs.Sound.{Sound};
    ghost use Rattle.desk_records.specs.Records.{tables_content};

    ghost Value = { KeptDesk K };

    ghost view = { λ desk. record { engine = desk.engine; keeper = desk.keeper } };

    ghost invariant = { λ desk. Sound (lists_of desk.engine)
        × (K.Tells desk.keeper → IsSame (tables_content (lists_of desk.engine)) (K.content desk.keeper)) };
}

impl<K: Keeper> StoredDesk<K> {
    /// Opens a store: reads all its records, but no more than one too many for sound tables, and makes tables of them. An empty store
    /// is first given the records of the start tables, in one commit.
    ///
    /// `KeeperFault`: a call of the keeper failed. `Damaged`: the records that were read, all or one more than sound tables have, aren't
    /// those of sound tables; it names a record that no row has, or a row that breaks a clause of soundness. `OutOfMemory`: none was
    /// left to open it. Each refusal hands the keeper back, with what it kept.
    pub fn open(alloc: Global, keeper: K) -> Result<StoredDesk<K>, OpenRefused<K>>
        ensures told { IfOk result (λ desk. K.Tells desk.keeper → K.Tells keeper) }
        ensures opened { IfOk result (λ desk. K.Tells desk.keeper → IsOpenedAs (K.content keeper) (tables_of desk)) }
        ensures handed_back { IfErr result (λ refused. K.Tells refused.keeper
            → K.Tells keeper × IsSame (K.content keeper) (K.content refused.keeper)) }
        ensures damaged { IfErr result (λ refused. (kind : ℕ) (code : List ℕ) → refused.fault ≡ OpenFault.Damaged kind code
            → IsDamagedAt (K.Tells refused.keeper) (K.content keeper) kind code) }
        ensures not_sound { IfErr result (λ refused. (kind : ℕ) (code : List ℕ) → refused.fault ≡ OpenFault.Damaged kind code
            → K.Tells refused.keeper → (t : Lists) → Sound t → IsOpenedAs (K.content keeper) t → ⊥) }
        ensures counted { IfOk result (λ desk. K.faults desk.keeper ≡ K.faults keeper) }
        ensures faults { IfErr result (λ refused. CountsFaults (refused.fault ≡ OpenFault.KeeperFault) (K.faults keeper) (K.faults refused.keeper)) }
    {
        let mut keeper = keeper;
        match open_engine(alloc, &mut keeper) {
            Ok(engine) => Ok(StoredDesk { engine, keeper }),
            Err(fault) => Err(OpenRefused { fault, keeper }),
        }
    }

    /// Takes in an edit: judges it, keeps what it changes in the store, in one commit, and then makes it in the tables. An edit that was
    /// accepted before is told by its kept number, and the store isn't asked; nor is it for an edit that meets a refusal.
    ///
    /// `Rule`: the first refusal that it meets. `KeeperFault`: it is new and meets no refusal, and the keeper refused the commit.
    /// `OutOfMemory`: none was left to judge it or to keep it. After a refusal the tables and what the store keeps are as they were.
    pub fn accept(&mut self, alloc: Global, edit: &Edit) -> Result<Accepted, SubmitFault>
        ensures number { IfOk result (λ accepted. (step (tables_of self.old) edit.now).0 ≡ Ok accepted.number) }
        ensures list { IfOk result (λ accepted. accepted.whole ≡ number_at (tables_of self.new)) }
        ensures ok { OnOk result (tables_of self.new ≡ (step (tables_of self.old) edit.now).1) }
        ensures err { OnErr result (tables_of self.new ≡ tables_of self.old) }
        ensures rule { (fault : Fault) (n : ℕ) → result ≡ Err (SubmitFault.Rule fault n)
            → ((step (tables_of self.old) edit.now).0 ≡ Err fault) × (n ≡ number_at (tables_of self.old)) }

        // An edit that is kept already doesn't touch the store.
        ensures again { (n : ℕ) → kept_number (tables_of self.old) edit.now ≡ Some n → self.new.keeper ≡ self.old.keeper }

        // Nor does an edit that a rule refuses.
        ensures refused { (fault : Fault) → (step (tables_of self.old) edit.now).0 ≡ Err fault → self.new.keeper ≡ self.old.keeper }
        ensures told { K.Tells self.new.keeper → K.Tells self.old.keeper }
        ensures faults { CountsFaults (IsErrOf result SubmitFault.KeeperFault) (K.faults self.old.keeper) (K.faults self.new.keeper) }
        ensures sure { K.NeverFails → result ≢ Err SubmitFault.KeeperFault }
        ensures asked { IsErrOf result SubmitFault.KeeperFault
            → (kept_number (tables_of self.old) edit.now ≡ None) × (is_ok (step (tables_of self.old) edit.now).0 ≡ true) }
    {
        let plan = match self.engine.prepare_uncounted(alloc, edit) {
            Ok(plan) => plan,
            Err(fault) => return Err(refusal(fault, self.number())),
        };
        self.carry_out(alloc, edit, plan)
    }

    /// Keeps what the plan of the edit changes in the store, in one commit, and then makes it in the tables. For an edit that is kept
    /// already memory isn't wanting.
    fn carry_out(&mut self, alloc: Global, edit: &Edit, plan: Plan) -> Result<Accepted, SubmitFault>
        requires { IsPlanOf self.old.engine edit.now plan }
        ensures number { IfOk result (λ accepted. (step (tables_of self.old) edit.now).0 ≡ Ok accepted.number) }
        ensures list { IfOk result (λ accepted. accepted.whole ≡ number_at (tables_of self.new)) }
        ensures ok { OnOk result (tables_of self.new ≡ (step (tables_of self.old) edit.now).1) }
        ensures err { OnErr result (tables_of self.new ≡ tables_of self.old) }
        ensures no_rule { (fault : Fault) (n : ℕ) → result ≢ Err (SubmitFault.Rule fault n) }
        ensures again { (n : ℕ) → kept_number (tables_of self.old) edit.now ≡ Some n → self.new.keeper ≡ self.old.keeper }
        ensures memory { (n : ℕ) → kept_number (tables_of self.old) edit.now ≡ Some n → result ≢ Err SubmitFault.OutOfMemory }
        ensures told { K.Tells self.new.keeper → K.Tells self.old.keeper }
        ensures faults { CountsFaults (IsErrOf result SubmitFault.KeeperFault) (K.faults self.old.keeper) (K.faults self.new.keeper) }
        ensures sure { K.NeverFails → result ≢ Err SubmitFault.KeeperFault }
        ensures asked { IsErrOf result SubmitFault.KeeperFault
            → (kept_number (tables_of self.old) edit.now ≡ None) × (is_ok (step (tables_of self.old) edit.now).0 ≡ true) }
    {
        edit.in_form();
        if let Err(fault) = keep(alloc, &mut self.keeper, plan.tables()) {
            return Err(fault);
        }
        let number = self.engine.commit(plan);
        Ok(Accepted {
            number,
            whole: self.number(),
        })
    }

    /// The engine, whose tables are those after all edits that were accepted. It takes no memory.
    pub fn engine(&self) -> &Engine
        ensures engine { result.now ≡ self.now.engine }
        ensures sound { Sound (tables_of self.now) }
    {
        &self.engine
    }

    /// The tables after all edits that were accepted. It takes no memory.
    pub fn tables(&self) -> &Tables
        ensures lists { result.now.lists ≡ tables_of self.now }
        ensures sound { Sound (tables_of self.now) }
    {
        self.engine.tables()
    }

    /// The number of the tables: how many edits were accepted, in this store's whole life.
    pub fn number(&self) -> u64
        ensures { result ≡ number_at (tables_of self.now) }
    {
        self.engine.tables().number()
    }

    /// The desk of this engine, of which the keeper keeps the tables.
    pub fn from_parts(engine: Engine, keeper: K) -> StoredDesk<K>
        requires { K.Tells keeper → IsSame (tables_content (lists_of engine)) (K.content keeper) }
        ensures { result ≡ record { engine = engine; keeper = keeper } }
    {
        // The call says that the tables are sound.
        engine.tables();
        StoredDesk { engine, keeper }
    }

    /// Gives the engine and the keeper back. It takes no memory and is never refused.
    pub fn into_parts(self) -> (Engine, K)
        ensures parts { (result.0 ≡ self.engine) × (result.1 ≡ self.keeper) }
        ensures kept { K.Tells result.1 → IsSame (tables_content (lists_of result.0)) (K.content result.1) }
    {
        let StoredDesk { engine, keeper } = self;
        (engine, keeper)
    }

    /// Gives the keeper back. It takes no memory and is never refused.
    pub fn close(self) -> K
        ensures keeper { result ≡ self.keeper }
        ensures kept { K.Tells result → IsSame (tables_content (tables_of self)) (K.content result) }
    {
        let StoredDesk { engine: _, keeper } = self;
        keeper
    }
}
