ghost use Rattle.std.specs.Prelude.{◌≡◌, ◌≢◌, ◌+◌, ◌≤◌, ◌++◌, ℕ, List, true, Ok, Err, IfErr, IfOk, OnErr, OnOk};
ghost use Rattle.desk_engine.specs.Engine.{IsPlanOf, IsPrepared, lists_of};
ghost use Rattle.desk_engine.specs.Planned.{most_steps};
ghost use Rattle.desk_engine.specs.Stored.{IsStoredOf};
ghost use Rattle.desk_history.specs.Sound.{Sound};
ghost use Rattle.desk_scratch.specs.Eval.{eval};
ghost use Rattle.desk_scratch.specs.Questions.{is_question_in_range};
ghost use Rattle.desk_scratch.specs.Steps.{HasStepped};
ghost use Rattle.desk_scratch.specs.declared.ask_fault.AskFault.TheVariants as ask;
ghost use Rattle.desk_tables.specs.Judged.{IsRefusal, IsRowsPlan};
ghost use Rattle.desk_tables.specs.Plan.{plan_number, tables_planned};
ghost use Rattle.desk_tables.specs.Soundness.{NamesBreach};

use crate::commit::commit_stored;
use crate::plan::Plan;
use crate::planning::plan_stored;
use crate::source::answer_stored;
use crate::start::stored_of;
use crate::stored::Stored;
use crate::stored_plan::StoredPlan;
use desk_bridge::NewEdit;
use desk_graph::Steps;
use desk_scratch::{AskFault, Question};
use desk_tables::{Edit, EditFault, SoundFault, Tables, TablesPlan};
use desk_text::{Bytes, OutOfMemory};
use std::alloc::Global;
use std::marker::Model;
use std::sync::ledger::Ledger;

/// What answers a desk's edits and questions. Its tables are sound.
///
/// It keeps the tables, and beside them what is computed of them: the bill of materials, what each node of it has, and the years. An edit
/// replaces what it affects.
pub struct Engine {
    tables: Tables,
    stored: Stored,
}

// Written out, so that a function that owns one does not prove anew how each part is dropped.
impl Drop for Engine {
    fn drop(self) {
        let Engine {
            tables: _,
            stored: _,
        } = self;
    }
}

impl Model for Engine {
    ghost use Rattle.desk_engine.specs.Engine.{Engined, IsWhole};

    ghost Value = { Engined };

    ghost view = { λ engine. record { desk = engine.tables; stored = engine.stored } };

    ghost invariant = { λ engine. IsWhole (record { desk = engine.tables; stored = engine.stored }) };
}

impl Engine {
    /// An engine of these tables.
    ///
    /// `Unsound`: they aren't sound; it names the table and the code of a row that breaks a clause. `OutOfMemory`: none was left to
    /// find out. After a refusal the tables are gone.
    pub fn from_tables(alloc: Global, tables: Tables) -> Result<Engine, SoundFault>
        ensures tables { IfOk result (λ engine. lists_of engine ≡ tables.lists) }
        ensures sound { OnOk result (Sound tables.lists) }
        ensures told { IfErr result (NamesBreach tables.lists) }
        ensures unsound { (table : ℕ) (key : List ℕ) → result ≡ Err (SoundFault.Unsound table key) → Sound tables.lists → ⊥ }
    {
        if let Err(fault) = tables.is_sound(alloc) {
            return Err(fault);
        }
        match Engine::from_sound_tables(alloc, tables) {
            Ok(engine) => Ok(engine),
            Err(_) => Err(SoundFault::OutOfMemory),
        }
    }

    /// An engine of these tables, which are known to be sound.
    ///
    /// `OutOfMemory`: none was left for what it keeps beside them. After a refusal the tables are gone.
    pub fn from_sound_tables(alloc: Global, tables: Tables) -> Result<Engine, OutOfMemory>
        requires { Sound tables.lists }
        ensures { IfOk result (λ engine. lists_of engine ≡ tables.lists) }
    {
        let stored = stored_of(alloc, &tables)?;
        Ok(Engine { tables, stored })
    }

    /// The same engine once more.
    ///
    /// `OutOfMemory`: none was left for the copy.
    pub fn copied(&self, alloc: Global) -> Result<Engine, OutOfMemory>
        ensures { IfOk result (λ copy. lists_of copy ≡ lists_of self.now) }
    {
        let tables = self.tables.copied(alloc)?;
        let stored = self.stored.copied(alloc)?;
        Ok(Engine { tables, stored })
    }

    /// The tables. It takes no memory.
    pub fn tables(&self) -> &Tables
        ensures tables { result.now ≡ self.now.desk }
        ensures sound { Sound (lists_of self.now) }
    {
        &self.tables
    }

    /// The plan of an edit that is kept, or that meets no refusal. Nothing changes.
    ///
    /// `Rule`: the first refusal that it meets. `OutOfMemory`: none was left for the plan.
    pub fn prepare<L: Ledger>(
        &self,
        alloc: Global,
        edit: &Edit,
        steps: &mut Steps<L>,
    ) -> Result<Plan, EditFault>
        ensures plan { IfOk result (λ plan. IsPlanOf self.now edit.now plan) }
        ensures fault { IfErr result (λ fault. IsRefusal (lists_of self.now) edit.now fault) }
        ensures steps { steps.new ≤ steps.old + most_steps (lists_of self.now) edit.now }
    {
        let tables = match self.tables.plan_rows(alloc, edit) {
            Ok(tables) => tables,
            Err(fault) => return Err(fault),
        };
        let stored = plan_beside(alloc, &self.tables, &self.stored, edit, &tables, steps)?;
        Ok(Plan { tables, stored })
    }

    /// Carries out the plan, which was prepared at this engine as it stands, and gives the edit's number. It can't be refused and takes
    /// no memory.
    pub fn commit(&mut self, plan: Plan) -> u64
        requires { IsPrepared self.old plan }
        ensures number { result ≡ plan_number plan.tables }
        ensures lists { lists_of self.new ≡ tables_planned (lists_of self.old) plan.tables }
    {
        let Plan { tables, stored } = plan;
        let number = self.tables.commit(tables);
        if let Some(stored) = stored {
            commit_stored(&mut self.stored, stored);
        }
        number
    }

    /// Appends the answer to the question at the tables, made of what is stored of them. On a product's compliance it takes a step for the
    /// product, and one for each line of the chains that it prints.
    ///
    /// `NoSuchCode`: the question is about a material, a part, or either, of which nothing is kept. `NotAProduct`: a RoHS question is
    /// about a part that is no product. `OutOfMemory`: none was left for the answer. After an error `out` is as it was.
    pub fn answer<L: Ledger>(
        &self,
        alloc: Global,
        question: &Question,
        out: &mut Bytes,
        steps: &mut Steps<L>,
    ) -> Result<(), AskFault>
        requires { is_question_in_range question.now ≡ true }
        ensures answer { OnOk result ((text : List ℕ) × (eval (lists_of self.now) question.now ≡ Ok text) × (out.new ≡ out.old ++ text)) }
        ensures refusal { IfErr result (λ fault. fault ≢ ask.OutOfMemory → eval (lists_of self.now) question.now ≡ Err fault) }
        ensures unchanged { OnErr result (out.new ≡ out.old) }
        ensures steps { OnOk result (HasStepped (lists_of self.now) question.now steps.old steps.new) }
    {
        answer_stored(alloc, &self.tables, &self.stored, question, out, steps)
    }
}

/// What an edit with this plan for the tables does to what is stored of them: nothing, where it is kept already.
///
/// `Rule`: the first of the refusals 20 to 23 that it meets. `OutOfMemory`: none was left for the plan.
#[tactic(auto, unfolding(desk_tables::specs::Judged::IsRowsPlan))]
fn plan_beside<L: Ledger>(
    alloc: Global,
    tables: &Tables,
    stored: &Stored,
    edit: &Edit,
    rows: &TablesPlan,
    steps: &mut Steps<L>,
) -> Result<Option<StoredPlan>, EditFault>
    requires sound { Sound tables.now.lists }
    requires stored { IsStoredOf tables.now.lists stored.now }
    requires rows { IsRowsPlan tables.now edit.now rows.now }
    ensures plan { IfOk result (λ plan. IsPlanOf (record { desk = tables.now; stored = stored.now }) edit.now (record { tables = rows.now; stored = plan })) }
    ensures fault { IfErr result (λ fault. IsRefusal tables.now.lists edit.now fault) }
    ensures steps { steps.new ≤ steps.old + most_steps tables.now.lists edit.now }
{
    match rows {
        TablesPlan::Kept { .. } => Ok(None),
        TablesPlan::New { change, .. } => {
            let new = NewEdit {
                tables,
                edit,
                change,
            };
            let plan = plan_stored(alloc, &new, stored, steps)?;
            Ok(Some(plan))
        }
    }
}
