ghost use Rattle.std.specs.Prelude.{◌≡◌, [], ◌∷◌, None, Ok, true, is_ok, Err, IfErr, IfOk, IfSome, OnErr, OnOk};
ghost use Rattle.desk_model.specs.Effect.{with_edit_made};
ghost use Rattle.desk_model.specs.Forms.{is_edit_in_form};
ghost use Rattle.desk_history.specs.History.{PassesRows};
ghost use Rattle.desk_history.specs.Refused.{closes_cycle, findings_full, first_some, refused_by_bill, refused_by_rows, total_too_large, year_too_large};
ghost use Rattle.desk_history.specs.Sound.{Sound};
ghost use Rattle.desk_history.specs.Step.{kept_number, step};
ghost use Rattle.desk_tables.specs.Change.{with_change_made};
ghost use Rattle.desk_tables.specs.Judged.{IsRefusal, IsRowsPlan, answer_by};
ghost use Rattle.desk_tables.specs.Plan.{IsPlan};
ghost use Rattle.desk_tables.specs.PutLine.{cycle_with, with_line};
ghost use Rattle.desk_tables.specs.Sums.{is_of_sums, may_raise_sums};

use crate::cycle::line_of;
use crate::sums::may_raise_sums;
use crate::{EditFault, RowChange, Tables, TablesPlan};
use desk_model::{Edit, LineRow, RuleFault};
use desk_text::OutOfMemory;
use std::alloc::Global;

/// Judgement by all refusals, and what it leads to.
impl Tables {
    /// Whether the edit would be accepted, or is kept already. Nothing changes.
    ///
    /// `Rule`: the first refusal that it meets. `OutOfMemory`: none was left to judge it.
    pub fn check(&self, alloc: Global, edit: &Edit) -> Result<(), EditFault>
        requires { Sound self.now.lists }
        ensures ok { OnOk result (is_ok (step self.now.lists edit.now).0 ≡ true) }
        ensures fault { IfErr result (λ fault. IsRefusal self.now.lists edit.now fault) }
    {
        self.prepare(alloc, edit)?;
        Ok(())
    }

    /// Takes the edit, and gives its number: the kept number of an edit that is kept, and else the next.
    ///
    /// `Rule`: the first refusal that it meets. `OutOfMemory`: none was left to take it. After a refusal the tables are as they were.
    pub fn accept(&mut self, alloc: Global, edit: Edit) -> Result<u64, EditFault>
        requires { Sound self.old.lists }
        ensures number { IfOk result (λ number. (step self.old.lists edit).0 ≡ Ok number) }
        ensures fault { IfErr result (λ fault. IsRefusal self.old.lists edit fault) }
        ensures ok { OnOk result (self.new.lists ≡ (step self.old.lists edit).1) }
        ensures err { OnErr result (self.new.lists ≡ self.old.lists) }
        ensures sound { Sound self.new.lists }
    {
        edit.in_form();
        let plan = self.prepare(alloc, &edit)?;
        Ok(self.commit(plan))
    }

    /// The plan of an edit that is kept, or that meets no refusal. Nothing changes.
    ///
    /// `Rule`: the first refusal that it meets. `OutOfMemory`: none was left for the plan.
    #[tactic(auto, unfolding(crate::specs::Judged::IsRefusal))]
    pub fn prepare(&self, alloc: Global, edit: &Edit) -> Result<TablesPlan, EditFault>
        requires { Sound self.now.lists }
        ensures plan { IfOk result (λ plan. IsPlan self.now edit.now plan) }
        ensures fault { IfErr result (λ fault. IsRefusal self.now.lists edit.now fault) }
    {
        let plan = match self.plan_rows(alloc, edit) {
            Ok(plan) => plan,
            Err(fault) => return Err(fault),
        };
        let fault = self.plan_fault(alloc, edit, &plan)?;
        unless_refused(plan, fault)
    }

    /// The first of the refusals 20 to 23 that an edit with this plan meets. Memory is wanting only for an edit that may raise a sum over
    /// whole tables.
    #[tactic(auto, unfolding(crate::specs::Judged::IsRowsPlan))]
    fn plan_fault(
        &self,
        alloc: Global,
        edit: &Edit,
        plan: &TablesPlan,
    ) -> Result<Option<RuleFault>, OutOfMemory>
        requires sound { Sound self.now.lists }
        requires plan { IsRowsPlan self.now edit.now plan.now }
        ensures fault { IfOk result (λ fault. IfSome fault (λ fault. (step self.now.lists edit.now).0 ≡ Err fault)) }
        ensures plan { IfOk result (λ fault. fault ≡ None → IsPlan self.now edit.now plan.now) }
        ensures memory { IfErr result (λ _. may_raise_sums edit.now ≡ true) }
    {
        match plan {
            TablesPlan::Kept { .. } => Ok(None),
            TablesPlan::New { change, .. } => self.refused_by_bill(alloc, edit, change),
        }
    }

    /// The first of the refusals 20 to 23, on the whole bill, that a new edit meets.
    #[tactic(auto, unfolding(desk_history::specs::Refused::refused_by_bill))]
    fn refused_by_bill(
        &self,
        alloc: Global,
        edit: &Edit,
        change: &RowChange,
    ) -> Result<Option<RuleFault>, OutOfMemory>
        requires sound { Sound self.now.lists }
        requires new { kept_number self.now.lists edit.now ≡ None }
        requires unrefused { refused_by_rows self.now.lists edit.now ≡ None }
        requires made { with_change_made self.now.lists change.now ≡ with_edit_made self.now.lists edit.now }
        requires sums { may_raise_sums edit.now ≡ true → is_of_sums change.now ≡ true }
        ensures fault { IfOk result (λ fault. fault ≡ refused_by_bill self.now.lists edit.now) }
        ensures memory { IfErr result (λ _. may_raise_sums edit.now ≡ true) }
    {
        edit.in_form();
        match line_of(edit) {
            Some(line) => self.refused_by_line(alloc, edit, &line),
            None => self.refused_by_sums(alloc, edit, change),
        }
    }

    /// The first of the refusals 20 to 23 that a new edit meets that puts this line in. The links of the tables are made once: it
    /// takes a search or two for each line of the bill.
    #[tactic(auto, unfolding(desk_history::specs::Refused::refused_by_bill))]
    fn refused_by_line(
        &self,
        alloc: Global,
        edit: &Edit,
        line: &LineRow,
    ) -> Result<Option<RuleFault>, OutOfMemory>
        requires sound { Sound self.now.lists }
        requires form { is_edit_in_form edit.now ≡ true }
        requires new { kept_number self.now.lists edit.now ≡ None }
        requires unrefused { refused_by_rows self.now.lists edit.now ≡ None }
        requires cycle { closes_cycle self.now.lists edit.now ≡ cycle_with self.now.lists line.now }
        requires made { with_edit_made self.now.lists edit.now ≡ with_line self.now.lists line.now }
        ensures { IfOk result (λ fault. fault ≡ refused_by_bill self.now.lists edit.now) }
    {
        let bill = self.lists().links(alloc)?;
        match self.cycle_fault(alloc, &bill, line)? {
            Some(fault) => Ok(Some(fault)),
            None => self.sums_fault_with_line(alloc, bill, line),
        }
    }

    /// The first of the refusals 21 to 23, on sums over the whole bill, that a new edit meets.
    fn refused_by_sums(
        &self,
        alloc: Global,
        edit: &Edit,
        change: &RowChange,
    ) -> Result<Option<RuleFault>, OutOfMemory>
        requires sound { Sound self.now.lists }
        requires passes { PassesRows self.now.lists edit.now }
        requires made { with_change_made self.now.lists change.now ≡ with_edit_made self.now.lists edit.now }
        requires sums { may_raise_sums edit.now ≡ true → is_of_sums change.now ≡ true }
        ensures fault { IfOk result (λ fault. fault ≡ first_some (
            total_too_large self.now.lists edit.now
            ∷ findings_full self.now.lists edit.now
            ∷ year_too_large self.now.lists edit.now
            ∷ [])) }
        ensures memory { IfErr result (λ _. may_raise_sums edit.now ≡ true) }
    {
        if may_raise_sums(edit) {
            self.sums_fault_with(alloc, change)
        } else {
            Ok(None)
        }
    }
}

/// The plan, unless a rule refuses its edit.
fn unless_refused(plan: TablesPlan, fault: Option<RuleFault>) -> Result<TablesPlan, EditFault>
    ensures { result ≡ answer_by plan fault }
{
    match fault {
        Some(fault) => Err(EditFault::Rule(fault)),
        None => Ok(plan),
    }
}
