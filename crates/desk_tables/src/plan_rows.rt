ghost use Rattle.std.specs.Prelude.{◌≡◌, [], ◌∷◌, Err, IfErr, IfOk, None, true};
ghost use Rattle.desk_model.specs.Effect.{with_edit_entered, with_edit_made};
ghost use Rattle.desk_history.specs.Refused.{first_some, refused_by_rows, ticket_reused, table_full, text_full};
ghost use Rattle.desk_history.specs.Sound.{Sound};
ghost use Rattle.desk_history.specs.Step.{kept_number};
ghost use Rattle.desk_tables.specs.Change.{IsReady, with_change_made};
ghost use Rattle.desk_history.specs.Refused.{refusals_of_limits, refusals_of_names, refusals_of_values};
ghost use Rattle.desk_tables.specs.Judged.{IsRowsFault, IsRowsPlan, PassesValues};
ghost use Rattle.desk_tables.specs.Plan.{CanCommit, with_change_entered};
ghost use Rattle.desk_tables.specs.Sums.{is_of_sums, may_raise_sums};
ghost use Rattle.desk_tables.specs.Ticket.{ticket_for};
ghost use Rattle.desk_model.specs.Lists.{ticket_row};

use crate::{EditFault, RowChange, Tables, TablesPlan};
use desk_model::{Edit, RuleFault, TicketRow};
use std::alloc::Global;

/// Judgement by the refusals 1 to 19, which look-ups and lengths decide.
impl Tables {
    /// The plan of an edit that is kept, or that meets none of the refusals 1 to 19. The refusals 20 to 23, on the whole bill of
    /// materials, are yet to be tried for it.
    ///
    /// `Rule`: the first of the refusals 1 to 19 that it meets. `OutOfMemory`: none was left for the plan.
    #[tactic(auto, unfolding(crate::specs::Plan::CanCommit, crate::specs::Judged::IsRowsPlan, crate::specs::Judged::IsRowsFault))]
    pub fn plan_rows(&self, alloc: Global, edit: &Edit) -> Result<TablesPlan, EditFault>
        requires { Sound self.now.lists }
        ensures plan { IfOk result (λ plan. IsRowsPlan self.now edit.now plan) }
        ensures ready { IfOk result (λ plan. CanCommit self.now plan) }
        ensures fault { IfErr result (λ fault. IsRowsFault self.now.lists edit.now fault) }
    {
        let ticket = self.ticket_for(alloc, edit)?;
        self.plan_with(alloc, edit, ticket)
    }

    /// The same with the edit's ticket. Memory is wanting only for an edit that is new and meets none of the refusals 1 to 17.
    #[tactic(auto, unfolding(crate::specs::Plan::CanCommit, crate::specs::Judged::IsRowsPlan, crate::specs::Judged::IsRowsFault))]
    fn plan_with(
        &self,
        alloc: Global,
        edit: &Edit,
        ticket: TicketRow,
    ) -> Result<TablesPlan, EditFault>
        requires sound { Sound self.now.lists }
        requires ticket { ticket ≡ ticket_for self.now.lists edit.now }
        ensures plan { IfOk result (λ plan. IsRowsPlan self.now edit.now plan) }
        ensures ready { IfOk result (λ plan. CanCommit self.now plan) }
        ensures fault { IfErr result (λ fault. IsRowsFault self.now.lists edit.now fault) }
        ensures memory { result ≡ Err EditFault.OutOfMemory → PassesValues self.now.lists edit.now }
    {
        if let Some(number) = self.kept_number(edit, &ticket) {
            return Ok(TablesPlan::Kept { number });
        }
        if let Some(fault) = self.ticket_reused(edit, &ticket) {
            return Err(EditFault::Rule(fault));
        }
        if let Some(fault) = self.refused_by_names(edit) {
            return Err(EditFault::Rule(fault));
        }
        if let Some(fault) = self.refused_by_values(edit) {
            return Err(EditFault::Rule(fault));
        }
        self.plan_new(alloc, edit, ticket)
    }

    /// The plan of a new edit that meets none of the refusals 1 to 17.
    #[tactic(auto, unfolding(crate::specs::Judged::IsRowsFault))]
    fn plan_new(
        &self,
        alloc: Global,
        edit: &Edit,
        ticket: TicketRow,
    ) -> Result<TablesPlan, EditFault>
        requires sound { Sound self.now.lists }
        requires ticket { ticket ≡ ticket_for self.now.lists edit.now }
        requires new { kept_number self.now.lists edit.now ≡ None }
        requires unused { ticket_reused self.now.lists edit.now ≡ None }
        requires names { first_some (refusals_of_names self.now.lists edit.now) ≡ None }
        requires values { first_some (refusals_of_values self.now.lists edit.now) ≡ None }
        ensures plan { IfOk result (λ plan. IsRowsPlan self.now edit.now plan) }
        ensures ready { IfOk result (λ plan. CanCommit self.now plan) }
        ensures fault { IfErr result (λ fault. IsRowsFault self.now.lists edit.now fault) }
    {
        let change = self.change_for(alloc, edit)?;
        self.plan_change(alloc, edit, change, ticket)
    }

    /// The same with the change that the edit makes. Memory is wanting only for an edit that meets none of the refusals 1 to 19.
    #[tactic(auto, unfolding(crate::specs::Plan::CanCommit, crate::specs::Judged::IsRowsPlan, crate::specs::Judged::IsRowsFault))]
    fn plan_change(
        &self,
        alloc: Global,
        edit: &Edit,
        change: RowChange,
        ticket: TicketRow,
    ) -> Result<TablesPlan, EditFault>
        requires sound { Sound self.now.lists }
        requires ticket { ticket ≡ ticket_for self.now.lists edit.now }
        requires new { kept_number self.now.lists edit.now ≡ None }
        requires unused { ticket_reused self.now.lists edit.now ≡ None }
        requires names { first_some (refusals_of_names self.now.lists edit.now) ≡ None }
        requires values { first_some (refusals_of_values self.now.lists edit.now) ≡ None }
        requires made { with_change_made self.now.lists change ≡ with_edit_made self.now.lists edit.now }
        requires ready { IsReady self.now change }
        requires sums { may_raise_sums edit.now ≡ true → is_of_sums change ≡ true }
        ensures plan { IfOk result (λ plan. IsRowsPlan self.now edit.now plan) }
        ensures ready { IfOk result (λ plan. CanCommit self.now plan) }
        ensures fault { IfErr result (λ fault. IsRowsFault self.now.lists edit.now fault) }
        ensures memory { result ≡ Err EditFault.OutOfMemory → refused_by_rows self.now.lists edit.now ≡ None }
    {
        if let Some(fault) = self.refused_by_limits(edit, &change, &ticket) {
            return Err(EditFault::Rule(fault));
        }
        let room = self.tables.tickets.room_for(alloc, 1)?;
        Ok(TablesPlan::New {
            change,
            ticket,
            room,
        })
    }

    /// The first of the refusals 18 and 19, on the limits of tables and texts, that the edit meets.
    #[tactic(auto, unfolding(desk_history::specs::Refused::table_full, desk_history::specs::Refused::text_full))]
    fn refused_by_limits(
        &self,
        edit: &Edit,
        change: &RowChange,
        ticket: &TicketRow,
    ) -> Option<RuleFault>
        requires sound { Sound self.now.lists }
        requires ready { IsReady self.now change.now }
        requires new { ticket_row self.now.lists ticket.now.code ≡ None }
        requires leaves { with_change_entered self.now.lists change.now ticket.now ≡ with_edit_entered self.now.lists edit.now }
        ensures { result ≡ first_some (refusals_of_limits self.now.lists edit.now) }
    {
        if let Some(fault) = self.table_full(change, ticket) {
            return Some(fault);
        }
        self.text_full(change, ticket)
    }
}
