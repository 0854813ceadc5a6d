ghost use Rattle.std.specs.Prelude.{◌≡◌, ◌+◌, ◌≤◌, ℕ, List, IfOk, IfErr, Some, None, length, unwrap_or, if◌then◌else◌};
ghost use Rattle.desk_graph.specs.Planned.{IsBillPlan, graph_after};
ghost use Rattle.desk_model.specs.Effect.{with_edit_entered, with_edit_made};
ghost use Rattle.desk_history.specs.Affected.{affected};
ghost use Rattle.desk_history.specs.Rising.{changes_shipments};
ghost use Rattle.desk_history.specs.History.{PassesRows};
ghost use Rattle.desk_history.specs.Refused.{refused_by_bill, refused_by_rows};
ghost use Rattle.desk_history.specs.Sound.{Sound};
ghost use Rattle.desk_history.specs.Step.{kept_number};
ghost use Rattle.desk_tables.specs.Change.{with_change_made};
ghost use Rattle.desk_tables.specs.Judged.{IsRefusal};
ghost use Rattle.desk_bridge.specs.Bridge.{IsBillOf};
ghost use Rattle.desk_bridge.specs.Years.{entries_of};
ghost use Rattle.desk_engine.specs.Names.{GrowTo};
ghost use Rattle.desk_engine.specs.Planned.{IsRolledFor, LeavesStored, ReplacesAffected, most_steps};
ghost use Rattle.desk_engine.specs.Stored.{IsStoredOf};
ghost use Rattle.desk_engine.specs.Years.{LeavesEntries};

use crate::names::{chosen, names_after};
use crate::nodes::{code_at, new_nodes};
use crate::shipping::plan_years;
use crate::stored::Stored;
use crate::stored_plan::StoredPlan;
use crate::years::{YearsFault, YearsPlan};
use desk_bridge::{NewEdit, owns_after, plan_bill};
use desk_graph::{BillPlan, PlannedBill, Steps};
use desk_model::{Codes, RuleFault};
use desk_rollup::{RollFault, RollPlan};
use desk_tables::EditFault;
use desk_text::Code;
use std::alloc::Global;
use std::sync::ledger::Ledger;

/// What a new edit does to what is stored of the tables, where it meets none of the refusals 1 to 19.
///
/// `Rule`: the first of the refusals 20 to 23 that it meets. `OutOfMemory`: none was left for the plan.
#[tactic(auto, unfolding(desk_tables::specs::Judged::IsRefusal))]
pub(crate) fn plan_stored<'a, L: Ledger>(
    alloc: Global,
    new: &NewEdit<'a>,
    stored: &Stored,
    steps: &mut Steps<L>,
) -> Result<StoredPlan, EditFault>
    requires sound { Sound new.now.tables.now.lists }
    requires stored { IsStoredOf new.now.tables.now.lists stored.now }
    requires new { kept_number new.now.tables.now.lists new.now.edit.now ≡ None }
    requires rows { refused_by_rows new.now.tables.now.lists new.now.edit.now ≡ None }
    requires made { with_change_made new.now.tables.now.lists new.now.change.now ≡ with_edit_made new.now.tables.now.lists new.now.edit.now }
    ensures plan { IfOk result (λ plan. LeavesStored stored.now (with_edit_entered new.now.tables.now.lists new.now.edit.now) plan) }
    ensures replaced { IfOk result (λ plan. ReplacesAffected stored.now new.now.tables.now.lists new.now.edit.now (Some plan)) }
    ensures unrefused { IfOk result (λ plan. refused_by_bill new.now.tables.now.lists new.now.edit.now ≡ None) }
    ensures fault { IfErr result (λ fault. IsRefusal new.now.tables.now.lists new.now.edit.now fault) }
    ensures steps { steps.new ≤ steps.old + most_steps new.now.tables.now.lists new.now.edit.now }
{
    let bill = plan_bill(alloc, new.tables, &stored.bill, &stored.index, new.edit)?;
    let names = names_after(alloc, stored.names.as_slice(), new.edit)?;
    plan_values(alloc, new, stored, bill, names, steps)
}

/// The same for an edit that passes the refusals 1 to 20, with what it does to the bill and to the names of substances.
#[tactic(auto, unfolding(desk_tables::specs::Judged::IsRefusal))]
fn plan_values<'a, L: Ledger>(
    alloc: Global,
    new: &NewEdit<'a>,
    stored: &Stored,
    bill: BillPlan,
    names: Option<Codes>,
    steps: &mut Steps<L>,
) -> Result<StoredPlan, EditFault>
    requires sound { Sound new.now.tables.now.lists }
    requires stored { IsStoredOf new.now.tables.now.lists stored.now }
    requires passes { PassesRows new.now.tables.now.lists new.now.edit.now }
    requires made { with_change_made new.now.tables.now.lists new.now.change.now ≡ with_edit_made new.now.tables.now.lists new.now.edit.now }
    requires plan { IsBillPlan stored.now.bill bill }
    requires of { IsBillOf (with_edit_entered new.now.tables.now.lists new.now.edit.now) (graph_after bill stored.now.bill) }
    requires names { GrowTo new.now.tables.now.lists (with_edit_entered new.now.tables.now.lists new.now.edit.now) stored.now.names (unwrap_or names stored.now.names) }
    ensures plan { IfOk result (λ plan. LeavesStored stored.now (with_edit_entered new.now.tables.now.lists new.now.edit.now) plan) }
    ensures replaced { IfOk result (λ plan. ReplacesAffected stored.now new.now.tables.now.lists new.now.edit.now (Some plan)) }
    ensures unrefused { IfOk result (λ plan. refused_by_bill new.now.tables.now.lists new.now.edit.now ≡ None) }
    ensures fault { IfErr result (λ fault. IsRefusal new.now.tables.now.lists new.now.edit.now fault) }
    ensures steps { steps.new ≤ steps.old + most_steps new.now.tables.now.lists new.now.edit.now }
{
    let nodes = new_nodes(alloc, &stored.bill, &bill)?;
    let room = stored.index.room_for(alloc, nodes.as_slice().len())?;
    let all = chosen(&names, stored.names.as_slice());
    let rollups = plan_rollups(alloc, new, stored, &bill, all, steps)?;
    let years = judge_years(alloc, new, stored, &bill, &rollups, steps)?;
    Ok(StoredPlan {
        bill,
        nodes,
        room,
        rollups,
        names,
        years,
    })
}

/// What an edit that passes the refusals 1 to 20 does to the roll-ups. `names` are those after it.
///
/// `Rule`: the first of the refusals 21 and 22 that it meets. `OutOfMemory`: none was left for the plan.
#[tactic(auto, unfolding(desk_tables::specs::Judged::IsRefusal))]
fn plan_rollups<'a, L: Ledger>(
    alloc: Global,
    new: &NewEdit<'a>,
    stored: &Stored,
    plan: &BillPlan,
    names: &[Code],
    steps: &mut Steps<L>,
) -> Result<RollPlan, EditFault>
    requires sound { Sound new.now.tables.now.lists }
    requires stored { IsStoredOf new.now.tables.now.lists stored.now }
    requires passes { PassesRows new.now.tables.now.lists new.now.edit.now }
    requires made { with_change_made new.now.tables.now.lists new.now.change.now ≡ with_edit_made new.now.tables.now.lists new.now.edit.now }
    requires plan { IsBillPlan stored.now.bill plan.now }
    requires of { IsBillOf (with_edit_entered new.now.tables.now.lists new.now.edit.now) (graph_after plan.now stored.now.bill) }
    requires names { GrowTo new.now.tables.now.lists (with_edit_entered new.now.tables.now.lists new.now.edit.now) stored.now.names names.now }
    ensures rolled { IfOk result (λ rollups. IsRolledFor new.now.tables.now.lists new.now.edit.now (graph_after plan.now stored.now.bill) names.now stored.now.rollups rollups) }
    ensures fault { IfErr result (λ fault. IsRefusal new.now.tables.now.lists new.now.edit.now fault) }
    ensures steps { steps.new ≤ steps.old + length (affected new.now.tables.now.lists new.now.edit.now) }
{
    // A bill tells what holds of every bill.
    stored.bill.node_count();
    let after = PlannedBill::new(&stored.bill, plan);
    after.node_count();
    let index = &stored.index;
    let owns = owns_after(alloc, new, &stored.bill, index, &after, names)?;
    match stored
        .rollups
        .prepare(alloc, &after, owns.as_slice(), steps)
    {
        Ok(rollups) => Ok(rollups),
        Err(RollFault::WeightTooLarge { node }) => {
            let part = code_at(&after, node);
            Err(EditFault::Rule(RuleFault::TotalTooLarge { part }))
        }
        Err(RollFault::MarksFull) => Err(EditFault::Rule(RuleFault::FindingsFull)),
        Err(RollFault::OutOfMemory) => Err(EditFault::OutOfMemory),
    }
}

/// What an edit that passes the refusals 1 to 22 does to the years.
///
/// `Rule`: refusal 23, which it meets. `OutOfMemory`: none was left for the plan.
#[tactic(auto, unfolding(desk_tables::specs::Judged::IsRefusal))]
fn judge_years<'a, L: Ledger>(
    alloc: Global,
    new: &NewEdit<'a>,
    stored: &Stored,
    plan: &BillPlan,
    rollups: &RollPlan,
    steps: &mut Steps<L>,
) -> Result<YearsPlan, EditFault>
    requires sound { Sound new.now.tables.now.lists }
    requires stored { IsStoredOf new.now.tables.now.lists stored.now }
    requires passes { PassesRows new.now.tables.now.lists new.now.edit.now }
    requires plan { IsBillPlan stored.now.bill plan.now }
    requires rolled { (names : List (List ℕ)) × IsRolledFor new.now.tables.now.lists new.now.edit.now (graph_after plan.now stored.now.bill) names stored.now.rollups rollups.now }
    ensures years { IfOk result (λ years. LeavesEntries stored.now.years (entries_of (with_edit_entered new.now.tables.now.lists new.now.edit.now)) years) }
    ensures unrefused { IfOk result (λ years. refused_by_bill new.now.tables.now.lists new.now.edit.now ≡ None) }
    ensures fault { IfErr result (λ fault. IsRefusal new.now.tables.now.lists new.now.edit.now fault) }
    ensures steps { steps.new ≤ steps.old + (if changes_shipments new.now.edit.now then 1 else 0) }
{
    match plan_years(alloc, new, stored, plan, rollups, steps) {
        Ok(years) => Ok(years),
        Err(YearsFault::TooLarge { year }) => Err(EditFault::Rule(RuleFault::YearTooLarge {
            year,
        })),
        Err(YearsFault::OutOfMemory) => Err(EditFault::OutOfMemory),
    }
}
