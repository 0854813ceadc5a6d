ghost use Rattle.std.specs.Prelude.{◌≡◌, ◌≢◌, ℕ, Err, IsErrOf, OnErr, OnOk, true};
ghost use Rattle.desk_clerk.specs.Faults.{edit_as_submit};
ghost use Rattle.desk_edge.specs.Content.{IsSame};
ghost use Rattle.desk_edge.specs.Faults.{CountsFaults};
ghost use Rattle.desk_history.specs.Sound.{Sound};
ghost use Rattle.desk_history.specs.Step.{step};
ghost use Rattle.desk_model.specs.Forms.{is_edit_in_form};
ghost use Rattle.desk_model.specs.declared.edit.Edit.{Edit};
ghost use Rattle.desk_model.specs.declared.rule_fault.RuleFault.{RuleFault};
ghost use Rattle.desk_records.specs.Records.{tables_content};
ghost use Rattle.desk_tables.specs.Desk.{Desk};
ghost use Rattle.desk_tables.specs.Plan.{IsPlan};

use crate::submit_fault::SubmitFault;
use desk_edge::Keeper;
use desk_records::changes;
use desk_tables::{EditFault, TablesPlan};
use std::alloc::Global;

/// Keeps what the plan changes in the store, in one commit. Where it changes nothing the store isn't asked.
pub(crate) fn keep<K: Keeper>(
    alloc: Global,
    keeper: &mut K,
    plan: &TablesPlan,
) -> Result<(), SubmitFault>
    // A store of the tables is then one of the tables after the edit.
    ensures ok { OnOk result ((desk : Desk) (edit : Edit) → Sound desk.lists → is_edit_in_form edit ≡ true → IsPlan desk edit plan.now
        → K.Tells keeper.new → IsSame (tables_content desk.lists) (K.content keeper.old)
        → IsSame (tables_content (step desk.lists edit).1) (K.content keeper.new)) }
    ensures err { OnErr result (K.Tells keeper.new → IsSame (K.content keeper.old) (K.content keeper.new)) }
    ensures again { (n : ℕ) → plan.now ≡ TablesPlan.Kept n → keeper.new ≡ keeper.old }
    ensures asked { (n : ℕ) → plan.now ≡ TablesPlan.Kept n → result ≢ Err SubmitFault.KeeperFault }
    ensures memory { (n : ℕ) → plan.now ≡ TablesPlan.Kept n → result ≢ Err SubmitFault.OutOfMemory }
    ensures no_rule { (fault : RuleFault) (n : ℕ) → result ≢ Err (SubmitFault.Rule fault n) }
    ensures told { K.Tells keeper.new → K.Tells keeper.old }
    ensures faults { CountsFaults (IsErrOf result SubmitFault.KeeperFault) (K.faults keeper.old) (K.faults keeper.new) }
    ensures sure { K.NeverFails → result ≢ Err SubmitFault.KeeperFault }
{
    let changes = changes(alloc, plan)?;
    if changes.is_empty() {
        return Ok(());
    }
    keeper.commit(alloc, changes.as_slice())?;
    Ok(())
}

/// The refusal of an edit that isn't planned, at tables of this number.
pub(crate) fn refusal(fault: EditFault, whole: u64) -> SubmitFault
    ensures { result ≡ edit_as_submit fault whole }
{
    match fault {
        EditFault::Rule(fault) => SubmitFault::Rule { fault, whole },
        EditFault::OutOfMemory => SubmitFault::OutOfMemory,
    }
}
