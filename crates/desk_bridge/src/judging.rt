ghost use Rattle.std.specs.Prelude.{◌≡◌, ◌<◌, ℕ, true, None, Ok, IfOk, IfErr, length, map};
ghost use Rattle.desk_text.specs.Code.{code_of};
ghost use Rattle.desk_model.specs.Effect.{with_edit_entered};
ghost use Rattle.desk_history.specs.History.{PassesRows};
ghost use Rattle.desk_history.specs.Refused.{refused_by_rows};
ghost use Rattle.desk_history.specs.Sound.{Sound};
ghost use Rattle.desk_history.specs.Step.{kept_number};
ghost use Rattle.desk_tables.specs.Judged.{IsRefusal};
ghost use Rattle.desk_graph.specs.Graph.{label_of};
ghost use Rattle.desk_graph.specs.Planned.{IsBillPlan, graph_after};
ghost use Rattle.desk_graph.specs.Reaches.{has_node};
ghost use Rattle.desk_bridge.specs.Bridge.{IsBillOf};
ghost use Rattle.desk_bridge.specs.Index.{IsIndex};

use crate::node_index::NodeIndex;
use crate::planning::{BillFault, plan_edit};
use desk_graph::{Bill, BillPlan, BillView, NodeId};
use desk_model::{Codes, Edit, ListOf, RuleFault};
use desk_tables::{EditFault, Tables};
use desk_text::{Code, OutOfMemory};
use std::alloc::Global;

/// What an edit does to the bill that is new and meets none of the refusals 1 to 19.
#[tactic(auto, unfolding(desk_tables::specs::Judged::IsRefusal))]
pub fn plan_bill(
    alloc: Global,
    tables: &Tables,
    bill: &Bill,
    index: &NodeIndex,
    edit: &Edit,
) -> Result<BillPlan, EditFault>
    requires sound { Sound tables.now.lists }
    requires bill { IsBillOf tables.now.lists bill.now }
    requires index { IsIndex bill.now.labels index.now.rows }
    requires new { kept_number tables.now.lists edit.now ≡ None }
    requires rows { refused_by_rows tables.now.lists edit.now ≡ None }
    ensures plan { IfOk result (λ plan. IsBillPlan bill.now plan) }
    ensures passes { IfOk result (λ plan. PassesRows tables.now.lists edit.now) }
    ensures of { IfOk result (λ plan. IsBillOf (with_edit_entered tables.now.lists edit.now) (graph_after plan bill.now)) }
    ensures fault { IfErr result (λ fault. IsRefusal tables.now.lists edit.now fault) }
{
    // An edit tells that it is in form, and a bill what holds of every bill.
    edit.in_form();
    bill.node_count();
    match plan_edit(alloc, bill, index, edit) {
        Ok(plan) => Ok(plan),
        Err(BillFault::Closes { chain }) => {
            let chain = codes_of(alloc, bill, chain.as_slice())?;
            Err(EditFault::Rule(RuleFault::ClosesCycle { chain }))
        }
        Err(BillFault::OutOfMemory) => Err(EditFault::OutOfMemory),
    }
}

/// The codes of nodes.
fn codes_of(alloc: Global, bill: &Bill, nodes: &[NodeId]) -> Result<Codes, OutOfMemory>
    requires there { (node : ℕ) → has_node nodes.now node ≡ true → node < length bill.now.labels }
    requires codes { (node : ℕ) → node < length bill.now.labels → code_of (label_of bill.now.labels node) ≡ Ok (label_of bill.now.labels node) }
    ensures { IfOk result (λ codes. codes ≡ map (label_of bill.now.labels) nodes.now) }
{
    let mut codes = Vec::with_capacity(alloc, nodes.len())?;
    for node in nodes {
        codes.push_reserved(code_at(bill, *node));
    }
    Ok(ListOf::new(codes))
}

/// The code of a node.
pub(crate) fn code_at<B: BillView>(bill: &B, node: NodeId) -> Code
    requires there { node < length (B.graph bill.now).labels }
    requires code { code_of (label_of (B.graph bill.now).labels node) ≡ Ok (label_of (B.graph bill.now).labels node) }
    ensures { result ≡ label_of (B.graph bill.now).labels node }
{
    match Code::read(bill.label(node)) {
        Ok(code) => code,
        Err(_) => unreachable!(),
    }
}
