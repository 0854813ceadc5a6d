ghost use Rattle.std.specs.Prelude.{◌≡◌, ◌<◌, ℕ, Ok, IfOk, length};
ghost use Rattle.desk_text.specs.Code.{code_of};
ghost use Rattle.desk_graph.specs.Graph.{label_of};
ghost use Rattle.desk_graph.specs.Planned.{IsBillPlan, graph_after};
ghost use Rattle.desk_engine.specs.Planned.{node_rows_from};

use desk_bridge::NodeRow;
use desk_graph::{Bill, BillPlan, NodeId, PlannedBill};
use desk_model::ListOf;
use desk_text::{Code, OutOfMemory};
use std::alloc::Global;

/// The nodes that the plan adds to the bill, with their codes.
pub(crate) fn new_nodes(
    alloc: Global,
    bill: &Bill,
    plan: &BillPlan,
) -> Result<ListOf<NodeRow>, OutOfMemory>
    requires plan { IsBillPlan bill.now plan.now }
    requires codes { (node : ℕ) → node < length (graph_after plan.now bill.now).labels → code_of (label_of (graph_after plan.now bill.now).labels node) ≡ Ok (label_of (graph_after plan.now bill.now).labels node) }
    ensures { IfOk result (λ nodes. nodes ≡ node_rows_from (length bill.now.labels) plan.now.labels) }
{
    let after = PlannedBill::new(bill, plan);
    let mut nodes = Vec::new(alloc);
    for id in bill.node_count()..after.node_count() {
        let node = id as NodeId;
        let code = code_at(&after, node);
        nodes.push(NodeRow { code, node })?;
    }
    Ok(ListOf::new(nodes))
}

/// The code of a node.
pub(crate) fn code_at<'a>(bill: &PlannedBill<'a>, node: NodeId) -> Code
    requires there { node < length bill.now.labels }
    requires code { code_of (label_of bill.now.labels node) ≡ Ok (label_of bill.now.labels node) }
    ensures { result ≡ label_of bill.now.labels node }
{
    match Code::read(bill.label(node)) {
        Ok(code) => code,
        Err(_) => unreachable!(),
    }
}
