ghost use Rattle.std.specs.Prelude.{◌≡◌, ◌++◌, ◌&&◌, ◌||◌, ℕ, List, IfOk, OnOk, length, nat_lt};
ghost use Rattle.std.specs.List.{list_any};
ghost use Rattle.desk_text.specs.Code.{same_code};
ghost use Rattle.desk_graph.specs.Graph.{label_of};
ghost use Rattle.desk_graph.specs.Reaches.{has_node};
ghost use Rattle.desk_bridge.specs.Index.{IsIndex};
ghost use Rattle.desk_bridge.specs.Seeds.{AreNodesOf};

use crate::node_index::NodeIndex;
use crate::pushing::push_if;
use desk_graph::{Bill, NodeId, PlannedBill};
use desk_text::{Code, OutOfMemory};
use std::alloc::Global;

/// The nodes that have one of these codes in a bill with nodes behind those of `before`.
///
/// It takes a binary search for each code, and a comparison of each code with each node that is new.
pub(crate) fn nodes_of<'a>(
    alloc: Global,
    before: &Bill,
    index: &NodeIndex,
    bill: &PlannedBill<'a>,
    codes: &[Code],
) -> Result<Vec<NodeId>, OutOfMemory>
    requires index { IsIndex before.now.labels index.now.rows }
    requires grows { (more : List (List ℕ)) × (bill.now.labels ≡ before.now.labels ++ more) }
    ensures { IfOk result (λ nodes. AreNodesOf bill.now.labels codes.now nodes.items) }
{
    let first_new = before.node_count();
    let count = bill.node_count();
    let mut nodes = known_nodes(alloc, before, index, codes)?;
    for id in first_new..count {
        let is_seed = is_label_among(bill.label(id as NodeId), codes);
        push_if(&mut nodes, is_seed, id as NodeId)?;
    }
    Ok(nodes)
}

/// Whether the label is one of these codes.
fn is_label_among(label: &[u8], codes: &[Code]) -> bool
    ensures { result ≡ list_any (same_code label.now) codes.now }
{
    codes
        .iter()
        .any(|other| label.cmp(other.as_bytes()).is_eq())
}

/// The nodes that have one of these codes.
fn known_nodes(
    alloc: Global,
    bill: &Bill,
    index: &NodeIndex,
    codes: &[Code],
) -> Result<Vec<NodeId>, OutOfMemory>
    requires { IsIndex bill.now.labels index.now.rows }
    ensures { IfOk result (λ nodes. AreNodesOf bill.now.labels codes.now nodes.items) }
{
    let mut nodes = Vec::new(alloc);
    for code in codes {
        push_known(&mut nodes, bill, index, code)?;
    }
    Ok(nodes)
}

/// Appends the node of the code, if one has it.
fn push_known(
    nodes: &mut Vec<NodeId>,
    bill: &Bill,
    index: &NodeIndex,
    code: &Code,
) -> Result<(), OutOfMemory>
    requires { IsIndex bill.now.labels index.now.rows }
    ensures { OnOk result ((node : ℕ) → has_node nodes.new.items node ≡ (has_node nodes.old.items node || (nat_lt node (length bill.now.labels) && same_code (label_of bill.now.labels node) code.now))) }
{
    // A bill tells that its labels differ.
    bill.node_count();
    match index.node_of(code) {
        Some(node) => {
            nodes.push(node)?;
            Ok(())
        }
        None => Ok(()),
    }
}
