ghost use Rattle.std.specs.Prelude.{◌≡◌, ◌≢◌, ◌≤◌, ◌<◌, true, false, Some, None, Ok, Err, IfOk, IfErr, OnOk, OnErr, length, map};
ghost use Rattle.desk_graph.specs.Edits.{is_taken, with_line_in, with_node};
ghost use Rattle.desk_graph.specs.Graph.{line_count};
ghost use Rattle.desk_graph.specs.Reaches.{chain_of_nodes, is_node_or_reaches};
ghost use Rattle.desk_graph.specs.Planned.{IsBillPlan, graph_after};
ghost use Rattle.desk_bridge.specs.Bridge.{bill_after, node_of, with_code, with_codes};
ghost use Rattle.desk_bridge.specs.Index.{IsIndex};
ghost use Rattle.desk_bridge.specs.Planning.{CanTake, chain_told, cycle_by};

use crate::node_index::NodeIndex;
use desk_graph::{Bill, BillPlan, LineFault, NodeId, OutOfMemory, Path};
use desk_model::{Edit, MaterialDecl};
use desk_text::Code;
use std::alloc::Global;

/// Why the bill takes no edit.
#[derive(Debug, Drop)]
pub enum BillFault {
    /// The edit would close a cycle.
    Closes {
        /// The chain from the child to the parent.
        chain: Path,
    },
    /// There is no memory.
    OutOfMemory,
}

impl From<OutOfMemory> for BillFault {
    ghost use Rattle.std.specs.Prelude.{◌≡◌};
    ghost use Rattle.desk_bridge.specs.declared.planning.BillFault.TheVariants.{OutOfMemory};

    ghost from_gives = { λ _ e. e ≡ OutOfMemory };

    fn from(_error: OutOfMemory) -> BillFault {
        BillFault::OutOfMemory
    }
}

/// The node of a code that is there. It takes a binary search.
pub(crate) fn node_of(_bill: &Bill, index: &NodeIndex, code: &Code) -> NodeId
    requires index { IsIndex _bill.now.labels index.now.rows }
    requires there { is_taken _bill.now.labels code.now ≡ true }
    ensures node { result ≡ node_of _bill.now.labels code.now }
    ensures there { result < length _bill.now.labels }
{
    let Some(node) = index.node_of(code) else {
        unreachable!();
    };
    node
}

/// Makes ready a node of the code, where there is none. It takes a binary search, and a look at the nodes that the plan adds already.
fn plan_code(
    bill: &Bill,
    index: &NodeIndex,
    plan: &mut BillPlan,
    code: &Code,
) -> Result<(), OutOfMemory>
    requires index { IsIndex bill.now.labels index.now.rows }
    requires plan { IsBillPlan bill.now plan.old }
    requires room { length (with_code code.now (graph_after plan.old bill.now)).labels ≤ 24576 }
    ensures bill { OnOk result (graph_after plan.new bill.now ≡ with_code code.now (graph_after plan.old bill.now)) }
    ensures plan { OnOk result (IsBillPlan bill.now plan.new) }
    ensures err { OnErr result (plan.new ≡ plan.old) }
{
    if index.node_of(code).is_some() | plan.adds(code.as_bytes()) {
        return Ok(());
    }
    plan_free_code(bill, plan, code)
}

/// Makes ready a node of a code that is free.
fn plan_free_code(bill: &Bill, plan: &mut BillPlan, code: &Code) -> Result<(), OutOfMemory>
    requires plan { IsBillPlan bill.now plan.old }
    requires free { is_taken (graph_after plan.old bill.now).labels code.now ≡ false }
    requires room { length (graph_after plan.old bill.now).labels < 24576 }
    ensures bill { OnOk result (graph_after plan.new bill.now ≡ with_node code.now (graph_after plan.old bill.now)) }
    ensures plan { OnOk result (IsBillPlan bill.now plan.new) }
    ensures err { OnErr result (plan.new ≡ plan.old) }
{
    match bill.plan_new_node(plan, code.as_bytes()) {
        Ok(_) => Ok(()),
        Err(OutOfMemory) => Err(OutOfMemory),
    }
}

/// Makes ready a node of each material's code.
fn plan_materials(
    alloc: Global,
    bill: &Bill,
    index: &NodeIndex,
    materials: &[MaterialDecl],
) -> Result<BillPlan, OutOfMemory>
    requires index { IsIndex bill.now.labels index.now.rows }
    requires fits { length (with_codes (map (λ material. material.code) materials.now) bill.now).labels ≤ 24576 }
    ensures bill { IfOk result (λ plan. graph_after plan bill.now ≡ with_codes (map (λ material. material.code) materials.now) bill.now) }
    ensures plan { IfOk result (λ plan. IsBillPlan bill.now plan) }
{
    let mut plan = bill.plan_nothing(alloc);
    for material in materials {
        plan_code(bill, index, &mut plan, &material.code)?;
    }
    Ok(plan)
}

/// Makes ready a node of a part's code, where there is none.
fn plan_part(
    alloc: Global,
    bill: &Bill,
    index: &NodeIndex,
    code: &Code,
) -> Result<BillPlan, OutOfMemory>
    requires index { IsIndex bill.now.labels index.now.rows }
    requires fits { length (with_code code.now bill.now).labels ≤ 24576 }
    ensures bill { IfOk result (λ plan. graph_after plan bill.now ≡ with_code code.now bill.now) }
    ensures plan { IfOk result (λ plan. IsBillPlan bill.now plan) }
{
    let mut plan = bill.plan_nothing(alloc);
    plan_code(bill, index, &mut plan, code)?;
    Ok(plan)
}

/// Makes ready to enter a line, or to replace its count.
fn plan_line(
    alloc: Global,
    bill: &Bill,
    parent: NodeId,
    child: NodeId,
    count: u32,
) -> Result<BillPlan, BillFault>
    requires parent { parent < length bill.now.labels }
    requires child { child < length bill.now.labels }
    requires count { 1 ≤ count }
    requires room { is_node_or_reaches bill.now.lines child parent ≡ false → line_count (with_line_in parent child count bill.now).lines ≤ 131072 }
    ensures bill { IfOk result (λ plan. graph_after plan bill.now ≡ with_line_in parent child count bill.now) }
    ensures plan { IfOk result (λ plan. IsBillPlan bill.now plan) }
    ensures opens { IfOk result (λ plan. is_node_or_reaches bill.now.lines child parent ≡ false) }
    ensures closes { IfErr result (λ fault. fault ≢ BillFault.OutOfMemory → is_node_or_reaches bill.now.lines child parent ≡ true) }
    ensures chain { IfErr result (λ fault. fault ≢ BillFault.OutOfMemory → fault ≡ BillFault.Closes (chain_of_nodes bill.now.lines child parent)) }
{
    match bill.plan_set(alloc, parent, child, count) {
        Ok(plan) => Ok(plan),
        Err(LineFault::Closes { chain }) => Err(BillFault::Closes { chain }),
        Err(LineFault::Full) => unreachable!(),
        Err(LineFault::OutOfMemory) => Err(BillFault::OutOfMemory),
    }
}

/// Makes ready what an edit does to the bill.
#[tactic(auto, unfolding(crate::specs::Bridge::bill_after, crate::specs::Planning::cycle_by, crate::specs::Planning::has_ends, crate::specs::Planning::HasRoom))]
pub fn plan_edit(
    alloc: Global,
    bill: &Bill,
    index: &NodeIndex,
    edit: &Edit,
) -> Result<BillPlan, BillFault>
    requires index { IsIndex bill.now.labels index.now.rows }
    requires can { CanTake bill.now edit.now }
    ensures bill { IfOk result (λ plan. graph_after plan bill.now ≡ bill_after bill.now edit.now) }
    ensures plan { IfOk result (λ plan. IsBillPlan bill.now plan) }
    ensures opens { IfOk result (λ plan. cycle_by bill.now edit.now ≡ None) }
    ensures closes { IfErr result (λ fault. fault ≢ BillFault.OutOfMemory → cycle_by bill.now edit.now ≡ chain_told fault) }
{
    match edit {
        Edit::Declare { declaration } => Ok(plan_materials(
            alloc,
            bill,
            index,
            declaration.materials(),
        )?),
        Edit::Part { code, .. } => Ok(plan_part(alloc, bill, index, code)?),
        Edit::Line {
            parent,
            child,
            count,
            ..
        } => plan_line(
            alloc,
            bill,
            node_of(bill, index, parent),
            node_of(bill, index, child),
            count.get() as u32,
        ),
        Edit::Unline { parent, child, .. } => {
            Ok(bill.plan_drop(
                alloc,
                node_of(bill, index, parent),
                node_of(bill, index, child),
            )?)
        }
        _ => Ok(bill.plan_nothing(alloc)),
    }
}
