ghost use Rattle.std.specs.Prelude.{◌≡◌, ◌≤◌, ◌<◌, ◌++◌, ℕ, List, true, not, Ok, IfOk, filter, length};
ghost use Rattle.desk_text.specs.Code.{code_of};
ghost use Rattle.desk_graph.specs.Bill.{IsBillGraph};
ghost use Rattle.desk_graph.specs.Graph.{label_of};
ghost use Rattle.desk_graph.specs.Reaches.{AreAffected, has_node};
ghost use Rattle.desk_bridge.specs.Bridge.{IsBillOf};
ghost use Rattle.desk_bridge.specs.Index.{IsIndex};
ghost use Rattle.desk_bridge.specs.Numbers.{AreNames};
ghost use Rattle.desk_bridge.specs.OwnAfter.{AreOwnAfter, AreOwnAt, changes_lines, stays_assembly};
ghost use Rattle.desk_model.specs.Effect.{with_edit_entered, with_edit_made};
ghost use Rattle.desk_history.specs.History.{PassesRows};
ghost use Rattle.desk_history.specs.Sound.{IsConsistent, Sound};
ghost use Rattle.desk_tables.specs.Change.{with_change_made};

use crate::judging::code_at;
use crate::new_edit::NewEdit;
use crate::node_index::NodeIndex;
use crate::own::own_of;
use crate::pushing::push_if;
use crate::seed_nodes::nodes_of;
use crate::seeds::seed_codes;
use crate::tables_after::TablesAfter;
use desk_graph::{Bill, BillView, NodeId, PlannedBill};
use desk_model::Edit;
use desk_rollup::Own;
use desk_tables::Tables;
use desk_text::{Code, OutOfMemory};
use std::alloc::Global;

/// The own values that the new edit may change, by the tables after it. `bill` is the bill after it, and `before` with its `index` the bill as
/// it stands.
///
/// Of the nodes that the edit affects these are all but the assemblies whose lines stay: those have nothing of their own, and what is kept
/// of them can be rolled up anew from what changes below.
pub fn owns_after<'a, 'b>(
    alloc: Global,
    new: &NewEdit<'a>,
    before: &Bill,
    index: &NodeIndex,
    bill: &PlannedBill<'b>,
    names: &[Code],
) -> Result<Vec<Own>, OutOfMemory>
    requires sound { Sound new.now.tables.now.lists }
    requires passes { PassesRows new.now.tables.now.lists new.now.edit.now }
    requires made { with_change_made new.now.tables.now.lists new.now.change.now ≡ with_edit_made new.now.tables.now.lists new.now.edit.now }
    requires index { IsIndex before.now.labels index.now.rows }
    requires grows { (more : List (List ℕ)) × (bill.now.labels ≡ before.now.labels ++ more) }
    requires of { IsBillOf (with_edit_entered new.now.tables.now.lists new.now.edit.now) bill.now }
    requires named { AreNames (with_edit_entered new.now.tables.now.lists new.now.edit.now) names.now }
    ensures { IfOk result (λ owns. AreOwnAfter new.now.tables.now.lists new.now.edit.now bill.now names.now owns.items) }
{
    // A bill tells what holds of every bill.
    bill.node_count();
    let NewEdit {
        tables,
        edit,
        change,
    } = *new;
    let codes = seed_codes(alloc, tables, edit)?;
    let seeds = nodes_of(alloc, before, index, bill, codes.as_slice())?;
    let nodes = affected(alloc, bill, seeds.as_slice())?;
    let renewed = renewed_among(alloc, tables, bill, edit, nodes.as_slice())?;
    let lists = TablesAfter::new(tables, change);
    owns_at(alloc, &lists, bill, names, renewed.as_slice())
}

/// The own values of these nodes of the tables' bill.
pub fn owns_of_all(
    alloc: Global,
    tables: &Tables,
    bill: &Bill,
    names: &[Code],
    nodes: &[NodeId],
) -> Result<Vec<Own>, OutOfMemory>
    requires sound { Sound tables.now.lists }
    requires of { IsBillOf tables.now.lists bill.now }
    requires named { AreNames tables.now.lists names.now }
    requires inside { (node : ℕ) → has_node nodes.now node ≡ true → node < length bill.now.labels }
    ensures { IfOk result (λ owns. AreOwnAt tables.now.lists bill.now.labels names.now nodes.now owns.items) }
{
    // A bill tells what holds of every bill.
    bill.node_count();
    let lists = TablesAfter::unchanged(tables);
    owns_at(alloc, &lists, bill, names, nodes)
}

/// The nodes that are or reach one of these.
fn affected<'a>(
    alloc: Global,
    bill: &PlannedBill<'a>,
    seeds: &[NodeId],
) -> Result<Vec<NodeId>, OutOfMemory>
    requires { (node : ℕ) → has_node seeds.now node ≡ true → node < length bill.now.labels }
    ensures { IfOk result (λ nodes. AreAffected bill.now.lines seeds.now nodes.items) }
{
    match bill.affected(alloc, seeds) {
        Ok(nodes) => Ok(nodes),
        Err(_) => Err(OutOfMemory),
    }
}

/// Those of these nodes that get new own values. It takes a binary search for each node.
fn renewed_among<'a>(
    alloc: Global,
    tables: &Tables,
    bill: &PlannedBill<'a>,
    edit: &Edit,
    nodes: &[NodeId],
) -> Result<Vec<NodeId>, OutOfMemory>
    requires codes { (node : ℕ) → node < length bill.now.labels → code_of (label_of bill.now.labels node) ≡ Ok (label_of bill.now.labels node) }
    requires inside { (node : ℕ) → has_node nodes.now node ≡ true → node < length bill.now.labels }
    ensures { IfOk result (λ renewed. renewed.items ≡ filter (λ node. not (stays_assembly tables.now.lists edit.now (label_of bill.now.labels node))) nodes.now) }
{
    let mut renewed = Vec::new(alloc);
    for node in nodes {
        let is_renewed = !stays_assembly(tables, edit, &code_at(bill, *node));
        push_if(&mut renewed, is_renewed, *node)?;
    }
    Ok(renewed)
}

/// Whether the code is that of an assembly whose lines the edit leaves.
fn stays_assembly(tables: &Tables, edit: &Edit, code: &Code) -> bool
    ensures { result ≡ stays_assembly tables.now.lists edit.now code.now }
{
    tables.is_assembly(code) && !changes_lines(edit, code)
}

/// Whether the edit enters or takes out a line of the part.
fn changes_lines(edit: &Edit, part: &Code) -> bool
    ensures { result ≡ changes_lines edit.now part.now }
{
    match edit {
        Edit::Line { parent, .. } => parent.cmp(part).is_eq(),
        Edit::Unline { parent, .. } => parent.cmp(part).is_eq(),
        _ => false,
    }
}

/// The own values of these nodes by these tables.
fn owns_at<'a, B: BillView>(
    alloc: Global,
    lists: &TablesAfter<'a>,
    bill: &B,
    names: &[Code],
    nodes: &[NodeId],
) -> Result<Vec<Own>, OutOfMemory>
    requires consistent { IsConsistent lists.now }
    requires few { length lists.now.lines ≤ 131072 }
    requires named { AreNames lists.now names.now }
    requires bill { IsBillGraph (B.graph bill.now) }
    requires codes { (node : ℕ) → node < length (B.graph bill.now).labels → code_of (label_of (B.graph bill.now).labels node) ≡ Ok (label_of (B.graph bill.now).labels node) }
    requires inside { (node : ℕ) → has_node nodes.now node ≡ true → node < length (B.graph bill.now).labels }
    ensures { IfOk result (λ owns. AreOwnAt lists.now (B.graph bill.now).labels names.now nodes.now owns.items) }
{
    let mut owns = Vec::new(alloc);
    for node in nodes {
        let code = code_at(bill, *node);
        owns.push(own_of(alloc, lists, names, &code, *node)?)?;
    }
    Ok(owns)
}
