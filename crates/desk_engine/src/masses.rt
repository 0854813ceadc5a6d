ghost use Rattle.std.specs.Prelude.{◌≡◌, ◌+◌, ◌++◌, ◌<◌, ℕ, List, Ok, true, IfOk, OnOk, length};
ghost use Rattle.desk_text.specs.Code.{code_of};
ghost use Rattle.desk_graph.specs.Bill.{IsBillGraph};
ghost use Rattle.desk_graph.specs.Graph.{label_of};
ghost use Rattle.desk_graph.specs.Reaches.{has_node};
ghost use Rattle.desk_model.specs.Lists.{is_kept, is_product};
ghost use Rattle.desk_findings.specs.Mass.{mass};
ghost use Rattle.desk_history.specs.Sound.{Sound};
ghost use Rattle.desk_bridge.specs.Bridge.{IsNumbered};
ghost use Rattle.desk_bridge.specs.Index.{IsIndex};
ghost use Rattle.desk_engine.specs.Masses.{AreAllWeighed, AreMasses, AreWeights, IsWeighed, IsWeighedIfPlanned};
ghost use Rattle.desk_engine.specs.Stored.{IsStoredOf};

use crate::nodes::code_at;
use crate::stored::Stored;
use desk_bridge::NodeIndex;
use desk_graph::{Bill, NodeId, PlannedBill, Steps};
use desk_rollup::{RollPlan, Rollups};
use desk_rows::Table;
use desk_tables::Tables;
use desk_text::{Code, OutOfMemory};
use desk_tonnage::ProductMass;
use std::alloc::Global;
use std::sync::ledger::Ledger;

/// The new weights of those of the plan's nodes that are products, by their codes. `bill` is the bill after the plan. It looks at each
/// product or at each of the nodes, whichever are fewer.
pub(crate) fn masses_of<'a>(
    alloc: Global,
    tables: &Tables,
    stored: &Stored,
    bill: &PlannedBill<'a>,
    plan: &RollPlan,
) -> Result<Table<ProductMass>, OutOfMemory>
    requires sound { Sound tables.now.lists }
    requires stored { IsStoredOf tables.now.lists stored.now }
    requires grows { (more : List (List ℕ)) × (bill.now.labels ≡ stored.now.bill.labels ++ more) }
    requires inside { (node : ℕ) → has_node plan.now.nodes node ≡ true → node < length bill.now.labels }
    requires codes { (node : ℕ) → node < length bill.now.labels → code_of (label_of bill.now.labels node) ≡ Ok (label_of bill.now.labels node) }
    ensures weights { IfOk result (λ masses. AreWeights bill.now.labels plan.now masses.rows) }
    ensures all { IfOk result (λ masses. AreAllWeighed tables.now.lists bill.now.labels plan.now.nodes masses.rows) }
{
    if tables.products().len() < plan.nodes().len() {
        masses_by_product(alloc, tables, stored, bill, plan)
    } else {
        masses_by_node(alloc, tables, bill, plan)
    }
}

/// The same by the nodes.
fn masses_by_node<'a>(
    alloc: Global,
    tables: &Tables,
    bill: &PlannedBill<'a>,
    plan: &RollPlan,
) -> Result<Table<ProductMass>, OutOfMemory>
    requires inside { (node : ℕ) → has_node plan.now.nodes node ≡ true → node < length bill.now.labels }
    requires codes { (node : ℕ) → node < length bill.now.labels → code_of (label_of bill.now.labels node) ≡ Ok (label_of bill.now.labels node) }
    ensures weights { IfOk result (λ masses. AreWeights bill.now.labels plan.now masses.rows) }
    ensures all { IfOk result (λ masses. AreAllWeighed tables.now.lists bill.now.labels plan.now.nodes masses.rows) }
{
    let mut masses = Table::new(alloc);
    for node in plan.nodes() {
        weigh_node(&mut masses, tables, bill, plan, *node)?;
    }
    Ok(masses)
}

/// The same by the products.
fn masses_by_product<'a>(
    alloc: Global,
    tables: &Tables,
    stored: &Stored,
    bill: &PlannedBill<'a>,
    plan: &RollPlan,
) -> Result<Table<ProductMass>, OutOfMemory>
    requires sound { Sound tables.now.lists }
    requires stored { IsStoredOf tables.now.lists stored.now }
    requires grows { (more : List (List ℕ)) × (bill.now.labels ≡ stored.now.bill.labels ++ more) }
    requires inside { (node : ℕ) → has_node plan.now.nodes node ≡ true → node < length bill.now.labels }
    ensures weights { IfOk result (λ masses. AreWeights bill.now.labels plan.now masses.rows) }
    ensures all { IfOk result (λ masses. AreAllWeighed tables.now.lists bill.now.labels plan.now.nodes masses.rows) }
{
    // A bill tells what holds of every bill.
    bill.node_count();
    let products = tables.products();
    let mut masses = Table::new(alloc);
    for row in products {
        weigh_product(&mut masses, tables, stored, bill, plan, &row.part)?;
    }
    Ok(masses)
}

/// Puts in the new weight of a product, where its node is one of the plan's.
fn weigh_product<'a>(
    masses: &mut Table<ProductMass>,
    _tables: &Tables,
    stored: &Stored,
    _bill: &PlannedBill<'a>,
    plan: &RollPlan,
    product: &Code,
) -> Result<(), OutOfMemory>
    requires stored { IsStoredOf _tables.now.lists stored.now }
    requires grows { (more : List (List ℕ)) × (_bill.now.labels ≡ stored.now.bill.labels ++ more) }
    requires bill { IsBillGraph _bill.now }
    requires inside { (node : ℕ) → has_node plan.now.nodes node ≡ true → node < length _bill.now.labels }
    requires kept { is_kept _tables.now.lists product.now ≡ true }
    ensures weights { OnOk result (AreWeights _bill.now.labels plan.now masses.old.rows → AreWeights _bill.now.labels plan.now masses.new.rows) }
    ensures stays { OnOk result ((code : List ℕ) → IsWeighed masses.old.rows code → IsWeighed masses.new.rows code) }
    ensures here { OnOk result (IsWeighedIfPlanned _bill.now.labels plan.now.nodes masses.new.rows product.now) }
{
    let Some(node) = stored.index.node_of(product) else {
        unreachable!();
    };
    let Some(values) = plan.rolled(node) else {
        return Ok(());
    };
    masses.put(ProductMass {
        product: *product,
        mass: values.weight,
    })
}

/// Puts in the new weight of one of the plan's nodes, where it is a product.
fn weigh_node<'a>(
    masses: &mut Table<ProductMass>,
    tables: &Tables,
    bill: &PlannedBill<'a>,
    plan: &RollPlan,
    node: NodeId,
) -> Result<(), OutOfMemory>
    requires planned { has_node plan.now.nodes node ≡ true }
    requires there { node < length bill.now.labels }
    requires code { code_of (label_of bill.now.labels node) ≡ Ok (label_of bill.now.labels node) }
    ensures weights { OnOk result (AreWeights bill.now.labels plan.now masses.old.rows → AreWeights bill.now.labels plan.now masses.new.rows) }
    ensures stays { OnOk result ((product : List ℕ) → IsWeighed masses.old.rows product → IsWeighed masses.new.rows product) }
    ensures here { OnOk result (is_product tables.now.lists (label_of bill.now.labels node) ≡ true → IsWeighed masses.new.rows (label_of bill.now.labels node)) }
{
    let product = code_at(bill, node);
    if !tables.is_product(&product) {
        return Ok(());
    }
    let Some(values) = plan.rolled(node) else {
        unreachable!();
    };
    masses.put(ProductMass {
        product,
        mass: values.weight,
    })
}

/// What a material or part weighs. It takes one step.
pub(crate) fn mass_of<L: Ledger>(
    _tables: &Tables,
    bill: &Bill,
    index: &NodeIndex,
    rollups: &Rollups,
    code: &Code,
    steps: &mut Steps<L>,
) -> u128
    requires numbered { IsNumbered _tables.now.lists bill.now.labels }
    requires index { IsIndex bill.now.labels index.now.rows }
    requires masses { AreMasses _tables.now.lists bill.now rollups.now }
    requires kept { is_kept _tables.now.lists code.now ≡ true }
    ensures mass { result ≡ mass _tables.now.lists code.now }
    ensures steps { steps.new ≡ steps.old + 1 }
{
    let Some(node) = index.node_of(code) else {
        unreachable!();
    };
    rollups.peek(node, steps).weight
}
