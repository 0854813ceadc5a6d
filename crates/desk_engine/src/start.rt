ghost use Rattle.std.specs.Prelude.{◌≡◌, ◌<◌, ℕ, [], IfOk, length, map, nat_lt};
ghost use Rattle.desk_graph.specs.Graph.{label_of};
ghost use Rattle.desk_graph.specs.Reaches.{has_node};
ghost use Rattle.desk_rollup.specs.Plan.{AreDistinct, AreRolledUp};
ghost use Rattle.desk_rollup.specs.Values.{own_at};
ghost use Rattle.desk_history.specs.Sound.{Sound};
ghost use Rattle.desk_bridge.specs.AfterEdit.{AreOwnOf};
ghost use Rattle.desk_bridge.specs.Bridge.{IsBillOf, IsNumbered};
ghost use Rattle.desk_bridge.specs.Index.{IsIndex};
ghost use Rattle.desk_bridge.specs.Numbers.{AreNames, finding_number};
ghost use Rattle.desk_bridge.specs.Years.{entries_of};
ghost use Rattle.desk_engine.specs.Masses.{AreMasses};
ghost use Rattle.desk_engine.specs.Names.{AreFewNames};
ghost use Rattle.desk_engine.specs.Stored.{IsStoredOf};

use crate::masses::mass_of;
use crate::stored::Stored;
use desk_bridge::{IndexedBill, NodeIndex, bill_of, owns_of_all};
use desk_graph::{Bill, NodeId, Steps};
use desk_model::{CandidateRow, Codes, ListOf};
use desk_rollup::{RollFault, Rollups};
use desk_tables::Tables;
use desk_text::{Code, OutOfMemory};
use desk_tonnage::{Entry, MassFault, Yearly};
use std::alloc::Global;
use std::marker::Brand;
use std::sync::ledger::{Blank, Ledger};

/// What is to be stored of sound tables.
pub(crate) fn stored_of(alloc: Global, tables: &Tables) -> Result<Stored, OutOfMemory>
    requires { Sound tables.now.lists }
    ensures { IfOk result (λ stored. IsStoredOf tables.now.lists stored) }
{
    stored_from::<Brand>(Blank::new(1), alloc, tables)
}

/// The same with steps of this ledger.
fn stored_from<L: Ledger>(
    blank: Blank,
    alloc: Global,
    tables: &Tables,
) -> Result<Stored, OutOfMemory>
    requires sound { Sound tables.now.lists }
    requires name { blank.name ≡ L.name }
    requires parts { blank.parts ≡ L.parts }
    requires some { 0 < L.parts }
    ensures { IfOk result (λ stored. IsStoredOf tables.now.lists stored) }
{
    let mut steps = Steps::<L>::start(blank);
    let IndexedBill { bill, index } = indexed_bill(alloc, tables)?;
    let names = candidate_names(alloc, tables)?;
    let rollups = rollups_of(alloc, tables, &bill, names.as_slice(), &mut steps)?;
    // A bill tells what holds of every bill.
    bill.node_count();
    let years = years_of(alloc, tables, &bill, &index, &rollups, &mut steps)?;
    Ok(Stored {
        bill,
        index,
        rollups,
        years,
        names,
    })
}

/// The bill of the tables, with its nodes by code.
fn indexed_bill(alloc: Global, tables: &Tables) -> Result<IndexedBill, OutOfMemory>
    requires { Sound tables.now.lists }
    ensures bill { IfOk result (λ indexed. IsBillOf tables.now.lists indexed.bill) }
    ensures index { IfOk result (λ indexed. IsIndex indexed.bill.labels indexed.index.rows) }
{
    match bill_of(alloc, tables) {
        Ok(indexed) => Ok(indexed),
        Err(_) => Err(OutOfMemory),
    }
}

/// The substances of the candidates, in their order.
fn candidate_names(alloc: Global, tables: &Tables) -> Result<Codes, OutOfMemory>
    requires { Sound tables.now.lists }
    ensures { IfOk result (λ names. AreFewNames tables.now.lists names) }
{
    let names = substances_of(alloc, tables.candidates())?;
    Ok(ListOf::new(names))
}

/// The substances of these candidates.
fn substances_of(alloc: Global, candidates: &[CandidateRow]) -> Result<Vec<Code>, OutOfMemory>
    ensures { IfOk result (λ names. names.items ≡ map (λ candidate. candidate.substance) candidates.now) }
{
    let mut names = Vec::with_capacity(alloc, candidates.len())?;
    for candidate in candidates {
        names.push_reserved(candidate.substance);
    }
    Ok(names)
}

/// The roll-ups of all nodes.
fn rollups_of<L: Ledger>(
    alloc: Global,
    tables: &Tables,
    bill: &Bill,
    names: &[Code],
    steps: &mut Steps<L>,
) -> Result<Rollups, OutOfMemory>
    requires sound { Sound tables.now.lists }
    requires of { IsBillOf tables.now.lists bill.now }
    requires named { AreNames tables.now.lists names.now }
    ensures owns { IfOk result (λ rollups. AreOwnOf tables.now.lists bill.now (finding_number bill.now.labels names.now) (label_of names.now) (own_at rollups.owns)) }
    ensures rolled { IfOk result (λ rollups. AreRolledUp bill.now rollups) }
{
    // A bill tells what holds of every bill.
    bill.node_count();
    let nodes = all_nodes(alloc, bill)?;
    let owns = owns_of_all(alloc, tables, bill, names, nodes.as_slice())?;
    let mut rollups = started(alloc)?;
    match rollups.prepare(alloc, bill, owns.as_slice(), steps) {
        Ok(plan) => {
            rollups.commit(plan);
            Ok(rollups)
        }
        Err(RollFault::OutOfMemory) => Err(OutOfMemory),
        Err(RollFault::WeightTooLarge { .. }) => unreachable!(),
        Err(RollFault::MarksFull) => unreachable!(),
    }
}

/// Roll-ups of no node.
fn started(alloc: Global) -> Result<Rollups, OutOfMemory>
    ensures { IfOk result (λ rollups. rollups ≡ record { owns = []; rolled = [] }) }
{
    match Rollups::start(alloc) {
        Ok(rollups) => Ok(rollups),
        Err(_) => Err(OutOfMemory),
    }
}

/// All nodes of the bill.
fn all_nodes(alloc: Global, bill: &Bill) -> Result<Vec<NodeId>, OutOfMemory>
    ensures has { IfOk result (λ nodes. (node : ℕ) → has_node nodes.items node ≡ nat_lt node (length bill.now.labels)) }
    ensures distinct { IfOk result (λ nodes. AreDistinct nodes.items) }
{
    let count = bill.node_count();
    let mut nodes = Vec::new(alloc);
    for id in 0..count {
        nodes.push(id as NodeId)?;
    }
    Ok(nodes)
}

/// The years of the shipments.
fn years_of<L: Ledger>(
    alloc: Global,
    tables: &Tables,
    bill: &Bill,
    index: &NodeIndex,
    rollups: &Rollups,
    steps: &mut Steps<L>,
) -> Result<Yearly, OutOfMemory>
    requires sound { Sound tables.now.lists }
    requires numbered { IsNumbered tables.now.lists bill.now.labels }
    requires index { IsIndex bill.now.labels index.now.rows }
    requires masses { AreMasses tables.now.lists bill.now rollups.now }
    ensures { IfOk result (λ years. years.entries ≡ entries_of tables.now.lists) }
{
    let entries = entries_of(alloc, tables, bill, index, rollups, steps)?;
    match Yearly::from_entries(entries) {
        Ok(years) => Ok(years),
        Err(MassFault::YearTooLarge { .. }) => unreachable!(),
    }
}

/// An entry for each shipment, with what one unit of its product weighs.
fn entries_of<L: Ledger>(
    alloc: Global,
    tables: &Tables,
    bill: &Bill,
    index: &NodeIndex,
    rollups: &Rollups,
    steps: &mut Steps<L>,
) -> Result<Vec<Entry>, OutOfMemory>
    requires sound { Sound tables.now.lists }
    requires numbered { IsNumbered tables.now.lists bill.now.labels }
    requires index { IsIndex bill.now.labels index.now.rows }
    requires masses { AreMasses tables.now.lists bill.now rollups.now }
    ensures { IfOk result (λ entries. entries.items ≡ entries_of tables.now.lists) }
{
    let shipments = tables.shipments();
    let mut entries = Vec::with_capacity(alloc, shipments.len())?;
    for shipment in shipments {
        let mass = mass_of(tables, bill, index, rollups, &shipment.product, steps);
        entries.push(Entry {
            year: shipment.year,
            product: shipment.product,
            units: shipment.units,
            mass,
        })?;
    }
    Ok(entries)
}
