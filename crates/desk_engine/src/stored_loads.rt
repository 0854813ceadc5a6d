//! What parts carry, and what the products of a year carry together.
ghost use Rattle.std.specs.Prelude.{◌≡◌, ◌++◌, ◌∷◌, ◌+◌, ◌*◌, ◌^◌, ◌==◌, ◌≤◌, ◌<◌, ℕ, List, [], true, if◌then◌else◌, length, map, not, slice_index_or, sum_by, IfOk, OnOk};
ghost use Rattle.std.specs.List.{AllByRecursion, list_any};
ghost use Rattle.desk_text.specs.Code.{same_code};
ghost use Rattle.desk_graph.specs.Graph.{label_of};
ghost use Rattle.desk_model.specs.Lists.{is_part};
ghost use Rattle.desk_findings.specs.Carried.{carried};
ghost use Rattle.desk_findings.specs.Tonnage.{tonnage};
ghost use Rattle.desk_history.specs.Sound.{Sound};
ghost use Rattle.desk_rollup.specs.Values.{amount_of};
ghost use Rattle.desk_scratch.specs.LookUps.{loads_of};
ghost use Rattle.desk_engine.specs.Answers.{AreSumsOf};
ghost use Rattle.desk_engine.specs.Stored.{IsStoredOf};

use crate::chained::name_of;
use crate::node_values::{amount_in, values_of};
use crate::stored::Stored;
use desk_model::ShipmentRow;
use desk_rollup::Load as NodeLoad;
use desk_rows::run_of;
use desk_scratch::Load;
use desk_tables::Tables;
use desk_text::{Code, OutOfMemory};
use std::alloc::Global;

/// What a part carries of each candidate that it carries, in order of substance. It takes, for each candidate, a pass over the part's
/// loads.
pub(crate) fn stored_loads(
    alloc: Global,
    tables: &Tables,
    stored: &Stored,
    part: &Code,
) -> Result<Vec<Load>, OutOfMemory>
    requires sound { Sound tables.now.lists }
    requires stored { IsStoredOf tables.now.lists stored.now }
    requires part { is_part tables.now.lists part.now ≡ true }
    ensures { IfOk result (λ loads. loads.items ≡ loads_of tables.now.lists part.now) }
{
    let values = values_of(tables, stored, part);
    let loads = values.loads.as_slice();
    let names = stored.names.as_slice();
    let mut list = Vec::new(alloc);
    let mut guess = 0usize;
    for candidate in tables.candidates() {
        let substance = candidate.substance;
        let place = name_near(names, guess, &substance);
        guess = place + 1;
        let amount = amount_in(loads, place as u32);
        push_if_some(&mut list, Load { substance, amount })?;
    }
    Ok(list)
}

/// Appends the load, where there is something of it.
fn push_if_some(list: &mut Vec<Load>, load: Load) -> Result<(), OutOfMemory>
    ensures { OnOk result (list.new.items ≡ list.old.items ++ (if not (load.amount == 0) then load ∷ [] else [])) }
{
    if load.amount != 0 {
        list.push(load)?;
    }
    Ok(())
}

/// A place of a substance that is named. It is looked for at this place first: names stand mostly in the order of the candidates.
fn name_near(names: &[Code], guess: usize, substance: &Code) -> usize
    requires few { length names.now ≤ 4294967296 }
    requires named { list_any (λ listed. same_code listed substance.now) names.now ≡ true }
    ensures there { result < length names.now }
    ensures name { label_of names.now result ≡ substance.now }
{
    if is_at(names, guess, substance) {
        return guess;
    }
    name_of(names, substance) as usize
}

/// Whether the substance is the name at a place.
fn is_at(names: &[Code], place: usize, substance: &Code) -> bool
    ensures there { result ≡ true → place < length names.now }
    ensures name { result ≡ true → label_of names.now place ≡ substance.now }
{
    if place >= names.len() {
        return false;
    }
    names[place] == *substance
}

/// What the products carry that were shipped in a year, of each candidate, in micrograms, in order of substance. It takes, for each
/// shipment of the year, a binary search and a pass over the product's loads, and a pass over the candidates.
pub(crate) fn stored_tonnages(
    alloc: Global,
    tables: &Tables,
    stored: &Stored,
    year: u16,
) -> Result<Vec<u128>, OutOfMemory>
    requires sound { Sound tables.now.lists }
    requires stored { IsStoredOf tables.now.lists stored.now }
    ensures { IfOk result (λ sums. sums.items ≡ map (λ candidate. tonnage tables.now.lists year candidate.substance) tables.now.lists.candidates) }
{
    let named = named_tonnages(alloc, tables, stored, year)?;
    let names = stored.names.as_slice();
    let mut sums = Vec::new(alloc);
    let mut guess = 0usize;
    for candidate in tables.candidates() {
        let place = name_near(names, guess, &candidate.substance);
        guess = place + 1;
        sums.push(named[place])?;
    }
    Ok(sums)
}

/// The tonnage in a year of each substance that is named, in micrograms.
fn named_tonnages(
    alloc: Global,
    tables: &Tables,
    stored: &Stored,
    year: u16,
) -> Result<Vec<u128>, OutOfMemory>
    requires sound { Sound tables.now.lists }
    requires stored { IsStoredOf tables.now.lists stored.now }
    ensures size { IfOk result (λ sums. length sums.items ≡ length stored.now.names) }
    ensures sums { IfOk result (λ sums. AreSumsOf (λ substance. tonnage tables.now.lists year substance) stored.now.names sums.items) }
{
    let mut sums = Vec::from_elem(alloc, 0u128, stored.names.as_slice().len())?;
    add_shipments(
        sums.as_mut_slice(),
        tables,
        stored,
        run_of(tables.shipments(), &year),
    );
    Ok(sums)
}

/// Adds what these shipments carry of each substance that is named.
fn add_shipments(sums: &mut [u128], tables: &Tables, stored: &Stored, shipments: &[ShipmentRow])
    requires sound { Sound tables.now.lists }
    requires stored { IsStoredOf tables.now.lists stored.now }
    requires size { length sums.old ≡ length stored.now.names }
    requires nothing { (place : ℕ) → place < length stored.now.names → slice_index_or sums.old place 0 ≡ 0 }
    requires products { AllByRecursion (λ shipment. is_part tables.now.lists shipment.product ≡ true) shipments.now }
    requires light { (substance : List ℕ) → sum_by (λ shipment. shipment.units * carried tables.now.lists substance shipment.product) shipments.now < 2 ^ 128 }
    ensures size { length sums.new ≡ length stored.now.names }
    ensures sums { AreSumsOf (λ substance. sum_by (λ shipment. shipment.units * carried tables.now.lists substance shipment.product) shipments.now) stored.now.names sums.new }
{
    for shipment in shipments {
        let values = values_of(tables, stored, &shipment.product);
        add_loads(sums, shipment.units, values.loads.as_slice());
    }
}

/// Adds what so many units with these loads carry.
fn add_loads(sums: &mut [u128], units: u64, loads: &[NodeLoad])
    requires { (place : ℕ) → place < length sums.old → slice_index_or sums.old place 0 + units * amount_of loads.now place < 2 ^ 128 }
    ensures size { length sums.new ≡ length sums.old }
    ensures sums { (place : ℕ) → place < length sums.old → slice_index_or sums.new place 0 ≡ slice_index_or sums.old place 0 + units * amount_of loads.now place }
{
    for load in loads {
        add_load(sums, units, load);
    }
}

/// Adds what so many units with this load carry.
fn add_load(sums: &mut [u128], units: u64, load: &NodeLoad)
    requires { load.now.what < length sums.old → slice_index_or sums.old load.now.what 0 + units * load.now.amount < 2 ^ 128 }
    ensures size { length sums.new ≡ length sums.old }
    ensures sums { (place : ℕ) → place < length sums.old →
        slice_index_or sums.new place 0 ≡ slice_index_or sums.old place 0 + units * (if load.now.what == place then load.now.amount else 0) }
{
    let place = load.what as usize;
    // What has no name is carried by nobody.
    if place < sums.len() {
        sums[place] += u128::from(units) * load.amount;
    }
}
