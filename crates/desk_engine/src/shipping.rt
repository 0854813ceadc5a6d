ghost use Rattle.std.specs.Prelude.{◌≡◌, ◌+◌, ◌≤◌, ℕ, List, IfErr, IfOk, if◌then◌else◌};
ghost use Rattle.desk_graph.specs.Planned.{IsBillPlan, graph_after};
ghost use Rattle.desk_model.specs.Effect.{with_edit_entered};
ghost use Rattle.desk_history.specs.Rising.{changes_shipments};
ghost use Rattle.desk_history.specs.History.{PassesRows};
ghost use Rattle.desk_history.specs.Sound.{Sound};
ghost use Rattle.desk_bridge.specs.Years.{entries_of};
ghost use Rattle.desk_engine.specs.Planned.{IsRolledFor};
ghost use Rattle.desk_engine.specs.Stored.{IsStoredOf};
ghost use Rattle.desk_engine.specs.Years.{IsYearsFault, LeavesEntries, shipping_of};

use crate::masses::{mass_of, masses_of};
use crate::stored::Stored;
use crate::years::{YearsFault, YearsPlan, plan_adding, plan_taking, plan_weighing};
use desk_bridge::NewEdit;
use desk_graph::{BillPlan, PlannedBill, Steps};
use desk_model::Edit;
use desk_rollup::RollPlan;
use desk_text::Code;
use std::alloc::Global;
use std::sync::ledger::Ledger;

/// What an edit does to the units that were shipped.
#[derive(Drop)]
pub enum Shipping {
    /// It adds units.
    Adds {
        /// The year.
        year: u16,
        /// The product.
        product: Code,
        /// How many units.
        units: u64,
    },
    /// It takes units off.
    Takes {
        /// The year.
        year: u16,
        /// The product.
        product: Code,
        /// How many units.
        units: u64,
    },
    /// It leaves them.
    Leaves,
}

/// What the edit does to the units that were shipped.
#[tactic(auto, unfolding(crate::specs::Years::shipping_of))]
pub(crate) fn shipping_of(edit: &Edit) -> Shipping
    ensures { result ≡ shipping_of edit.now }
{
    match edit {
        Edit::Ship {
            product,
            year,
            units,
            ..
        } => Shipping::Adds {
            year: year.get() as u16,
            product: *product,
            units: units.get(),
        },
        Edit::Unship {
            product,
            year,
            units,
            ..
        } => Shipping::Takes {
            year: year.get() as u16,
            product: *product,
            units: units.get(),
        },
        _ => Shipping::Leaves,
    }
}

/// What an edit that passes the refusals 1 to 22 makes of the years. `plan` is what it makes of the bill, and `rollups` what of the roll-ups.
pub(crate) fn plan_years<'a, L: Ledger>(
    alloc: Global,
    new: &NewEdit<'a>,
    stored: &Stored,
    plan: &BillPlan,
    rollups: &RollPlan,
    steps: &mut Steps<L>,
) -> Result<YearsPlan, YearsFault>
    requires sound { Sound new.now.tables.now.lists }
    requires stored { IsStoredOf new.now.tables.now.lists stored.now }
    requires passes { PassesRows new.now.tables.now.lists new.now.edit.now }
    requires plan { IsBillPlan stored.now.bill plan.now }
    requires rolled { (names : List (List ℕ)) × IsRolledFor new.now.tables.now.lists new.now.edit.now (graph_after plan.now stored.now.bill) names stored.now.rollups rollups.now }
    ensures plan { IfOk result (λ years. LeavesEntries stored.now.years (entries_of (with_edit_entered new.now.tables.now.lists new.now.edit.now)) years) }
    ensures fault { IfErr result (λ fault. IsYearsFault (entries_of (with_edit_entered new.now.tables.now.lists new.now.edit.now)) fault) }
    ensures steps { steps.new ≤ steps.old + (if changes_shipments new.now.edit.now then 1 else 0) }
{
    match shipping_of(new.edit) {
        Shipping::Adds {
            year,
            product,
            units,
        } => {
            // A bill tells what holds of every bill.
            stored.bill.node_count();
            let mass = mass_of(
                new.tables,
                &stored.bill,
                &stored.index,
                &stored.rollups,
                &product,
                steps,
            );
            plan_adding(alloc, &stored.years, year, &product, units, mass)
        }
        Shipping::Takes {
            year,
            product,
            units,
        } => Ok(plan_taking(&stored.years, year, product, units)),
        Shipping::Leaves => {
            let after = PlannedBill::new(&stored.bill, plan);
            let masses = masses_of(alloc, new.tables, stored, &after, rollups)?;
            plan_weighing(alloc, &stored.years, &masses)
        }
    }
}
