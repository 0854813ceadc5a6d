//! What an edit makes of the years, over these alone.
ghost use Rattle.std.specs.Prelude.{◌≡◌, ◌+◌, ◌≤◌, IfErr, IfOk};
ghost use Rattle.desk_tonnage.specs.Edits.{HasMass, with_entry_units, without_entry_units};
ghost use Rattle.desk_tonnage.specs.Entries.{entry_units};
ghost use Rattle.desk_tonnage.specs.Masses.{AreByProduct, with_masses};
ghost use Rattle.desk_engine.specs.Years.{CanChange, IsYearsFault, LeavesEntries, years_after};

use desk_rows::Table;
use desk_text::{Code, OutOfMemory};
use desk_tonnage::{AddPlan, MassFault, MassPlan, ProductMass, TonnageFault, Yearly};
use std::alloc::Global;

/// What an edit makes of the years, made ready so that it needs no memory and isn't refused.
#[derive(Drop)]
pub enum YearsPlan {
    /// Nothing changes.
    Leaves,
    /// Units are added.
    Adds {
        /// What is made ready.
        plan: AddPlan,
    },
    /// Units are taken off.
    Takes {
        /// The year.
        year: u16,
        /// The product.
        product: Code,
        /// How many units: no more than there are.
        units: u64,
    },
    /// Products get new masses.
    Weighs {
        /// What is made ready.
        plan: MassPlan,
    },
}

/// Why an edit can't be made of the years.
#[derive(Debug, Drop)]
pub enum YearsFault {
    /// A year would weigh too much.
    TooLarge {
        /// The first such year.
        year: u16,
    },
    /// There is no memory.
    OutOfMemory,
}

impl From<OutOfMemory> for YearsFault {
    ghost use Rattle.std.specs.Prelude.{◌≡◌};
    ghost use Rattle.desk_engine.specs.declared.years.YearsFault.TheVariants.{OutOfMemory};

    ghost from_gives = { λ _ e. e ≡ OutOfMemory };

    fn from(_error: OutOfMemory) -> YearsFault {
        YearsFault::OutOfMemory
    }
}

/// Makes ready to add units of a product, each of this mass.
pub(crate) fn plan_adding(
    alloc: Global,
    years: &Yearly,
    year: u16,
    product: &Code,
    units: u64,
    mass: u128,
) -> Result<YearsPlan, YearsFault>
    requires some { 1 ≤ units }
    requires mass { HasMass year product.now mass years.now.entries }
    requires fits { entry_units year product.now years.now.entries + units ≤ 1000000000000 }
    ensures plan { IfOk result (λ plan. LeavesEntries years.now (with_entry_units year product.now units mass years.now.entries) plan) }
    ensures fault { IfErr result (λ fault. IsYearsFault (with_entry_units year product.now units mass years.now.entries) fault) }
{
    // The call tells what all years keep.
    years.as_slice();
    match years.plan_add(alloc, year, product, units, mass) {
        Ok(plan) => Ok(YearsPlan::Adds { plan }),
        Err(TonnageFault::YearTooLarge { year }) => Err(YearsFault::TooLarge { year }),
        Err(TonnageFault::UnitsTooLarge) => unreachable!(),
        Err(TonnageFault::OutOfMemory) => Err(YearsFault::OutOfMemory),
    }
}

/// Makes ready to take units of a product off. It takes no memory.
pub(crate) fn plan_taking(years: &Yearly, year: u16, product: Code, units: u64) -> YearsPlan
    requires { units ≤ entry_units year product years.now.entries }
    ensures { LeavesEntries years.now (without_entry_units year product units years.now.entries) result }
{
    // The call tells what all years keep.
    years.as_slice();
    YearsPlan::Takes {
        year,
        product,
        units,
    }
}

/// Makes ready to give products these masses.
pub(crate) fn plan_weighing(
    alloc: Global,
    years: &Yearly,
    masses: &Table<ProductMass>,
) -> Result<YearsPlan, YearsFault>
    ensures plan { IfOk result (λ plan. LeavesEntries years.now (with_masses masses.now.rows years.now.entries) plan) }
    ensures fault { IfErr result (λ fault. IsYearsFault (with_masses masses.now.rows years.now.entries) fault) }
{
    // The call tells what all years keep.
    years.as_slice();
    if masses.as_slice().is_empty() {
        return Ok(YearsPlan::Leaves);
    }
    plan_masses(years, copied(alloc, masses.as_slice())?)
}

/// Makes ready to give products these masses, in the order of the products.
fn plan_masses(years: &Yearly, masses: Vec<ProductMass>) -> Result<YearsPlan, YearsFault>
    requires { AreByProduct masses.items }
    ensures plan { IfOk result (λ plan. LeavesEntries years.now (with_masses masses.items years.now.entries) plan) }
    ensures fault { IfErr result (λ fault. IsYearsFault (with_masses masses.items years.now.entries) fault) }
{
    match years.plan_masses(masses) {
        Ok(plan) => Ok(YearsPlan::Weighs { plan }),
        Err(MassFault::YearTooLarge { year }) => Err(YearsFault::TooLarge { year }),
    }
}

/// The masses once more.
fn copied(alloc: Global, masses: &[ProductMass]) -> Result<Vec<ProductMass>, OutOfMemory>
    ensures { IfOk result (λ copy. copy.items ≡ masses.now) }
{
    Ok(Vec::from_slice(alloc, masses)?)
}

/// Carries out the plan. It isn't refused, and takes no memory.
pub(crate) fn commit_years(years: &mut Yearly, plan: YearsPlan)
    requires { CanChange years.old plan }
    ensures { years.new.entries ≡ years_after plan years.old.entries }
{
    match plan {
        YearsPlan::Leaves => {}
        YearsPlan::Adds { plan } => years.commit_add(plan),
        YearsPlan::Takes {
            year,
            product,
            units,
        } => {
            let taken = years.take(year, &product, units);
            prove!(taken.is_ok());
        }
        YearsPlan::Weighs { plan } => years.commit_masses(plan),
    }
}
