//! How many units of each product were shipped in each year, and what a year's units weigh and carry.
#![tactic(auto)]

mod edits;
mod entry;
mod fault;
mod plan;
mod product_load;
mod product_mass;
mod sums;
mod yearly;

pub use entry::Entry;
pub use fault::{MassFault, TakeFault, TonnageFault};
pub use plan::{AddPlan, MassPlan};
pub use product_load::ProductLoad;
pub use product_mass::ProductMass;
pub use sums::{carried_by, entries_of_year};
pub use yearly::{UNITS_LIMIT, Yearly};
