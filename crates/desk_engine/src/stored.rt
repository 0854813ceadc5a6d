ghost use Rattle.std.specs.Prelude.{◌≡◌, IfOk};
ghost use Rattle.desk_model.specs.Lists.{Lists};
ghost use Rattle.desk_engine.specs.Stored.{IsStoredOf};

use desk_bridge::NodeIndex;
use desk_graph::Bill;
use desk_model::Codes;
use desk_rollup::Rollups;
use desk_text::OutOfMemory;
use desk_tonnage::Yearly;
use std::alloc::Global;

/// What is computed of the tables and kept beside them.
pub struct Stored {
    /// The bill of materials.
    pub(crate) bill: Bill,
    /// Its nodes by their codes.
    pub(crate) index: NodeIndex,
    /// What the nodes have, of their own and along the lines.
    pub(crate) rollups: Rollups,
    /// How many units were shipped in each year, and what they weigh.
    pub(crate) years: Yearly,
    /// The substances that marks and loads tell by their places in this list. It only grows.
    pub(crate) names: Codes,
}

// Written out, so that a function that owns one does not prove anew how each part is dropped.
impl Drop for Stored {
    fn drop(self) {
        let Stored {
            bill: _,
            index: _,
            rollups: _,
            years: _,
            names: _,
        } = self;
    }
}

impl Stored {
    /// The same once more.
    pub(crate) fn copied(&self, alloc: Global) -> Result<Stored, OutOfMemory>
        ensures { IfOk result (λ copy. (t : Lists) → IsStoredOf t self.now → IsStoredOf t copy) }
    {
        Ok(Stored {
            bill: copied_bill(alloc, &self.bill)?,
            index: self.index.copied(alloc)?,
            rollups: copied_rollups(alloc, &self.rollups)?,
            years: self.years.copied(alloc)?,
            names: self.names.copied(alloc)?,
        })
    }
}

/// The same bill once more.
fn copied_bill(alloc: Global, bill: &Bill) -> Result<Bill, OutOfMemory>
    ensures { IfOk result (λ copy. copy ≡ bill.now) }
{
    match bill.copied(alloc) {
        Ok(bill) => Ok(bill),
        Err(_) => Err(OutOfMemory),
    }
}

/// The same roll-ups once more.
fn copied_rollups(alloc: Global, rollups: &Rollups) -> Result<Rollups, OutOfMemory>
    ensures { IfOk result (λ copy. copy ≡ rollups.now) }
{
    match rollups.copied(alloc) {
        Ok(rollups) => Ok(rollups),
        Err(_) => Err(OutOfMemory),
    }
}
