ghost use Rattle.std.specs.Prelude.{◌≡◌};
ghost use Rattle.desk_tables.specs.Plan.{plan_number};

use crate::stored_plan::StoredPlan;
use desk_tables::TablesPlan;

/// What one edit does to an engine: made while the engine stands, carried out without a refusal and without memory.
#[derive(Drop)]
pub struct Plan {
    pub(crate) tables: TablesPlan,
    /// What it does beside them: nothing, where the edit is kept already.
    pub(crate) stored: Option<StoredPlan>,
}

impl Plan {
    /// What the edit does to the tables.
    pub fn tables(&self) -> &TablesPlan
        ensures { result.now ≡ self.now.tables }
    {
        &self.tables
    }

    /// The number of the edit: kept, or that which it gets.
    pub fn number(&self) -> u64
        ensures { result ≡ plan_number self.now.tables }
    {
        self.tables.number()
    }
}
