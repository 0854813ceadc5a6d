use crate::entry::Entry;
use crate::product_mass::ProductMass;
use std::marker::Model;

/// Units that are ready to be added, without memory and without a refusal. Contracts see it as a record of its parts.
///
/// It holds the entry as it will be, and an empty list that is to take the place of the kept one where that has no room.
#[derive(Drop)]
pub struct AddPlan {
    pub(crate) entry: Entry,
    pub(crate) room: Vec<Entry>,
}

impl Model for AddPlan {
    ghost use Rattle.std.specs.Prelude.{◌≡◌, [], vec_capacity};
    ghost use Rattle.desk_tonnage.specs.Kept.{PlannedEntry};

    ghost Value = { PlannedEntry };

    ghost view = { λ plan. record {
      entry = plan.entry;
      room = vec_capacity plan.room;
    } };

    ghost invariant = { λ plan. plan.room.items ≡ [] };
}

/// New masses of products that are ready to be set, without memory and without a refusal. Contracts see the list of them.
#[derive(Drop)]
pub struct MassPlan {
    pub(crate) masses: Vec<ProductMass>,
}

impl Model for MassPlan {
    ghost use Rattle.std.specs.Prelude.{List};
    ghost use Rattle.desk_tonnage.specs.declared.product_mass.ProductMass.{ProductMass};

    ghost Value = { List ProductMass };

    ghost use Rattle.desk_tonnage.specs.Masses.{AreByProduct};

    ghost view = { λ plan. plan.masses.items };

    ghost invariant = { λ plan. AreByProduct plan.masses.items };
}
