use desk_law::Claim;
use desk_model::{MaterialRow, SubstanceMass};
use desk_text::Code;
use std::marker::Model;

/// What of a material its lines tell, lent by its row or by its declaration.
#[derive(Drop)]
pub(crate) struct Facts<'a> {
    /// The code of the material.
    pub code: Code,
    /// The supplier that declared it.
    pub supplier: Code,
    /// The number of the declaration.
    pub number: u64,
    /// Its mass in micrograms.
    pub mass: u64,
    /// The substances that it holds.
    pub substances: &'a [SubstanceMass],
    /// The exemptions that its supplier claims.
    pub claims: &'a [Claim],
}

impl<'a> Model for Facts<'a> {
    ghost use Rattle.desk_scratch.specs.Assessment.{Facts};

    ghost Value = { Facts };

    ghost view = { λ f. record {
      code = f.code;
      supplier = f.supplier;
      number = f.number;
      mass = f.mass;
      substances = f.substances.now;
      claims = f.claims.now;
    } };
}

impl<'a> From<&'a MaterialRow> for Facts<'a> {
    ghost use Rattle.std.specs.Prelude.{◌≡◌};
    ghost use Rattle.desk_scratch.specs.Assessment.{facts_of};

    ghost from_gives = { λ material facts. facts ≡ facts_of material.now };

    fn from(material: &'a MaterialRow) -> Facts<'a> {
        Facts {
            code: material.code,
            supplier: material.supplier,
            number: material.number,
            mass: material.mass,
            substances: material.substances.as_slice(),
            claims: material.claims.as_slice(),
        }
    }
}
