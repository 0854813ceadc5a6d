ghost use Rattle.std.specs.Prelude.{◌≡◌, sum_by, true};
ghost use Rattle.desk_model.specs.Content.{holds_too_much};
ghost use Rattle.desk_model.specs.Declaration.{is_material_in_form};
ghost use Rattle.desk_model.specs.Declaring.{empty_material};

use crate::{ListOf, SubstanceMass};
use desk_law::Claim;
use desk_rows::Keyed;
use desk_text::{Code, Name, OutOfMemory};
use std::alloc::Global;
use std::cmp::Ordering;

/// One material of a declaration.
#[derive(Debug, Drop)]
pub struct MaterialDecl {
    /// The code of the material.
    pub code: Code,
    /// Its name.
    pub name: Name,
    /// Its mass in micrograms, from 1 to 1,000,000,000,000,000.
    pub mass: u64,
    /// The substances that it holds, in order of code, each once: at most 64.
    pub substances: ListOf<SubstanceMass>,
    /// The exemptions that its supplier claims, in order of rule and then number, each once: at most 16.
    pub claims: ListOf<Claim>,
}

impl MaterialDecl {
    /// A material of this mass in micrograms that holds nothing yet. It takes no memory beyond its name.
    pub fn empty(alloc: Global, code: Code, name: Name, mass: u64) -> MaterialDecl
        ensures value { result ≡ empty_material code name mass }
        ensures form { is_material_in_form result ≡ true }
    {
        // What is kept is of its form: these calls do nothing but say so.
        code.as_bytes();
        name.as_bytes();
        MaterialDecl {
            code,
            name,
            mass,
            substances: ListOf::new(Vec::new(alloc)),
            claims: ListOf::new(Vec::new(alloc)),
        }
    }

    /// Whether the substances weigh more than the material that holds them.
    pub fn holds_too_much(&self) -> bool
        ensures { result ≡ holds_too_much self.now.mass self.now.substances }
    {
        u128::from(self.mass) < total_mass(self.substances.as_slice())
    }
}

/// The mass of the substances together, in micrograms.
fn total_mass(held: &[SubstanceMass]) -> u128
    ensures { result ≡ sum_by (λ one. one.mass) held.now }
{
    let mut total = 0;
    for one in held {
        total += u128::from(one.mass);
    }
    total
}

impl Keyed for MaterialDecl {
    type Key = Code;

    ghost key = { λ material. material.code };

    fn compare(&self, sought: &Code) -> Ordering {
        self.code.cmp(sought)
    }

    fn compare_row(&self, other: &MaterialDecl) -> Ordering {
        self.code.cmp(&other.code)
    }

    fn copied(&self, alloc: Global) -> Result<MaterialDecl, OutOfMemory> {
        Ok(MaterialDecl {
            code: self.code,
            name: self.name.clone()?,
            mass: self.mass,
            substances: self.substances.copied(alloc)?,
            claims: self.claims.copied(alloc)?,
        })
    }
}
