ghost use Rattle.std.specs.Prelude.{◌≡◌, ◌≢◌, ◌≤◌, true, IfErr, MatchResult, None, Ok, Err, OnErr, OnOk};
ghost use Rattle.desk_text.specs.Code.{code_cmp};
ghost use Rattle.desk_rows.specs.Place.{StandsAt};
ghost use Rattle.desk_rows.specs.Rows.{IsByKey, row_of};
ghost use Rattle.desk_model.specs.Declaration.{is_declaration, is_declaration_in_form};
ghost use Rattle.desk_model.specs.Declaring.{claim_added, declaration_start, empty_material, material_added, substance_added};

use crate::enter::enter;
use crate::limits::{CONTENT_LIMIT, DECLARED_LIMIT, MASS_LIMIT};
use crate::{DeclError, MaterialDecl, SubstanceMass};
use desk_law::Claim;
use desk_rows::place_from_end;
use desk_text::{Code, Day, Name};
use std::alloc::Global;
use std::marker::Model;

/// What a supplier declares of its materials: at most 256, in order of code, each once.
#[derive(Debug, Drop)]
pub struct Declaration {
    supplier: Code,
    number: u64,
    day: Day,
    materials: Vec<MaterialDecl>,
}

impl Model for Declaration {
    ghost use Rattle.std.specs.Prelude.{◌≡◌, true};
    ghost use Rattle.desk_model.specs.Declaration.{Declared, is_declaration_in_form};

    ghost Value = { Declared };

    ghost view = { λ d. record {
      supplier = d.supplier;
      number = d.number;
      day = d.day;
      materials = d.materials.items;
    } };

    ghost invariant = { λ d. is_declaration_in_form (record {
      supplier = d.supplier;
      number = d.number;
      day = d.day;
      materials = d.materials.items;
    }) ≡ true };
}

impl Declaration {
    /// A supplier's declaration of this number and day, without materials. The number is at least 1. It takes no memory
    /// yet, so that it doesn't fail.
    #[tactic(auto, unfolding(crate::specs::Declaration::is_declaration_in_form))]
    pub fn start(
        alloc: Global,
        supplier: Code,
        number: u64,
        day: Day,
    ) -> Result<Declaration, DeclError>
        requires { 1 ≤ number }
        ensures { result ≡ Ok (declaration_start supplier number day) }
    {
        // What is kept is of its form: these calls do nothing but say so.
        supplier.as_bytes();
        day.year();
        Ok(Declaration {
            supplier,
            number,
            day,
            materials: Vec::new(alloc),
        })
    }

    /// Adds a material that holds nothing yet. Its mass is in micrograms, from 1 to 1,000,000,000,000,000.
    ///
    /// `Repeated`: the declaration lists the code already. `TooMany`: it lists 256 materials. They are tried in this
    /// order. `OutOfMemory`: none was left for the material. After an error the declaration is as it was.
    pub fn add_material(&mut self, code: Code, name: Name, mass: u64) -> Result<(), DeclError>
        requires least { 1 ≤ mass }
        requires greatest { mass ≤ MASS_LIMIT }
        ensures ok { OnOk result (material_added (empty_material code name mass) self.old ≡ Ok self.new) }
        ensures error { IfErr result (λ e. e ≢ DeclError.OutOfMemory
            → material_added (empty_material code name mass) self.old ≡ Err e) }
        ensures err { OnErr result (self.new ≡ self.old) }
    {
        let alloc = *self.materials.allocator();
        let material = MaterialDecl::empty(alloc, code, name, mass);
        enter(&mut self.materials, material, DECLARED_LIMIT)
    }

    /// Adds a substance to a material that the declaration lists. Its mass is in micrograms, from 0 to
    /// 1,000,000,000,000,000.
    ///
    /// `Orphan`: the declaration doesn't list the material. `Repeated`: the material has the substance already.
    /// `TooMany`: it has 64 substances. They are tried in this order. `OutOfMemory`: none was left for the substance. After an
    /// error the declaration is as it was.
    pub fn add_substance(
        &mut self,
        material: &Code,
        substance: Code,
        mass: u64,
    ) -> Result<(), DeclError>
        requires { mass ≤ MASS_LIMIT }
        ensures ok { OnOk result (substance_added material.now (record { substance = substance; mass = mass }) self.old ≡ Ok self.new) }
        ensures error { IfErr result (λ e. e ≢ DeclError.OutOfMemory
            → substance_added material.now (record { substance = substance; mass = mass }) self.old ≡ Err e) }
        ensures err { OnErr result (self.new ≡ self.old) }
    {
        // The call does nothing but say that the code is of its form.
        substance.as_bytes();
        let held = SubstanceMass { substance, mass };
        let at = place_of(self.materials.as_slice(), material)?;
        let material = &mut self.materials[at];
        material.substances.enter(held, CONTENT_LIMIT)
    }

    /// Adds a claim of exemption for a material that the declaration lists.
    ///
    /// `Orphan`: the declaration doesn't list the material. `Repeated`: the material has the claim already. `TooMany`: it
    /// has 16 claims. They are tried in this order. `OutOfMemory`: none was left for the claim. After an error the
    /// declaration is as it was.
    pub fn add_claim(&mut self, material: &Code, claim: Claim) -> Result<(), DeclError>
        ensures ok { OnOk result (claim_added material.now claim self.old ≡ Ok self.new) }
        ensures error { IfErr result (λ e. e ≢ DeclError.OutOfMemory
            → claim_added material.now claim self.old ≡ Err e) }
        ensures err { OnErr result (self.new ≡ self.old) }
    {
        // The call does nothing but say that the number is of its form.
        claim.number.as_bytes();
        let at = place_of(self.materials.as_slice(), material)?;
        let material = &mut self.materials[at];
        material.claims.enter_claim(claim)
    }

    /// The supplier's code.
    pub fn supplier(&self) -> &Code
        ensures { result.now ≡ self.now.supplier }
    {
        &self.supplier
    }

    /// The declaration's number, which is at least 1.
    #[tactic(auto, unfolding(crate::specs::Declaration::is_declaration_in_form))]
    pub fn number(&self) -> u64
        ensures value { result ≡ self.now.number }
        ensures least { 1 ≤ result }
    {
        self.number
    }

    /// The declaration's day.
    pub fn day(&self) -> Day
        ensures { result ≡ self.now.day }
    {
        self.day
    }

    /// The materials, in order of code. What they hold is in its range and order, and each value of the declaration is of
    /// its form.
    #[tactic(auto, unfolding(crate::specs::Declaration::is_declaration_in_form))]
    pub fn materials(&self) -> &[MaterialDecl]
        ensures value { result.now ≡ self.now.materials }
        ensures in_range { is_declaration self.now ≡ true }
        ensures form { is_declaration_in_form self.now ≡ true }
    {
        self.materials.as_slice()
    }
}

/// The place of the material with this code, which is mostly the last. The error is `Orphan`.
fn place_of(materials: &[MaterialDecl], code: &Code) -> Result<usize, DeclError>
    requires { IsByKey (λ material. material.code) code_cmp materials.now }
    ensures { MatchResult result
        (StandsAt (λ material. material.code) code_cmp code.now materials.now)
        (λ e. (e ≡ DeclError.Orphan) × (row_of (λ material. material.code) code_cmp code.now materials.now ≡ None)) }
{
    match place_from_end(materials, code) {
        Ok(at) => Ok(at),
        Err(_) => Err(DeclError::Orphan),
    }
}
