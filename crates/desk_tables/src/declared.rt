ghost use Rattle.std.specs.Prelude.{◌≡◌, find, map, not, option_map};
ghost use Rattle.std.specs.List.{flat_map};
ghost use Rattle.desk_model.specs.Content.{holds_too_much};
ghost use Rattle.desk_model.specs.Lists.{is_part, is_substance};
ghost use Rattle.desk_model.specs.declared.rule_fault.RuleFault.TheVariants.{MassesExceed, NameTaken, UnknownSubstance};
ghost use Rattle.desk_history.specs.Refused.{declared_substances, first_some, foreign_fault, stale_fault};

use crate::Tables;
use crate::refuse::refuse_if;
use desk_model::{Declaration, MaterialDecl, RuleFault, SubstanceMass};
use desk_text::Code;

/// What the rules say of the materials of a declaration: of each the first that breaks the rule is told.
impl Tables {
    /// The first substance that a declared material lists and that isn't kept.
    pub(crate) fn unknown_in_declaration(&self, declaration: &Declaration) -> Option<RuleFault>
        ensures { result ≡ option_map UnknownSubstance
            (find (λ code. not (is_substance self.now.lists code)) (declared_substances declaration.now)) }
    {
        match self.first_unknown(declaration.materials()) {
            Some(code) => Some(RuleFault::UnknownSubstance { code }),
            None => None,
        }
    }

    /// The first substance of these materials that isn't kept.
    fn first_unknown(&self, materials: &[MaterialDecl]) -> Option<Code>
        ensures { result ≡ find (λ code. not (is_substance self.now.lists code))
            (flat_map (λ material. map (λ held. held.substance) material.substances) materials.now) }
    {
        for material in materials {
            if let Some(code) = self.unknown_among(material.substances.as_slice()) {
                return Some(code);
            }
        }
        None
    }

    /// The first of the substances that isn't kept.
    fn unknown_among(&self, substances: &[SubstanceMass]) -> Option<Code>
        ensures { result ≡ find (λ code. not (is_substance self.now.lists code)) (map (λ held. held.substance) substances.now) }
    {
        // Both lists stand in the order of codes, so most substances are found right after the one before.
        let mut near = 0;
        for held in substances {
            match self.substance_place(&held.substance, near) {
                Some(place) => near = place.saturating_add(1),
                None => return Some(held.substance),
            }
        }
        None
    }

    /// The first declared material that has a part's code.
    pub(crate) fn named_as_part(&self, declaration: &Declaration) -> Option<RuleFault>
        ensures { result ≡ option_map (λ material. NameTaken material.code)
            (find (λ material. is_part self.now.lists material.code) declaration.now.materials) }
    {
        for material in declaration.materials() {
            if self.is_part(&material.code) {
                return Some(RuleFault::NameTaken {
                    code: material.code,
                });
            }
        }
        None
    }

    /// The first declared material that is kept from another supplier.
    pub(crate) fn foreign_in_declaration(&self, declaration: &Declaration) -> Option<RuleFault>
        ensures { result ≡ first_some (map (foreign_fault self.now.lists declaration.now.supplier) declaration.now.materials) }
    {
        for material in declaration.materials() {
            if let Some(fault) = self.foreign_fault(declaration.supplier(), material) {
                return Some(fault);
            }
        }
        None
    }

    /// The fault of a material that is kept from another supplier.
    fn foreign_fault(&self, supplier: &Code, material: &MaterialDecl) -> Option<RuleFault>
        ensures { result ≡ foreign_fault self.now.lists supplier.now material.now }
    {
        match self.material(&material.code) {
            Some(kept) => refuse_if(
                kept.supplier != *supplier,
                RuleFault::ForeignMaterial {
                    material: material.code,
                    supplier: kept.supplier,
                },
            ),
            None => None,
        }
    }

    /// The first declared material that is kept with a greater declaration number.
    pub(crate) fn stale_in_declaration(&self, declaration: &Declaration) -> Option<RuleFault>
        ensures { result ≡ first_some (map (stale_fault self.now.lists declaration.now.number) declaration.now.materials) }
    {
        for material in declaration.materials() {
            if let Some(fault) = self.stale_fault(declaration.number(), material) {
                return Some(fault);
            }
        }
        None
    }

    /// The fault of a material that is kept with a greater declaration number.
    fn stale_fault(&self, number: u64, material: &MaterialDecl) -> Option<RuleFault>
        ensures { result ≡ stale_fault self.now.lists number material.now }
    {
        match self.material(&material.code) {
            Some(kept) => refuse_if(
                number < kept.number,
                RuleFault::StaleDeclaration {
                    material: material.code,
                    kept: kept.number,
                },
            ),
            None => None,
        }
    }
}

/// The first declared material whose substances weigh more than it.
pub(crate) fn too_full_in(declaration: &Declaration) -> Option<RuleFault>
    ensures { result ≡ option_map (λ material. MassesExceed material.code)
        (find (λ material. holds_too_much material.mass material.substances) declaration.now.materials) }
{
    for material in declaration.materials() {
        if material.holds_too_much() {
            return Some(RuleFault::MassesExceed {
                material: material.code,
            });
        }
    }
    None
}
