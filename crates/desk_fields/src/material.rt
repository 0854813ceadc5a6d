ghost use Rattle.std.specs.Prelude.{◌≡◌, Err, IfOk, None, Some};
ghost use Rattle.desk_fields.specs.EditReading.{claims_in, substances_in};

use crate::field_fault::FieldFault;
use crate::fields::Fields;
use crate::items::{Item, rising};
use desk_law::Claim;
use desk_model::limits::{CLAIM_LIMIT, CONTENT_LIMIT, MASS_LIMIT};
use desk_model::{ListOf, MaterialDecl, SubstanceMass};
use desk_text::Code;
use std::alloc::Global;
use std::cmp::Ordering;

impl Item for SubstanceMass {
    ghost use Rattle.std.proofs.lemmas.Cmp.{nat_list_cmp_total, on_total};
    ghost use Rattle.desk_fields.specs.EditReading.{held_cmp, held_in};

    ghost reader = { held_in };

    ghost order = { held_cmp };

    ghost total = { on_total (λ held. held.substance) nat_list_cmp_total };

    #[tactic(auto, unfolding(crate::specs::EditReading::held_in))]
    fn from_fields(_alloc: Global, fields: &mut Fields<'_>) -> Result<SubstanceMass, FieldFault> {
        Ok(SubstanceMass {
            substance: fields.take()?,
            mass: fields.take_number(0, MASS_LIMIT)?,
        })
    }

    fn order(&self, other: &SubstanceMass) -> Ordering {
        self.substance.cmp(&other.substance)
    }
}

impl Item for Claim {
    ghost use Rattle.desk_law.specs.Claim.{claim_cmp};
    ghost use Rattle.desk_model.proofs.Claims.{claim_total};
    ghost use Rattle.desk_fields.specs.EditReading.{claim_in};

    ghost reader = { claim_in };

    ghost order = { claim_cmp };

    ghost total = { claim_total };

    #[tactic(auto, unfolding(crate::specs::EditReading::claim_in))]
    fn from_fields(_alloc: Global, fields: &mut Fields<'_>) -> Result<Claim, FieldFault> {
        Ok(Claim {
            rule: fields.take()?,
            number: fields.take()?,
        })
    }

    fn order(&self, other: &Claim) -> Ordering {
        self.cmp(other)
    }
}

impl Item for MaterialDecl {
    ghost use Rattle.std.proofs.lemmas.Cmp.{nat_list_cmp_total, on_total};
    ghost use Rattle.desk_fields.specs.EditReading.{material_cmp, material_in};

    ghost reader = { material_in };

    ghost order = { material_cmp };

    ghost total = { on_total (λ material. material.code) nat_list_cmp_total };

    #[tactic(auto, unfolding(crate::specs::EditReading::material_in))]
    fn from_fields(alloc: Global, fields: &mut Fields<'_>) -> Result<MaterialDecl, FieldFault> {
        Ok(MaterialDecl {
            code: fields.take()?,
            name: fields.take_name(alloc)?,
            mass: fields.take_number(1, MASS_LIMIT)?,
            substances: take_substances(alloc, fields)?,
            claims: take_claims(alloc, fields)?,
        })
    }

    fn order(&self, other: &MaterialDecl) -> Ordering {
        self.code.cmp(&other.code)
    }
}

/// Takes what a material holds.
pub(crate) fn take_substances(
    alloc: Global,
    fields: &mut Fields<'_>,
) -> Result<ListOf<SubstanceMass>, FieldFault>
    ensures ok { IfOk result (λ held. substances_in fields.old ≡ Some (held, fields.new)) }
    ensures shape { result ≡ Err FieldFault.Shape → substances_in fields.old ≡ None }
{
    Ok(ListOf::new(rising(alloc, fields, CONTENT_LIMIT as u64)?))
}

/// Takes what is claimed for a material.
pub(crate) fn take_claims(
    alloc: Global,
    fields: &mut Fields<'_>,
) -> Result<ListOf<Claim>, FieldFault>
    ensures ok { IfOk result (λ claims. claims_in fields.old ≡ Some (claims, fields.new)) }
    ensures shape { result ≡ Err FieldFault.Shape → claims_in fields.old ≡ None }
{
    Ok(ListOf::new(rising(alloc, fields, CLAIM_LIMIT as u64)?))
}
