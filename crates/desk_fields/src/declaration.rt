ghost use Rattle.std.specs.Prelude.{◌≡◌, ◌≢◌, Err, IfErr, IfOk, None, Ok, OnOk, Some, nat_le, true};
ghost use Rattle.std.specs.List.{list_all};
ghost use Rattle.desk_model.specs.declared.limits.TheConstants.{MASS_LIMIT};
ghost use Rattle.desk_model.specs.Content.{is_content};
ghost use Rattle.desk_model.specs.Declaration.{is_declaration_in_form};
ghost use Rattle.desk_fields.specs.Declaring.{claims_added, declared_by, material_entered};
ghost use Rattle.desk_fields.specs.Declaring.{materials_entered, substances_added};
ghost use Rattle.desk_fields.specs.EditReading.{declared_in};

use crate::field_fault::FieldFault;
use crate::fields::Fields;
use crate::items::rising;
use desk_law::Claim;
use desk_model::limits::DECLARED_LIMIT;
use desk_model::{DeclError, Declaration, MaterialDecl, SubstanceMass};
use desk_text::{Code, Day};
use std::alloc::Global;

/// What a declaration's fields say.
#[derive(Drop)]
struct Listed {
    supplier: Code,
    number: u64,
    day: Day,
    materials: Vec<MaterialDecl>,
}

/// The declaration that the fields begin with.
pub(crate) fn read_declaration(
    alloc: Global,
    fields: &mut Fields<'_>,
) -> Result<Declaration, FieldFault>
    ensures ok { IfOk result (λ declaration. declared_in fields.old ≡ Some (declaration, fields.new)) }
    ensures shape { result ≡ Err FieldFault.Shape → declared_in fields.old ≡ None }
{
    let listed = read_listed(alloc, fields)?;
    declaration_of(alloc, listed)
}

/// What the fields say that a declaration begins with.
#[tactic(auto, unfolding(crate::specs::EditReading::declared_in))]
fn read_listed(alloc: Global, fields: &mut Fields<'_>) -> Result<Listed, FieldFault>
    ensures ok { IfOk result (λ listed. declared_in fields.old ≡ Some (declared_by listed, fields.new)) }
    ensures shape { result ≡ Err FieldFault.Shape → declared_in fields.old ≡ None }
{
    Ok(Listed {
        supplier: fields.take()?,
        number: fields.take_number(1, u64::MAX)?,
        day: fields.take()?,
        materials: rising(alloc, fields, DECLARED_LIMIT as u64)?,
    })
}

/// The declaration that is in form.
fn declaration_of(alloc: Global, listed: Listed) -> Result<Declaration, FieldFault>
    requires { is_declaration_in_form (declared_by listed) ≡ true }
    ensures value { IfOk result (λ declaration. declaration ≡ declared_by listed) }
    ensures memory { result ≢ Err FieldFault.Shape }
{
    let Listed {
        supplier,
        number,
        day,
        materials,
    } = listed;
    let mut declaration = Declaration::start(alloc, supplier, number, day)?;
    enter_materials(&mut declaration, materials)?;
    Ok(declaration)
}

/// Adds each of the materials.
fn enter_materials(
    declaration: &mut Declaration,
    materials: Vec<MaterialDecl>,
) -> Result<(), DeclError>
    requires { list_all (λ m. is_content m.mass m.substances m.claims) materials.items ≡ true }
    ensures ok { OnOk result (materials_entered materials.items declaration.old ≡ Ok declaration.new) }
    ensures error { IfErr result (λ e. e ≢ DeclError.OutOfMemory
        → materials_entered materials.items declaration.old ≡ Err e) }
{
    for material in materials {
        enter_material(declaration, material)?;
    }
    Ok(())
}

/// Adds a material with all that it holds.
#[tactic(auto, unfolding(crate::specs::Declaring::material_entered))]
fn enter_material(declaration: &mut Declaration, material: MaterialDecl) -> Result<(), DeclError>
    requires { is_content material.mass material.substances material.claims ≡ true }
    ensures ok { OnOk result (material_entered material declaration.old ≡ Ok declaration.new) }
    ensures error { IfErr result (λ e. e ≢ DeclError.OutOfMemory
        → material_entered material declaration.old ≡ Err e) }
{
    let MaterialDecl {
        code,
        name,
        mass,
        substances,
        claims,
    } = material;
    declaration.add_material(code, name, mass)?;
    enter_substances(declaration, &code, substances.as_slice())?;
    enter_claims(declaration, &code, claims.as_slice())
}

/// Adds substances to a material.
fn enter_substances(
    declaration: &mut Declaration,
    code: &Code,
    substances: &[SubstanceMass],
) -> Result<(), DeclError>
    requires { list_all (λ one. nat_le one.mass MASS_LIMIT) substances.now ≡ true }
    ensures ok { OnOk result (substances_added code.now substances.now declaration.old ≡ Ok declaration.new) }
    ensures error { IfErr result (λ e. e ≢ DeclError.OutOfMemory
        → substances_added code.now substances.now declaration.old ≡ Err e) }
{
    for held in substances {
        declaration.add_substance(code, held.substance, held.mass)?;
    }
    Ok(())
}

/// Adds claims for a material.
fn enter_claims(
    declaration: &mut Declaration,
    code: &Code,
    claims: &[Claim],
) -> Result<(), DeclError>
    ensures ok { OnOk result (claims_added code.now claims.now declaration.old ≡ Ok declaration.new) }
    ensures error { IfErr result (λ e. e ≢ DeclError.OutOfMemory
        → claims_added code.now claims.now declaration.old ≡ Err e) }
{
    for claim in claims {
        declaration.add_claim(code, *claim)?;
    }
    Ok(())
}
