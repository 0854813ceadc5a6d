use crate::model_copy::copy_of;
use crate::model_helpers::{
    add_64_substances, add_claims, add_material, claim, code, declared, name, numbered,
};
use desk_law::Rule;
use desk_model::{DeclError, Declaration, MaterialDecl};
use desk_testing::{check, expect_eq};
use std::alloc::Global;
use std::test::Fail;

/// The first declaration of ACME, of 2 March 2024, without materials.
fn started(alloc: Global) -> Result<Declaration, Fail> {
    declared(alloc, 1, "2024-03-02")
}

/// A declaration of one material, M, of one gram.
fn with_one_material(alloc: Global) -> Result<Declaration, Fail> {
    let material = code("M")?;
    let mut declaration = started(alloc)?;
    add_material(&mut declaration, alloc, material, "Solder", 1_000_000)?;
    Ok(declaration)
}

/// Adds 256 materials, from M0 to M255.
fn add_256(declaration: &mut Declaration, alloc: Global) -> Result<(), Fail> {
    for number in 0..256 {
        let material = numbered(alloc, "M", number)?;
        add_material(declaration, alloc, material, "Steel", 1)?;
    }
    Ok(())
}

/// Fails unless a material of this code is refused by this fault.
fn refuses_material(
    declaration: &mut Declaration,
    alloc: Global,
    text: &str,
    fault: DeclError,
) -> Result<(), Fail> {
    let answer = declaration.add_material(code(text)?, name(alloc, "Steel")?, 1);
    expect_eq(&answer, &Err(fault))
}

/// Fails unless 256 materials can be added, and no other one then.
fn takes_256(declaration: &mut Declaration, alloc: Global) -> Result<(), Fail> {
    add_256(declaration, alloc)?;
    refuses_material(declaration, alloc, "new", DeclError::TooMany)?;
    refuses_material(declaration, alloc, "M255", DeclError::Repeated)?;
    expect_eq(&declaration.materials().len(), &256)
}

#[test]
fn a_declaration_takes_256_materials(rt: HostRuntime) -> Result<(), Fail> {
    let mut declaration = started(rt.alloc())?;
    takes_256(&mut declaration, rt.alloc())
}

/// The claims of a full material.
const CLAIMS: [(Rule, &str); 16] = [
    (Rule::Pbde, "0"),
    (Rule::Pbde, "1"),
    (Rule::Pbde, "2"),
    (Rule::Pbde, "3"),
    (Rule::Pbde, "4"),
    (Rule::Pbde, "5"),
    (Rule::Pbde, "6"),
    (Rule::Pbde, "7"),
    (Rule::Pbde, "8"),
    (Rule::Pbde, "9"),
    (Rule::Pbde, "10"),
    (Rule::Pbde, "11"),
    (Rule::Pbde, "12"),
    (Rule::Pbde, "13"),
    (Rule::Pbde, "14"),
    (Rule::Pbde, "15"),
];

/// Materials and substances, and the fault that refuses each.
const REFUSED_SUBSTANCES: [(&str, &str, DeclError); 3] = [
    ("N", "S0", DeclError::Orphan),
    ("M", "S0", DeclError::Repeated),
    ("M", "new", DeclError::TooMany),
];

/// Materials and rules, and the fault that refuses a claim of number 0 for each.
const REFUSED_CLAIMS: [(&str, Rule, DeclError); 3] = [
    ("N", Rule::Pbde, DeclError::Orphan),
    ("M", Rule::Pbde, DeclError::Repeated),
    ("M", Rule::Lead, DeclError::TooMany),
];

/// Fails unless each substance is refused by its fault, and says of which material and substance it isn't.
fn refuses_substances(
    declaration: &mut Declaration,
    rows: &[(&str, &str, DeclError)],
) -> Result<(), Fail> {
    for (material, substance, fault) in rows {
        let answer = declaration.add_substance(&code(material)?, code(substance)?, 2);
        expect_eq(
            &(material, substance, answer),
            &(material, substance, Err(*fault)),
        )?;
    }
    Ok(())
}

/// Fails unless each claim is refused by its fault, and says of which material and rule it isn't.
fn refuses_claims(
    declaration: &mut Declaration,
    rows: &[(&str, Rule, DeclError)],
) -> Result<(), Fail> {
    for (material, rule, fault) in rows {
        let answer = declaration.add_claim(&code(material)?, claim(*rule, "0")?);
        expect_eq(&(material, rule, answer), &(material, rule, Err(*fault)))?;
    }
    Ok(())
}

/// Whether each material has 64 substances of one microgram and 16 claims.
fn are_full(materials: &[MaterialDecl]) -> bool {
    materials.iter().all(|material| {
        let substances = material.substances.as_slice();
        substances.len() == 64
            && substances.iter().all(|one| one.mass == 1)
            && material.claims.as_slice().len() == 16
    })
}

/// Fails unless M takes 64 substances and 16 claims, and keeps these alone where another one is refused.
fn takes_64_and_16(declaration: &mut Declaration, alloc: Global) -> Result<(), Fail> {
    add_64_substances(declaration, alloc, &code("M")?, 0, 1)?;
    add_claims(declaration, "M", &CLAIMS)?;
    refuses_substances(declaration, &REFUSED_SUBSTANCES)?;
    refuses_claims(declaration, &REFUSED_CLAIMS)?;
    check(are_full(declaration.materials()), "another content")
}

#[test]
fn a_material_takes_64_substances_and_16_claims(rt: HostRuntime) -> Result<(), Fail> {
    let mut declaration = with_one_material(rt.alloc())?;
    takes_64_and_16(&mut declaration, rt.alloc())
}

#[test]
fn a_copied_material_is_the_same(rt: HostRuntime) -> Result<(), Fail> {
    let code = code("M")?;
    let material = MaterialDecl::empty(rt.alloc(), code, name(rt.alloc(), "Steel")?, 9);
    let copy = copy_of(rt.alloc(), material)?;
    expect_eq(
        &(copy.code, copy.name.as_str(), copy.mass),
        &(code, "Steel", 9),
    )
}
