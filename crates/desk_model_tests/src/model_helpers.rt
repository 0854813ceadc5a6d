ghost use Rattle.std.specs.Prelude.{◌≤◌};

use desk_law::{Claim, Rule};
use desk_model::Declaration;
use desk_text::{Code, Day, ExemptionNumber, Name};
use std::alloc::Global;
use std::test::Fail;

/// The code of this text.
pub(crate) fn code(text: &str) -> Result<Code, Fail> {
    Ok(Code::read(text.as_bytes())?)
}

/// The code of a letter and a number, such as S7.
pub(crate) fn numbered(alloc: Global, letter: &str, number: u32) -> Result<Code, Fail> {
    let text = format!(in alloc; "{letter}{number}")?;
    code(text.as_str())
}

/// The name of this text.
pub(crate) fn name(alloc: Global, text: &str) -> Result<Name, Fail> {
    Ok(Name::read(alloc, text.as_bytes())?)
}

/// The day of this text.
pub(crate) fn day(text: &str) -> Result<Day, Fail> {
    Ok(Day::read(text.as_bytes())?)
}

/// The claim of the exemption of this rule and number.
pub(crate) fn claim(rule: Rule, number: &str) -> Result<Claim, Fail> {
    let number = ExemptionNumber::read(number.as_bytes())?;
    Ok(Claim { rule, number })
}

/// A declaration of ACME of this number and day, without materials.
pub(crate) fn declared(alloc: Global, number: u64, text: &str) -> Result<Declaration, Fail>
    requires { 1 ≤ number }
{
    let (supplier, day) = (code("ACME")?, day(text)?);
    Ok(Declaration::start(alloc, supplier, number, day)?)
}

/// Adds a material of this name and mass.
pub(crate) fn add_material(
    declaration: &mut Declaration,
    alloc: Global,
    material: Code,
    text: &str,
    mass: u32,
) -> Result<(), Fail>
    requires { 1 ≤ mass }
{
    declaration.add_material(material, name(alloc, text)?, u64::from(mass))?;
    Ok(())
}

/// Adds 64 substances of this mass to a material, whose numbers go on from the first one.
pub(crate) fn add_64_substances(
    declaration: &mut Declaration,
    alloc: Global,
    material: &Code,
    first: u32,
    mass: u32,
) -> Result<(), Fail> {
    for number in first..first.saturating_add(64) {
        let substance = numbered(alloc, "S", number)?;
        declaration.add_substance(material, substance, u64::from(mass))?;
    }
    Ok(())
}

/// Adds claims for a material.
pub(crate) fn add_claims(
    declaration: &mut Declaration,
    material: &str,
    rows: &[(Rule, &str)],
) -> Result<(), Fail> {
    for (rule, number) in rows {
        declaration.add_claim(&code(material)?, claim(*rule, number)?)?;
    }
    Ok(())
}
