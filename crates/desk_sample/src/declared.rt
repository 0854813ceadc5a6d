ghost use Rattle.std.specs.Prelude.{◌≡◌, ◌≤◌, [], IfOk, Ok, OnOk, is_ok, true};
ghost use Rattle.desk_model.specs.Declaring.{substance_added};
ghost use Rattle.desk_sample.specs.Codes.{material_code};
ghost use Rattle.desk_sample.specs.Sample.{declaration, declaration_edit, declaring, mass_held, metals};
ghost use Rattle.desk_text.specs.Code.{code_of};
ghost use Rattle.desk_text.specs.Name.{name_of};

use crate::codes::{numbered, supplier};
use desk_model::{DeclError, Declaration, Edit};
use desk_text::{Code, Day, Name, NameFault, OutOfMemory};
use std::alloc::Global;

/// The declaration of this number, from 1 to 2,000, as an edit.
pub(crate) fn declared(alloc: Global, number: u64) -> Result<Edit, OutOfMemory>
    requires least { 1 ≤ number }
    requires greatest { number ≤ 2000 }
    ensures { IfOk result (λ edit. edit ≡ declaration_edit number) }
{
    let declaration = declaration(alloc, number)?;
    Ok(Edit::Declare { declaration })
}

/// The declaration of this number: of one material with lead and cadmium, each fifth also with DEHP.
fn declaration(alloc: Global, number: u64) -> Result<Declaration, OutOfMemory>
    requires least { 1 ≤ number }
    requires greatest { number ≤ 2000 }
    ensures { IfOk result (λ made. made ≡ declaration number) }
{
    let material = numbered(b'M', number);
    let mut declaration = with_metals(alloc, material, number)?;
    if number % 5 != 0 {
        return Ok(declaration);
    }
    let dehp = word(b"dehp");
    add(&mut declaration, &material, dehp, number * 53 % 1400)?;
    Ok(declaration)
}

/// The declaration with its material, which holds lead and cadmium.
fn with_metals(alloc: Global, material: Code, number: u64) -> Result<Declaration, OutOfMemory>
    requires least { 1 ≤ number }
    requires greatest { number ≤ 2000 }
    requires code { material ≡ material_code number }
    ensures { IfOk result (λ made. made ≡ declaring number (metals number)) }
{
    let mut declaration = with_material(alloc, material, number)?;
    let (lead, cadmium) = (word(b"lead"), word(b"cadmium"));
    add(&mut declaration, &material, lead, number * 37 % 1500)?;
    add(&mut declaration, &material, cadmium, number * 11 % 130)?;
    Ok(declaration)
}

/// The declaration with its material, which holds nothing yet.
#[tactic(auto, unfolding(desk_model::specs::Declaring::material_added))]
fn with_material(alloc: Global, material: Code, number: u64) -> Result<Declaration, OutOfMemory>
    requires least { 1 ≤ number }
    requires greatest { number ≤ 2000 }
    requires code { material ≡ material_code number }
    ensures { IfOk result (λ made. made ≡ declaring number []) }
{
    let name = name(alloc, "Material")?;
    let day = Day::new(2024, 1, 15);
    let Ok(mut declaration) = Declaration::start(alloc, supplier(number), number, day) else {
        unreachable!();
    };
    match declaration.add_material(material, name, 1_000_000 + number) {
        Ok(()) => Ok(declaration),
        Err(DeclError::OutOfMemory) => Err(OutOfMemory),
        Err(_) => unreachable!(),
    }
}

/// The material holds the substance too.
fn add(
    declaration: &mut Declaration,
    material: &Code,
    substance: Code,
    mass: u64,
) -> Result<(), OutOfMemory>
    requires mass { mass ≤ 1500 }
    requires fits { is_ok (substance_added material.now (mass_held substance mass) declaration.old) ≡ true }
    ensures { OnOk result (substance_added material.now (mass_held substance mass) declaration.old ≡ Ok declaration.new) }
{
    match declaration.add_substance(material, substance, mass) {
        Ok(()) => Ok(()),
        Err(DeclError::OutOfMemory) => Err(OutOfMemory),
        Err(_) => unreachable!(),
    }
}

/// The code that these bytes are.
pub(crate) fn word(bytes: &[u8]) -> Code
    requires { code_of bytes.now ≡ Ok bytes.now }
    ensures { result ≡ bytes.now }
{
    Code::read(bytes).unwrap()
}

/// The name that this text is.
pub(crate) fn name(alloc: Global, text: &str) -> Result<Name, OutOfMemory>
    requires { name_of text.now ≡ Ok text.now }
    ensures { IfOk result (λ name. name ≡ text.now) }
{
    match Name::read(alloc, text.as_bytes()) {
        Ok(name) => Ok(name),
        Err(NameFault::OutOfMemory) => Err(OutOfMemory),
        Err(_) => unreachable!(),
    }
}
