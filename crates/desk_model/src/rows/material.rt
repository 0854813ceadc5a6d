ghost use Rattle.std.specs.Prelude.{◌≡◌, ◌∷◌, IfOk, string_bytes};
ghost use Rattle.desk_model.specs.EditText.{joined};
ghost use Rattle.desk_model.specs.RowTexts.{material_row_fields, version};

use crate::{ListOf, SubstanceMass, TableName, TableRow, code_bytes, push_claims, push_substances};
use desk_law::Claim;
use desk_rows::Keyed;
use desk_text::{Bytes, Code, Day, Name, OutOfMemory};
use std::alloc::{AllocError, Global};
use std::cmp::Ordering;

/// A homogeneous material as its supplier declared it: table 3.
#[derive(Debug, Drop)]
pub struct MaterialRow {
    /// The code of the material, the table's key.
    pub code: Code,
    /// The supplier that declared it.
    pub supplier: Code,
    /// The number of the declaration, at least 1.
    pub number: u64,
    /// The day of the declaration.
    pub day: Day,
    /// Its name.
    pub name: Name,
    /// Its mass in micrograms, from 1 to 1,000,000,000,000,000.
    pub mass: u64,
    /// The substances that it holds, in order of code, each once: at most 64.
    pub substances: ListOf<SubstanceMass>,
    /// The exemptions that its supplier claims, in order of rule and then number, each once: at most 16.
    pub claims: ListOf<Claim>,
}

impl Keyed for MaterialRow {
    type Key = Code;

    ghost key = { λ row. row.code };

    fn compare(&self, sought: &Code) -> Ordering {
        self.code.cmp(sought)
    }

    fn compare_row(&self, other: &MaterialRow) -> Ordering {
        self.code.cmp(&other.code)
    }

    fn copied(&self, alloc: Global) -> Result<MaterialRow, OutOfMemory> {
        Ok(MaterialRow {
            code: self.code,
            supplier: self.supplier,
            number: self.number,
            day: self.day,
            name: self.name.clone()?,
            mass: self.mass,
            substances: ListOf::new(self.substances.as_slice().to_vec(alloc)?),
            claims: ListOf::new(self.claims.as_slice().to_vec(alloc)?),
        })
    }
}

impl TableRow for MaterialRow {
    ghost use Rattle.desk_model.specs.declared.row.Row.TheVariants.{Material};
    ghost use Rattle.desk_model.specs.declared.table_name.TableName.TheVariants.{Materials};

    ghost as_row = { Material };

    ghost table = { Materials };

    fn table() -> TableName {
        TableName::Materials
    }

    #[tactic(auto, unfolding(crate::specs::Rows::record_code))]
    fn code_text(&self, alloc: Global) -> Result<Bytes, OutOfMemory> {
        code_bytes(alloc, &self.code)
    }

    #[tactic(auto, unfolding(crate::specs::RowTexts::body_text, crate::specs::RowTexts::body_fields))]
    fn body_text(&self, alloc: Global) -> Result<Bytes, OutOfMemory> {
        let text = text_of(alloc, self)?;
        Ok(Bytes::from(text.into_bytes()))
    }
}

/// The text of a material.
fn text_of(alloc: Global, row: &MaterialRow) -> Result<String, AllocError>
    ensures { IfOk result (λ text. string_bytes text ≡ joined (version ∷ material_row_fields row.now)) }
{
    let (supplier, number, day, name, mass) = (
        &row.supplier,
        row.number,
        row.day,
        &row.name,
        row.mass,
    );
    let mut text = format!(in alloc; "1\t{supplier}\t{number}\t{day}\t{name}\t{mass}")?;
    push_substances(alloc, &mut text, row.substances.as_slice())?;
    push_claims(alloc, &mut text, row.claims.as_slice())?;
    Ok(text)
}
