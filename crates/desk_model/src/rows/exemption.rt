ghost use Rattle.std.specs.Prelude.{◌≡◌, ◌∷◌, drop, IfOk, string_bytes};
ghost use Rattle.desk_model.specs.EditText.{exemption_fields, joined};
ghost use Rattle.desk_model.specs.RowTexts.{version};

use crate::edit_text::optional_number;
use crate::{TableName, TableRow, code_bytes};
use desk_law::Terms;
use desk_rows::Keyed;
use desk_text::{Bytes, Code, Name, OutOfMemory};
use std::alloc::{AllocError, Global};
use std::cmp::Ordering;

/// An exemption of Annex III or IV to Directive 2011/65/EU: table 7.
#[derive(Debug, Drop)]
pub struct ExemptionRow {
    /// Its terms, whose row code is the table's key.
    pub terms: Terms,
    /// What the exemption is for, in the words of the annex.
    pub application: Name,
}

impl Keyed for ExemptionRow {
    type Key = Code;

    ghost key = { λ row. row.terms.row };

    fn compare(&self, sought: &Code) -> Ordering {
        self.terms.row.cmp(sought)
    }

    fn compare_row(&self, other: &ExemptionRow) -> Ordering {
        self.terms.row.cmp(&other.terms.row)
    }

    fn copied(&self, _alloc: Global) -> Result<ExemptionRow, OutOfMemory> {
        Ok(ExemptionRow {
            terms: self.terms,
            application: self.application.clone()?,
        })
    }
}

impl TableRow for ExemptionRow {
    ghost use Rattle.desk_model.specs.declared.row.Row.TheVariants.{Exemption};
    ghost use Rattle.desk_model.specs.declared.table_name.TableName.TheVariants.{Exemptions};

    ghost as_row = { Exemption };

    ghost table = { Exemptions };

    fn table() -> TableName {
        TableName::Exemptions
    }

    #[tactic(auto, unfolding(crate::specs::Rows::record_code))]
    fn code_text(&self, alloc: Global) -> Result<Bytes, OutOfMemory> {
        code_bytes(alloc, &self.terms.row)
    }

    #[tactic(auto, unfolding(crate::specs::RowTexts::body_text, crate::specs::RowTexts::body_fields))]
    fn body_text(&self, alloc: Global) -> Result<Bytes, OutOfMemory> {
        let text = text_of(alloc, self)?;
        Ok(Bytes::from(text.into_bytes()))
    }
}

/// The text of an exemption.
fn text_of(alloc: Global, row: &ExemptionRow) -> Result<String, AllocError>
    ensures { IfOk result (λ text. string_bytes text ≡ joined (version ∷ drop 1 (exemption_fields row.now))) }
{
    let terms = row.terms;
    let application = &row.application;
    let floor = optional_number(alloc, terms.floor)?;
    let cap = optional_number(alloc, terms.cap)?;
    let (annex, number, rule) = (terms.annex, terms.number, terms.rule);
    let (kinds, first, last) = (terms.kinds, terms.first, terms.last);
    Ok(format!(in alloc;
        "1\t{annex}\t{number}\t{rule}\t{kinds}\t{first}\t{last}\t{floor}\t{cap}\t{application}"
    )?)
}
