use crate::{TableName, TableRow, code_bytes};
use desk_rows::Keyed;
use desk_text::{Bytes, Cas, Code, Name, OutOfMemory};
use std::alloc::Global;
use std::cmp::Ordering;

/// A substance that materials may hold: table 1.
#[derive(Debug, Drop)]
pub struct SubstanceRow {
    /// The code of the substance, the table's key.
    pub code: Code,
    /// Its name.
    pub name: Name,
    /// Its CAS registry number, if it has one.
    pub cas: Option<Cas>,
}

impl Keyed for SubstanceRow {
    type Key = Code;

    ghost key = { λ row. row.code };

    fn compare(&self, sought: &Code) -> Ordering {
        self.code.cmp(sought)
    }

    fn compare_row(&self, other: &SubstanceRow) -> Ordering {
        self.code.cmp(&other.code)
    }

    fn copied(&self, _alloc: Global) -> Result<SubstanceRow, OutOfMemory> {
        Ok(SubstanceRow {
            code: self.code,
            name: self.name.clone()?,
            cas: self.cas,
        })
    }
}

impl TableRow for SubstanceRow {
    ghost use Rattle.desk_model.specs.declared.row.Row.TheVariants.{Substance};
    ghost use Rattle.desk_model.specs.declared.table_name.TableName.TheVariants.{Substances};

    ghost as_row = { Substance };

    ghost table = { Substances };

    fn table() -> TableName {
        TableName::Substances
    }

    #[tactic(auto, unfolding(crate::specs::Rows::record_code))]
    fn code_text(&self, alloc: Global) -> Result<Bytes, OutOfMemory> {
        code_bytes(alloc, &self.code)
    }

    #[tactic(auto, unfolding(crate::specs::RowTexts::body_text, crate::specs::RowTexts::body_fields))]
    fn body_text(&self, alloc: Global) -> Result<Bytes, OutOfMemory> {
        let text = match self.cas {
            Some(cas) => format!(in alloc; "1\t{}\t{cas}", self.name)?,
            None => format!(in alloc; "1\t{}\t", self.name)?,
        };
        Ok(Bytes::from(text.into_bytes()))
    }
}
