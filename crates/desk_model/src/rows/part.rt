use crate::{PartSort, TableName, TableRow, code_bytes};
use desk_rows::Keyed;
use desk_text::{Bytes, Code, Name, OutOfMemory};
use std::alloc::Global;
use std::cmp::Ordering;

/// A part of the bill of materials: table 4.
#[derive(Debug, Drop)]
pub struct PartRow {
    /// The code of the part, the table's key.
    pub code: Code,
    /// Whether it is an article or an assembly.
    pub sort: PartSort,
    /// Its name.
    pub name: Name,
}

impl Keyed for PartRow {
    type Key = Code;

    ghost key = { λ row. row.code };

    fn compare(&self, sought: &Code) -> Ordering {
        self.code.cmp(sought)
    }

    fn compare_row(&self, other: &PartRow) -> Ordering {
        self.code.cmp(&other.code)
    }

    fn copied(&self, _alloc: Global) -> Result<PartRow, OutOfMemory> {
        Ok(PartRow {
            code: self.code,
            sort: self.sort,
            name: self.name.clone()?,
        })
    }
}

impl TableRow for PartRow {
    ghost use Rattle.desk_model.specs.declared.row.Row.TheVariants.{Part};
    ghost use Rattle.desk_model.specs.declared.table_name.TableName.TheVariants.{Parts};

    ghost as_row = { Part };

    ghost table = { Parts };

    fn table() -> TableName {
        TableName::Parts
    }

    #[tactic(auto, unfolding(crate::specs::Rows::record_code))]
    fn code_text(&self, alloc: Global) -> Result<Bytes, OutOfMemory> {
        code_bytes(alloc, &self.code)
    }

    #[tactic(auto, unfolding(crate::specs::RowTexts::body_text, crate::specs::RowTexts::body_fields))]
    fn body_text(&self, alloc: Global) -> Result<Bytes, OutOfMemory> {
        let text = format!(in alloc; "1\t{}\t{}", self.sort, self.name)?;
        Ok(Bytes::from(text.into_bytes()))
    }
}
