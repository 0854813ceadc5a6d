use crate::{TableName, TableRow, code_bytes};
use desk_law::Kind;
use desk_rows::Keyed;
use desk_text::{Bytes, Code, OutOfMemory};
use std::alloc::Global;
use std::cmp::Ordering;

/// A part that is placed on the market as equipment: table 6.
#[derive(Clone, Copy, Debug, PartialEq, Eq)]
pub struct ProductRow {
    /// The code of the part, the table's key.
    pub part: Code,
    /// The kind of equipment that it is.
    pub kind: Kind,
}

impl Keyed for ProductRow {
    type Key = Code;

    ghost key = { λ row. row.part };

    fn compare(&self, sought: &Code) -> Ordering {
        self.part.cmp(sought)
    }

    fn compare_row(&self, other: &ProductRow) -> Ordering {
        self.part.cmp(&other.part)
    }

    fn copied(&self, _alloc: Global) -> Result<ProductRow, OutOfMemory> {
        Ok(*self)
    }
}

impl TableRow for ProductRow {
    ghost use Rattle.desk_model.specs.declared.row.Row.TheVariants.{Product};
    ghost use Rattle.desk_model.specs.declared.table_name.TableName.TheVariants.{Products};

    ghost as_row = { Product };

    ghost table = { Products };

    fn table() -> TableName {
        TableName::Products
    }

    #[tactic(auto, unfolding(crate::specs::Rows::record_code))]
    fn code_text(&self, alloc: Global) -> Result<Bytes, OutOfMemory> {
        code_bytes(alloc, &self.part)
    }

    #[tactic(auto, unfolding(crate::specs::RowTexts::body_text, crate::specs::RowTexts::body_fields))]
    fn body_text(&self, alloc: Global) -> Result<Bytes, OutOfMemory> {
        let text = format!(in alloc; "1\t{}", self.kind)?;
        Ok(Bytes::from(text.into_bytes()))
    }
}
