use crate::{TableName, TableRow, pair_code};
use desk_rows::{Grouped, Keyed};
use desk_text::{Bytes, Code, OutOfMemory};
use std::alloc::Global;
use std::cmp::Ordering;

/// A line of the bill of materials: table 5.
#[derive(Clone, Copy, Debug, PartialEq, Eq)]
pub struct LineRow {
    /// The part that the line is of, the key's first part.
    pub parent: Code,
    /// The material or part that it leads to, the key's second part.
    pub child: Code,
    /// How many of the child one of the parent holds: 1 to 1,000,000.
    pub count: u32,
}

impl Keyed for LineRow {
    type Key = (Code, Code);

    ghost key = { λ row. (row.parent, row.child) };

    fn compare(&self, sought: &(Code, Code)) -> Ordering {
        (self.parent, self.child).cmp(sought)
    }

    fn compare_row(&self, other: &LineRow) -> Ordering {
        (self.parent, self.child).cmp(&(other.parent, other.child))
    }

    fn copied(&self, _alloc: Global) -> Result<LineRow, OutOfMemory> {
        Ok(*self)
    }
}

impl TableRow for LineRow {
    ghost use Rattle.desk_model.specs.declared.row.Row.TheVariants.{Line};
    ghost use Rattle.desk_model.specs.declared.table_name.TableName.TheVariants.{Lines};

    ghost as_row = { Line };

    ghost table = { Lines };

    fn table() -> TableName {
        TableName::Lines
    }

    #[tactic(auto, unfolding(crate::specs::Rows::record_code))]
    fn code_text(&self, alloc: Global) -> Result<Bytes, OutOfMemory> {
        pair_code(alloc, self.parent.as_bytes(), self.child.as_bytes())
    }

    #[tactic(auto, unfolding(crate::specs::RowTexts::body_text, crate::specs::RowTexts::body_fields))]
    fn body_text(&self, alloc: Global) -> Result<Bytes, OutOfMemory> {
        let text = format!(in alloc; "1\t{}", self.count)?;
        Ok(Bytes::from(text.into_bytes()))
    }
}

/// The lines of one parent stand together.
impl Grouped for LineRow {
    type Group = Code;

    ghost group = { λ row. row.parent };

    fn compare_group(&self, sought: &Code) -> Ordering {
        self.parent.cmp(sought)
    }
}
