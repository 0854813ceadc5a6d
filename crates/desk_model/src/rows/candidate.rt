use crate::{TableName, TableRow, code_bytes};
use desk_rows::Keyed;
use desk_text::{Bytes, Code, Day, OutOfMemory};
use std::alloc::Global;
use std::cmp::Ordering;

/// A substance of the candidate list of Article 59 of Regulation (EC) 1907/2006: table 8.
#[derive(Clone, Copy, Debug, PartialEq, Eq)]
pub struct CandidateRow {
    /// The code of the substance, the table's key.
    pub substance: Code,
    /// The day of its inclusion.
    pub day: Day,
}

impl Keyed for CandidateRow {
    type Key = Code;

    ghost key = { λ row. row.substance };

    fn compare(&self, sought: &Code) -> Ordering {
        self.substance.cmp(sought)
    }

    fn compare_row(&self, other: &CandidateRow) -> Ordering {
        self.substance.cmp(&other.substance)
    }

    fn copied(&self, _alloc: Global) -> Result<CandidateRow, OutOfMemory> {
        Ok(*self)
    }
}

impl TableRow for CandidateRow {
    ghost use Rattle.desk_model.specs.declared.row.Row.TheVariants.{Candidate};
    ghost use Rattle.desk_model.specs.declared.table_name.TableName.TheVariants.{Candidates};

    ghost as_row = { Candidate };

    ghost table = { Candidates };

    fn table() -> TableName {
        TableName::Candidates
    }

    #[tactic(auto, unfolding(crate::specs::Rows::record_code))]
    fn code_text(&self, alloc: Global) -> Result<Bytes, OutOfMemory> {
        code_bytes(alloc, &self.substance)
    }

    #[tactic(auto, unfolding(crate::specs::RowTexts::body_text, crate::specs::RowTexts::body_fields))]
    fn body_text(&self, alloc: Global) -> Result<Bytes, OutOfMemory> {
        let text = format!(in alloc; "1\t{}", self.day)?;
        Ok(Bytes::from(text.into_bytes()))
    }
}
