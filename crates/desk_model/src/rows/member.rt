ghost use Rattle.desk_law.specs.Rule.{rule_number};

use crate::{TableName, TableRow, pair_code};
use desk_law::Rule;
use desk_rows::{Grouped, Keyed};
use desk_text::{Bytes, Code, OutOfMemory};
use std::alloc::Global;
use std::cmp::Ordering;

/// What a rule counts of a substance: table 2. What has no row counts nothing.
#[derive(Clone, Copy, Debug, PartialEq, Eq)]
pub struct MemberRow {
    /// The substance, the key's first part.
    pub substance: Code,
    /// The rule, the key's second part.
    pub rule: Rule,
    /// How much of the substance's mass the rule counts, in millionths: 1 to 1,000,000.
    pub factor: u32,
}

impl Keyed for MemberRow {
    type Key = (Code, u8);

    ghost key = { λ row. (row.substance, rule_number row.rule) };

    fn compare(&self, sought: &(Code, u8)) -> Ordering {
        (self.substance, self.rule.number()).cmp(sought)
    }

    fn compare_row(&self, other: &MemberRow) -> Ordering {
        (self.substance, self.rule.number()).cmp(&(other.substance, other.rule.number()))
    }

    fn copied(&self, _alloc: Global) -> Result<MemberRow, OutOfMemory> {
        Ok(*self)
    }
}

impl TableRow for MemberRow {
    ghost use Rattle.desk_model.specs.declared.row.Row.TheVariants.{Member};
    ghost use Rattle.desk_model.specs.declared.table_name.TableName.TheVariants.{Members};

    ghost as_row = { Member };

    ghost table = { Members };

    fn table() -> TableName {
        TableName::Members
    }

    #[tactic(auto, unfolding(crate::specs::Rows::record_code))]
    fn code_text(&self, alloc: Global) -> Result<Bytes, OutOfMemory> {
        pair_code(
            alloc,
            self.substance.as_bytes(),
            self.rule.code().as_bytes(),
        )
    }

    #[tactic(auto, unfolding(crate::specs::RowTexts::body_text, crate::specs::RowTexts::body_fields))]
    fn body_text(&self, alloc: Global) -> Result<Bytes, OutOfMemory> {
        let text = format!(in alloc; "1\t{}", self.factor)?;
        Ok(Bytes::from(text.into_bytes()))
    }
}

/// The members of one substance stand together.
impl Grouped for MemberRow {
    type Group = Code;

    ghost group = { λ row. row.substance };

    fn compare_group(&self, sought: &Code) -> Ordering {
        self.substance.cmp(sought)
    }
}
