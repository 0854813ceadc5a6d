use crate::{TableName, TableRow};
use desk_rows::Keyed;
use desk_text::{Bytes, OutOfMemory};
use std::alloc::Global;
use std::cmp::Ordering;

/// The ticket of an accepted edit: table 10.
#[derive(Debug, Drop)]
pub struct TicketRow {
    /// The ticket's code, the table's key: `E:TICKET`, or of a declaration `D:SUPPLIER:NUMBER`.
    pub code: Bytes,
    /// The edit's number: 1 for the first accepted edit, and one more for each.
    pub number: u64,
    /// The text of the edit.
    pub text: Bytes,
}

impl Keyed for TicketRow {
    type Key = Bytes;

    ghost key = { λ row. row.code };

    fn compare(&self, sought: &Bytes) -> Ordering {
        self.code.cmp(sought)
    }

    fn compare_row(&self, other: &TicketRow) -> Ordering {
        self.code.cmp(&other.code)
    }

    fn copied(&self, alloc: Global) -> Result<TicketRow, OutOfMemory> {
        Ok(TicketRow {
            code: self.code.copied(alloc)?,
            number: self.number,
            text: self.text.copied(alloc)?,
        })
    }
}

impl TableRow for TicketRow {
    ghost use Rattle.desk_model.specs.declared.row.Row.TheVariants.{Ticket};
    ghost use Rattle.desk_model.specs.declared.table_name.TableName.TheVariants.{Tickets};

    ghost as_row = { Ticket };

    ghost table = { Tickets };

    fn table() -> TableName {
        TableName::Tickets
    }

    #[tactic(auto, unfolding(crate::specs::Rows::record_code))]
    fn code_text(&self, alloc: Global) -> Result<Bytes, OutOfMemory> {
        self.code.copied(alloc)
    }

    #[tactic(auto, unfolding(crate::specs::RowTexts::body_text, crate::specs::RowTexts::body_fields))]
    fn body_text(&self, alloc: Global) -> Result<Bytes, OutOfMemory> {
        let head = format!(in alloc; "1\t{}\t", self.number)?;
        let mut text = Bytes::from(head.into_bytes());
        text.push_all(self.text.as_slice())?;
        Ok(text)
    }
}
