ghost use Rattle.std.specs.Prelude.{◌≡◌, IfOk, true};
ghost use Rattle.desk_text.specs.Code.{code_cmp};
ghost use Rattle.desk_rows.specs.Rows.{with_rows};
ghost use Rattle.desk_tables.specs.Change.{with_change_made};
ghost use Rattle.desk_tables.specs.Sums.{is_of_lines_or_shipments, is_of_sums, with_table};

use crate::{RowChange, Tables};
use desk_model::{CandidateRow, LineRow, MaterialRow, MemberRow, ShipmentRow};
use desk_rows::{Keyed, Table};
use desk_text::OutOfMemory;
use std::alloc::Global;

/// A copy of the one table that a sum is taken over and that an edit changes, as the edit leaves it.
#[derive(Drop)]
pub(crate) enum ChangedTable {
    /// What rules count of substances.
    Members(Table<MemberRow>),
    /// The materials.
    Materials(Table<MaterialRow>),
    /// The lines.
    Lines(Table<LineRow>),
    /// The candidates.
    Candidates(Table<CandidateRow>),
    /// The shipments.
    Shipments(Table<ShipmentRow>),
}

impl Tables {
    /// A copy of the table that the change is of, with the change made. It takes a copy of each row of that table.
    #[tactic(auto, unfolding(crate::specs::Change::with_change_made))]
    pub(crate) fn changed_table(
        &self,
        alloc: Global,
        change: &RowChange,
    ) -> Result<ChangedTable, OutOfMemory>
        requires { is_of_sums change.now ≡ true }
        ensures { IfOk result (λ table. with_table self.now.lists table ≡ with_change_made self.now.lists change.now) }
    {
        match change {
            RowChange::PutMember { row, .. } => {
                let members = self.tables.members.copied_with(alloc, *row)?;
                Ok(ChangedTable::Members(members))
            }
            RowChange::DropMember { substance, rule } => {
                let key = (*substance, rule.number());
                let members = self.tables.members.copied_without(alloc, &key)?;
                Ok(ChangedTable::Members(members))
            }
            RowChange::PutMaterials { rows, .. } => {
                let materials = self.materials_with(alloc, rows.as_slice())?;
                Ok(ChangedTable::Materials(materials))
            }
            RowChange::PutCandidate { row, .. } => {
                let candidates = self.tables.candidates.copied_with(alloc, *row)?;
                Ok(ChangedTable::Candidates(candidates))
            }
            _ => self.changed_bill_table(alloc, change),
        }
    }

    /// The same for a change of lines or shipments.
    #[tactic(auto, unfolding(crate::specs::Change::with_change_made))]
    fn changed_bill_table(
        &self,
        alloc: Global,
        change: &RowChange,
    ) -> Result<ChangedTable, OutOfMemory>
        requires { is_of_lines_or_shipments change.now ≡ true }
        ensures { IfOk result (λ table. with_table self.now.lists table ≡ with_change_made self.now.lists change.now) }
    {
        match change {
            RowChange::PutLine { row, .. } => {
                let lines = self.tables.lines.copied_with(alloc, *row)?;
                Ok(ChangedTable::Lines(lines))
            }
            RowChange::DropLine { parent, child } => {
                let lines = self.tables.lines.copied_without(alloc, &(*parent, *child))?;
                Ok(ChangedTable::Lines(lines))
            }
            RowChange::PutShipment { row, .. } => {
                let shipments = self.tables.shipments.copied_with(alloc, *row)?;
                Ok(ChangedTable::Shipments(shipments))
            }
            RowChange::DropShipment { year, product } => {
                let shipments = self
                    .tables
                    .shipments
                    .copied_without(alloc, &(*year, *product))?;
                Ok(ChangedTable::Shipments(shipments))
            }
            _ => unreachable!(),
        }
    }

    /// A copy of the materials with the rows put in.
    fn materials_with(
        &self,
        alloc: Global,
        rows: &[MaterialRow],
    ) -> Result<Table<MaterialRow>, OutOfMemory>
        ensures { IfOk result (λ table. table.rows ≡ with_rows (λ row. row.code) code_cmp rows.now self.now.lists.materials) }
    {
        let mut materials = self.tables.materials.copied(alloc)?;
        materials.put_all(copied_rows(alloc, rows)?)?;
        Ok(materials)
    }
}

/// The same rows once more.
fn copied_rows(alloc: Global, rows: &[MaterialRow]) -> Result<Vec<MaterialRow>, OutOfMemory>
    ensures { IfOk result (λ copies. copies.items ≡ rows.now) }
{
    let mut copies = Vec::with_capacity(alloc, rows.len())?;
    for row in rows {
        copies.push_reserved(row.copied(alloc)?);
    }
    Ok(copies)
}
