ghost use Rattle.std.specs.Prelude.{◌≡◌, is_some, length, if◌then◌else◌};
ghost use Rattle.desk_rows.specs.Rows.{IsByKey, row_of, with_row, with_rows, without_row};
ghost use Rattle.desk_tables.specs.Change.{IsReady, with_change_made};
ghost use Rattle.desk_tables.specs.Counts.{counts_of};

use crate::{RowChange, Tables};
use desk_rows::{Keyed, place_of_key, place_of_row};

/// How many rows each table has.
#[derive(Clone, Copy)]
pub(crate) struct RowCounts {
    pub(crate) substances: u128,
    pub(crate) members: u128,
    pub(crate) materials: u128,
    pub(crate) parts: u128,
    pub(crate) lines: u128,
    pub(crate) products: u128,
    pub(crate) exemptions: u128,
    pub(crate) candidates: u128,
    pub(crate) shipments: u128,
    pub(crate) tickets: u128,
}

impl Tables {
    /// How many rows each table has.
    pub(crate) fn counts(&self) -> RowCounts
        ensures { result ≡ counts_of self.now.lists }
    {
        RowCounts {
            substances: self.tables.substances.as_slice().len() as u128,
            members: self.tables.members.as_slice().len() as u128,
            materials: self.tables.materials.as_slice().len() as u128,
            parts: self.tables.parts.as_slice().len() as u128,
            lines: self.tables.lines.as_slice().len() as u128,
            products: self.tables.products.as_slice().len() as u128,
            exemptions: self.tables.exemptions.as_slice().len() as u128,
            candidates: self.tables.candidates.as_slice().len() as u128,
            shipments: self.tables.shipments.as_slice().len() as u128,
            tickets: self.tables.tickets.as_slice().len() as u128,
        }
    }

    /// How many rows each table has with the change made.
    #[tactic(auto, unfolding(crate::specs::Change::with_change_made, crate::specs::Change::IsReady))]
    pub(crate) fn counts_with(&self, change: &RowChange) -> RowCounts
        requires { IsReady self.now change.now }
        ensures { result ≡ counts_of (with_change_made self.now.lists change.now) }
    {
        let mut counts = self.counts();
        match change {
            RowChange::PutSubstance { row, .. } => {
                counts.substances = count_with(self.tables.substances.as_slice(), row);
            }
            RowChange::PutMember { row, .. } => {
                counts.members = count_with(self.tables.members.as_slice(), row);
            }
            RowChange::DropMember { substance, rule } => {
                let key = (*substance, rule.number());
                counts.members = count_without(self.tables.members.as_slice(), &key);
            }
            RowChange::PutMaterials { rows, .. } => {
                counts.materials = count_with_all(
                    self.tables.materials.as_slice(),
                    rows.as_slice(),
                );
            }
            RowChange::PutPart { row, .. } => {
                counts.parts = count_with(self.tables.parts.as_slice(), row);
            }
            RowChange::PutLine { row, .. } => {
                counts.lines = count_with(self.tables.lines.as_slice(), row);
            }
            RowChange::DropLine { parent, child } => {
                counts.lines = count_without(self.tables.lines.as_slice(), &(*parent, *child));
            }
            RowChange::PutProduct { row, .. } => {
                counts.products = count_with(self.tables.products.as_slice(), row);
            }
            RowChange::PutExemption { row, .. } => {
                counts.exemptions = count_with(self.tables.exemptions.as_slice(), row);
            }
            RowChange::DropExemption { row } => {
                counts.exemptions = count_without(self.tables.exemptions.as_slice(), row);
            }
            RowChange::PutCandidate { row, .. } => {
                counts.candidates = count_with(self.tables.candidates.as_slice(), row);
            }
            RowChange::PutShipment { row, .. } => {
                counts.shipments = count_with(self.tables.shipments.as_slice(), row);
            }
            RowChange::DropShipment { year, product } => {
                counts.shipments = count_without(
                    self.tables.shipments.as_slice(),
                    &(*year, *product),
                );
            }
        }
        counts
    }
}

/// How many rows there are with this row put in.
pub(crate) fn count_with<R: Keyed>(rows: &[R], row: &R) -> u128
    requires { IsByKey R.key R.Key.cmp rows.now }
    ensures { result ≡ length (with_row R.key R.Key.cmp row.now rows.now) }
{
    match place_of_row(rows, row) {
        Ok(_) => rows.len() as u128,
        Err(_) => rows.len() as u128 + 1,
    }
}

/// How many rows there are without the row of this key.
fn count_without<R: Keyed>(rows: &[R], key: &R::Key) -> u128
    requires { IsByKey R.key R.Key.cmp rows.now }
    ensures { result ≡ length (without_row R.key R.Key.cmp key.now rows.now) }
{
    match place_of_key(rows, key) {
        Ok(_) => rows.len() as u128 - 1,
        Err(_) => rows.len() as u128,
    }
}

/// How many rows there are with each of these rows put in, which stand in order.
fn count_with_all<R: Keyed>(rows: &[R], more: &[R]) -> u128
    requires rows { IsByKey R.key R.Key.cmp rows.now }
    requires more { IsByKey R.key R.Key.cmp more.now }
    ensures { result ≡ length (with_rows R.key R.Key.cmp more.now rows.now) }
{
    let mut count = rows.len() as u128;
    for row in more {
        count += count_of_new(rows, row);
    }
    count
}

/// 1 for a row whose key isn't there, and 0 for any other.
fn count_of_new<R: Keyed>(rows: &[R], row: &R) -> u128
    requires { IsByKey R.key R.Key.cmp rows.now }
    ensures { result ≡ (if is_some (row_of R.key R.Key.cmp (R.key row.now) rows.now) then 0 else 1) }
{
    match place_of_row(rows, row) {
        Ok(_) => 0,
        Err(_) => 1,
    }
}
