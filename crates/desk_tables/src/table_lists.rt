ghost use Rattle.std.specs.Prelude.{◌≡◌};
ghost use Rattle.desk_tables.specs.Sums.{with_table};

use crate::Tables;
use crate::changed_table::ChangedTable;
use desk_model::{CandidateRow, LineRow, MaterialRow, MemberRow, PartRow, ShipmentRow};
use std::marker::Model;

/// The ten lists of tables, lent together: those of tables as they stand, or with a changed table in the place of theirs, as an edit
/// would leave them. Contracts see the lists.
#[derive(Drop)]
pub struct TableLists<'a> {
    kept: &'a Tables,
    changed: Option<&'a ChangedTable>,
}

impl<'a> Model for TableLists<'a> {
    ghost use Rattle.std.specs.Option.{option_map_or};
    ghost use Rattle.desk_model.specs.Lists.{Lists};
    ghost use Rattle.desk_tables.specs.Sums.{with_table};

    ghost Value = { Lists };

    ghost view = { λ l. option_map_or (λ table. with_table l.kept.now.lists table.now) l.changed l.kept.now.lists };
}

impl Tables {
    /// The ten lists, lent together.
    pub fn lists(&self) -> TableLists<'_>
        ensures { result ≡ self.now.lists }
    {
        TableLists {
            kept: self,
            changed: None,
        }
    }

    /// The lists with the changed table in the place of theirs.
    pub(crate) fn lists_with<'a>(&'a self, table: &'a ChangedTable) -> TableLists<'a>
        ensures { result ≡ with_table self.now.lists table.now }
    {
        TableLists {
            kept: self,
            changed: Some(table),
        }
    }
}

impl<'a> TableLists<'a> {
    /// The members.
    pub fn members(&self) -> &'a [MemberRow]
        ensures { result.now ≡ self.now.members }
    {
        match self.changed {
            Some(ChangedTable::Members(members)) => members.as_slice(),
            _ => self.kept.members(),
        }
    }

    /// The materials.
    pub fn materials(&self) -> &'a [MaterialRow]
        ensures { result.now ≡ self.now.materials }
    {
        match self.changed {
            Some(ChangedTable::Materials(materials)) => materials.as_slice(),
            _ => self.kept.materials(),
        }
    }

    /// The parts.
    pub fn parts(&self) -> &'a [PartRow]
        ensures { result.now ≡ self.now.parts }
    {
        self.kept.parts()
    }

    /// The lines.
    pub fn lines(&self) -> &'a [LineRow]
        ensures { result.now ≡ self.now.lines }
    {
        match self.changed {
            Some(ChangedTable::Lines(lines)) => lines.as_slice(),
            _ => self.kept.lines(),
        }
    }

    /// The candidates.
    pub fn candidates(&self) -> &'a [CandidateRow]
        ensures { result.now ≡ self.now.candidates }
    {
        match self.changed {
            Some(ChangedTable::Candidates(candidates)) => candidates.as_slice(),
            _ => self.kept.candidates(),
        }
    }

    /// The shipments.
    pub fn shipments(&self) -> &'a [ShipmentRow]
        ensures { result.now ≡ self.now.shipments }
    {
        match self.changed {
            Some(ChangedTable::Shipments(shipments)) => shipments.as_slice(),
            _ => self.kept.shipments(),
        }
    }
}
