ghost use Rattle.std.specs.Prelude.{◌≡◌, IfOk, OnErr, OnOk};
ghost use Rattle.desk_model.specs.PutRows.{put_in};
ghost use Rattle.desk_tables.specs.Desk.{desk_of};
ghost use Rattle.desk_tables.specs.Gathered.{no_rows};

use desk_model::{
    CandidateRow, ExemptionRow, LineRow, MaterialRow, MemberRow, PartRow, ProductRow, Row,
    ShipmentRow, SubstanceRow, TicketRow,
};
use desk_rows::Table;
use desk_text::OutOfMemory;
use std::alloc::Global;

/// The rows of the ten tables, which tables and what is gathered for them hold alike.
pub(crate) struct TenTables {
    pub(crate) substances: Table<SubstanceRow>,
    pub(crate) members: Table<MemberRow>,
    pub(crate) materials: Table<MaterialRow>,
    pub(crate) parts: Table<PartRow>,
    pub(crate) lines: Table<LineRow>,
    pub(crate) products: Table<ProductRow>,
    pub(crate) exemptions: Table<ExemptionRow>,
    pub(crate) candidates: Table<CandidateRow>,
    pub(crate) shipments: Table<ShipmentRow>,
    pub(crate) tickets: Table<TicketRow>,
}

// Written out, so that a function that owns one does not prove anew how each part is dropped.
impl Drop for TenTables {
    fn drop(self) {
        let TenTables {
            substances: _,
            members: _,
            materials: _,
            parts: _,
            lines: _,
            products: _,
            exemptions: _,
            candidates: _,
            shipments: _,
            tickets: _,
        } = self;
    }
}

impl TenTables {
    /// No rows. It takes no memory yet.
    pub(crate) fn new(alloc: Global) -> TenTables
        ensures { (desk_of result).lists ≡ no_rows }
    {
        TenTables {
            substances: Table::new(alloc),
            members: Table::new(alloc),
            materials: Table::new(alloc),
            parts: Table::new(alloc),
            lines: Table::new(alloc),
            products: Table::new(alloc),
            exemptions: Table::new(alloc),
            candidates: Table::new(alloc),
            shipments: Table::new(alloc),
            tickets: Table::new(alloc),
        }
    }

    /// Puts the row in its place in its table, where it replaces the one of its key, if there is one. A binary search finds the place,
    /// and the rows behind it are moved.
    ///
    /// `OutOfMemory`: none was left for the row, and nothing was put in.
    pub(crate) fn put(&mut self, row: Row) -> Result<(), OutOfMemory>
        ensures ok { OnOk result ((desk_of self.new).lists ≡ put_in row (desk_of self.old).lists) }
        ensures err { OnErr result ((desk_of self.new).lists ≡ (desk_of self.old).lists) }
    {
        match row {
            Row::Substance(row) => self.substances.put(row),
            Row::Member(row) => self.members.put(row),
            Row::Material(row) => self.materials.put(row),
            Row::Part(row) => self.parts.put(row),
            Row::Line(row) => self.lines.put(row),
            Row::Product(row) => self.products.put(row),
            Row::Exemption(row) => self.exemptions.put(row),
            Row::Candidate(row) => self.candidates.put(row),
            Row::Shipment(row) => self.shipments.put(row),
            Row::Ticket(row) => self.tickets.put(row),
        }
    }

    /// The same rows once more.
    ///
    /// `OutOfMemory`: none was left for the copy.
    pub(crate) fn copied(&self, alloc: Global) -> Result<TenTables, OutOfMemory>
        ensures { IfOk result (λ copy. (desk_of copy).lists ≡ (desk_of self.now).lists) }
    {
        Ok(TenTables {
            substances: self.substances.copied(alloc)?,
            members: self.members.copied(alloc)?,
            materials: self.materials.copied(alloc)?,
            parts: self.parts.copied(alloc)?,
            lines: self.lines.copied(alloc)?,
            products: self.products.copied(alloc)?,
            exemptions: self.exemptions.copied(alloc)?,
            candidates: self.candidates.copied(alloc)?,
            shipments: self.shipments.copied(alloc)?,
            tickets: self.tickets.copied(alloc)?,
        })
    }
}
