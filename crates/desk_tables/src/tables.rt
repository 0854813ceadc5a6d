ghost use Rattle.std.specs.Prelude.{◌≡◌, IfOk, length};
ghost use Rattle.desk_model.specs.Lists.{IsOrdered};

use crate::ten_tables::TenTables;
use desk_model::{
    CandidateRow, ExemptionRow, LineRow, MaterialRow, MemberRow, PartRow, ProductRow, ShipmentRow,
    SubstanceRow, TicketRow,
};
use desk_text::OutOfMemory;
use std::alloc::Global;
use std::marker::Model;

/// The desk's ten tables. Contracts see their lists, and how many more rows each takes without memory. That the lists make sense
/// is a condition of the calls that need it, and no fact of the type: gathered tables are yet to be tested.
#[derive(Drop)]
pub struct Tables {
    pub(crate) tables: TenTables,
    /// How many bytes the texts of all tickets have together.
    pub(crate) text: u128,
}

impl Model for Tables {
    ghost use Rattle.std.specs.Prelude.{◌≡◌, length, sum_by};
    ghost use Rattle.desk_tables.specs.Desk.{Desk, desk_of};

    ghost Value = { Desk };

    ghost view = { λ t. desk_of t.tables };

    ghost invariant = { λ t. t.text ≡ sum_by (λ ticket. length ticket.text) t.tables.tickets.rows };
}

impl Tables {
    /// How many edits were accepted: the number of tickets.
    pub fn number(&self) -> u64
        ensures { result ≡ length self.now.lists.tickets }
    {
        self.tables.tickets.as_slice().len() as u64
    }

    /// The substances, in order of code.
    pub fn substances(&self) -> &[SubstanceRow]
        ensures { result.now ≡ self.now.lists.substances }
    {
        self.tables.substances.as_slice()
    }

    /// What rules count of substances, in order of substance and then of the rule's number.
    pub fn members(&self) -> &[MemberRow]
        ensures { result.now ≡ self.now.lists.members }
    {
        self.tables.members.as_slice()
    }

    /// The materials, in order of code.
    pub fn materials(&self) -> &[MaterialRow]
        ensures { result.now ≡ self.now.lists.materials }
    {
        self.tables.materials.as_slice()
    }

    /// The parts, in order of code.
    pub fn parts(&self) -> &[PartRow]
        ensures { result.now ≡ self.now.lists.parts }
    {
        self.tables.parts.as_slice()
    }

    /// The lines of the bill of materials, in order of parent and then of child.
    pub fn lines(&self) -> &[LineRow]
        ensures { result.now ≡ self.now.lists.lines }
    {
        self.tables.lines.as_slice()
    }

    /// The products, in order of their parts.
    pub fn products(&self) -> &[ProductRow]
        ensures { result.now ≡ self.now.lists.products }
    {
        self.tables.products.as_slice()
    }

    /// The exemption rows, in order of their codes.
    pub fn exemptions(&self) -> &[ExemptionRow]
        ensures { result.now ≡ self.now.lists.exemptions }
    {
        self.tables.exemptions.as_slice()
    }

    /// The candidates, in order of their substances.
    pub fn candidates(&self) -> &[CandidateRow]
        ensures { result.now ≡ self.now.lists.candidates }
    {
        self.tables.candidates.as_slice()
    }

    /// The shipments, in order of year and then of product.
    pub fn shipments(&self) -> &[ShipmentRow]
        ensures { result.now ≡ self.now.lists.shipments }
    {
        self.tables.shipments.as_slice()
    }

    /// The tickets of the accepted edits, in order of their codes.
    pub fn tickets(&self) -> &[TicketRow]
        ensures { result.now ≡ self.now.lists.tickets }
    {
        self.tables.tickets.as_slice()
    }

    /// Each list stands in the order of its key. The call does nothing but say so.
    pub fn in_order(&self)
        ensures { IsOrdered self.now.lists }
    {
        self.tables.substances.as_slice();
        self.tables.members.as_slice();
        self.tables.materials.as_slice();
        self.tables.parts.as_slice();
        self.tables.lines.as_slice();
        self.tables.products.as_slice();
        self.tables.exemptions.as_slice();
        self.tables.candidates.as_slice();
        self.tables.shipments.as_slice();
        self.tables.tickets.as_slice();
    }

    /// The same tables once more.
    ///
    /// `OutOfMemory`: none was left for the copy.
    pub fn copied(&self, alloc: Global) -> Result<Tables, OutOfMemory>
        ensures { IfOk result (λ copy. copy.lists ≡ self.now.lists) }
    {
        Ok(Tables {
            tables: self.tables.copied(alloc)?,
            text: self.text,
        })
    }
}
