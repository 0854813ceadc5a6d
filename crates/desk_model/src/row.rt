use crate::rows::{
    CandidateRow, ExemptionRow, LineRow, MaterialRow, MemberRow, PartRow, ProductRow, ShipmentRow,
    SubstanceRow, TicketRow,
};

/// A row of one of the ten tables, in the order of the tables.
#[derive(Debug, Drop)]
pub enum Row {
    /// A row of table 1.
    Substance(SubstanceRow),
    /// A row of table 2.
    Member(MemberRow),
    /// A row of table 3.
    Material(MaterialRow),
    /// A row of table 4.
    Part(PartRow),
    /// A row of table 5.
    Line(LineRow),
    /// A row of table 6.
    Product(ProductRow),
    /// A row of table 7.
    Exemption(ExemptionRow),
    /// A row of table 8.
    Candidate(CandidateRow),
    /// A row of table 9.
    Shipment(ShipmentRow),
    /// A row of table 10.
    Ticket(TicketRow),
}
