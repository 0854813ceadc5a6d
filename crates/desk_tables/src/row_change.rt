use desk_law::Rule;
use desk_model::{
    CandidateRow, ExemptionRow, LineRow, ListOf, MaterialRow, MemberRow, PartRow, ProductRow,
    ShipmentRow, SubstanceRow,
};
use desk_rows::Room;
use desk_text::Code;

/// What an edit makes of the rows of one table. A row that goes in takes the place of the row with its key, and its room is made
/// ahead.
#[derive(Drop)]
pub enum RowChange {
    /// A substance goes in.
    PutSubstance {
        /// The row.
        row: SubstanceRow,
        /// Room for it.
        room: Room<SubstanceRow>,
    },
    /// What a rule counts of a substance goes in.
    PutMember {
        /// The row.
        row: MemberRow,
        /// Room for it.
        room: Room<MemberRow>,
    },
    /// A rule counts nothing of the substance any more.
    DropMember {
        /// The substance.
        substance: Code,
        /// The rule.
        rule: Rule,
    },
    /// The materials of a declaration go in.
    PutMaterials {
        /// The rows, in order of code.
        rows: ListOf<MaterialRow>,
        /// Room for them.
        room: Room<MaterialRow>,
    },
    /// A part goes in.
    PutPart {
        /// The row.
        row: PartRow,
        /// Room for it.
        room: Room<PartRow>,
    },
    /// A line goes in.
    PutLine {
        /// The row.
        row: LineRow,
        /// Room for it.
        room: Room<LineRow>,
    },
    /// A line is taken out.
    DropLine {
        /// The part that the line is of.
        parent: Code,
        /// What it leads to.
        child: Code,
    },
    /// A product goes in.
    PutProduct {
        /// The row.
        row: ProductRow,
        /// Room for it.
        room: Room<ProductRow>,
    },
    /// An exemption row goes in.
    PutExemption {
        /// The row.
        row: ExemptionRow,
        /// Room for it.
        room: Room<ExemptionRow>,
    },
    /// An exemption row is taken out.
    DropExemption {
        /// The code of the row.
        row: Code,
    },
    /// A candidate goes in.
    PutCandidate {
        /// The row.
        row: CandidateRow,
        /// Room for it.
        room: Room<CandidateRow>,
    },
    /// A shipment goes in.
    PutShipment {
        /// The row.
        row: ShipmentRow,
        /// Room for it.
        room: Room<ShipmentRow>,
    },
    /// A shipment is taken out.
    DropShipment {
        /// The year.
        year: u16,
        /// The product.
        product: Code,
    },
}
