ghost use Rattle.std.specs.Prelude.{◌≡◌};
ghost use Rattle.desk_model.specs.Tables.{number_of_table, table_limit};

use crate::limits::{
    CANDIDATE_LIMIT, EXEMPTION_LIMIT, LINE_LIMIT, MATERIAL_LIMIT, MEMBER_LIMIT, PART_LIMIT,
    PRODUCT_LIMIT, SHIPMENT_LIMIT, SUBSTANCE_LIMIT, TICKET_LIMIT,
};

/// One of the ten tables.
#[derive(Clone, Copy, Debug, PartialEq, Eq)]
pub enum TableName {
    /// Table 1.
    Substances,
    /// Table 2: what the rules count of the substances.
    Members,
    /// Table 3.
    Materials,
    /// Table 4.
    Parts,
    /// Table 5: the lines of the bills.
    Lines,
    /// Table 6.
    Products,
    /// Table 7.
    Exemptions,
    /// Table 8: the candidates of the list of Article 59(1) of Regulation (EC) 1907/2006.
    Candidates,
    /// Table 9.
    Shipments,
    /// Table 10.
    Tickets,
}

impl TableName {
    /// Each table once, in the order of the numbers.
    pub const ALL: [TableName; 10] = [
        TableName::Substances,
        TableName::Members,
        TableName::Materials,
        TableName::Parts,
        TableName::Lines,
        TableName::Products,
        TableName::Exemptions,
        TableName::Candidates,
        TableName::Shipments,
        TableName::Tickets,
    ];

    /// The table's number, from 1 to 10.
    pub fn number(self) -> u8
        ensures { result ≡ number_of_table self }
    {
        match self {
            TableName::Substances => 1,
            TableName::Members => 2,
            TableName::Materials => 3,
            TableName::Parts => 4,
            TableName::Lines => 5,
            TableName::Products => 6,
            TableName::Exemptions => 7,
            TableName::Candidates => 8,
            TableName::Shipments => 9,
            TableName::Tickets => 10,
        }
    }

    /// The greatest number of rows that the table may hold.
    pub fn limit(self) -> usize
        ensures { result ≡ table_limit self }
    {
        match self {
            TableName::Substances => SUBSTANCE_LIMIT,
            TableName::Members => MEMBER_LIMIT,
            TableName::Materials => MATERIAL_LIMIT,
            TableName::Parts => PART_LIMIT,
            TableName::Lines => LINE_LIMIT,
            TableName::Products => PRODUCT_LIMIT,
            TableName::Exemptions => EXEMPTION_LIMIT,
            TableName::Candidates => CANDIDATE_LIMIT,
            TableName::Shipments => SHIPMENT_LIMIT,
            TableName::Tickets => TICKET_LIMIT,
        }
    }
}
