use desk_model::limits::{
    CANDIDATE_LIMIT, EXEMPTION_LIMIT, LINE_LIMIT, MATERIAL_LIMIT, MEMBER_LIMIT, PART_LIMIT,
    PRODUCT_LIMIT, SHIPMENT_LIMIT, SUBSTANCE_LIMIT, TICKET_LIMIT,
};

/// The most records that sound tables have: the limits of all tables together. A constant's value calls no function, so that
/// `TableName::limit` can't be asked here.
pub const RECORD_LIMIT: usize = SUBSTANCE_LIMIT
    + MEMBER_LIMIT
    + MATERIAL_LIMIT
    + PART_LIMIT
    + LINE_LIMIT
    + PRODUCT_LIMIT
    + EXEMPTION_LIMIT
    + CANDIDATE_LIMIT
    + SHIPMENT_LIMIT
    + TICKET_LIMIT;
