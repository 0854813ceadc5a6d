//! The limits of the tables and of what an edit may say.

/// The greatest number of substances.
pub const SUBSTANCE_LIMIT: usize = 4_096;

/// The greatest number of members, which are pairs of a substance and a rule.
pub const MEMBER_LIMIT: usize = 8_192;

/// The greatest number of materials.
pub const MATERIAL_LIMIT: usize = 8_192;

/// The greatest number of parts.
pub const PART_LIMIT: usize = 16_384;

/// The greatest number of lines.
pub const LINE_LIMIT: usize = 131_072;

/// The greatest number of lines of one parent.
pub const LINES_OF_PARENT_LIMIT: usize = 4_096;

/// The greatest number of products.
pub const PRODUCT_LIMIT: usize = 4_096;

/// The greatest number of exemption rows.
pub const EXEMPTION_LIMIT: usize = 2_048;

/// The greatest number of candidates.
pub const CANDIDATE_LIMIT: usize = 1_024;

/// The greatest number of shipment entries, which are pairs of a year and a product.
pub const SHIPMENT_LIMIT: usize = 65_536;

/// The greatest number of tickets.
pub const TICKET_LIMIT: usize = 262_144;

/// The greatest number of bytes of all kept edit texts together.
pub const TEXT_LIMIT: usize = 67_108_864;

/// The greatest number of findings of all parts together.
pub const FINDING_LIMIT: usize = 4_194_304;

/// The greatest number of materials in one declaration.
pub const DECLARED_LIMIT: usize = 256;

/// The greatest number of substances in one material.
pub const CONTENT_LIMIT: usize = 64;

/// The greatest number of claims of one material.
pub const CLAIM_LIMIT: usize = 16;

/// A whole in millionths: the factor of a substance that is all of it what its rule restricts.
pub const WHOLE_FACTOR: u64 = 1_000_000;

/// The greatest count of a line.
pub const COUNT_LIMIT: u64 = 1_000_000;

/// The greatest mass of a material, and of a substance in it, in micrograms.
pub const MASS_LIMIT: u64 = 1_000_000_000_000_000;

/// The greatest floor or cap of an exemption row, in ppm: the whole material.
pub const PPM_LIMIT: u32 = 1_000_000;

/// The first year that a shipment may name.
pub const FIRST_SHIPMENT_YEAR: u64 = 2008;

/// The last year that a shipment may name.
pub const LAST_SHIPMENT_YEAR: u64 = 2099;

/// The greatest number of units of a product that one year's entry holds.
pub const UNITS_LIMIT: u64 = 1_000_000_000_000;

/// One tonne in micrograms: the tonnage above which Article 7(2) of Regulation (EC) 1907/2006 asks for a notice.
pub const TONNE: u64 = 1_000_000_000_000;
