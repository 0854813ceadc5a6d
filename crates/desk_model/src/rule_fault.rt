ghost use Rattle.std.specs.Prelude.{◌≡◌, Some};
ghost use Rattle.desk_model.specs.Refusals.{refusal_words, table_name};

use crate::{Codes, Spaced};
use desk_text::Code;
use std::error::Error;
use std::fmt;

/// Why an edit is refused: the first of these rules that it breaks, in this order.
#[derive(Debug, Drop)]
pub enum RuleFault {
    /// 1. The ticket is kept with another edit.
    TicketReused,
    /// 2. The edit names a substance that isn't kept.
    UnknownSubstance {
        /// The substance.
        code: Code,
    },
    /// 3. The line of an article leads to what is no material and no part.
    UnknownMaterial {
        /// The child.
        code: Code,
    },
    /// 4. The edit names a part that isn't kept.
    UnknownPart {
        /// The part, or the child of an assembly's line.
        code: Code,
    },
    /// 5. The shipped product isn't kept.
    UnknownProduct {
        /// The product.
        code: Code,
    },
    /// 6. The exemption row isn't kept.
    UnknownExemption {
        /// The row.
        row: Code,
    },
    /// 7. Materials and parts share one space of codes, and the code is the other's.
    NameTaken {
        /// The code.
        code: Code,
    },
    /// 8. The part is kept as the other of article and assembly.
    KindChanged {
        /// The part.
        code: Code,
    },
    /// 9. The line of an article leads to a part, or that of an assembly to a material.
    WrongChild {
        /// The child.
        child: Code,
    },
    /// 10. The line isn't kept.
    NoSuchLine {
        /// The part that the line would be of.
        parent: Code,
        /// What it would lead to.
        child: Code,
    },
    /// 11. The material is kept from another supplier.
    ForeignMaterial {
        /// The material.
        material: Code,
        /// The supplier that it is kept from.
        supplier: Code,
    },
    /// 12. The material is kept with a greater declaration number.
    StaleDeclaration {
        /// The material.
        material: Code,
        /// The number that it is kept with.
        kept: u64,
    },
    /// 13. The masses of the material's substances sum to more than its mass.
    MassesExceed {
        /// The material.
        material: Code,
    },
    /// 14. The exemption's last day is before its first, or its floor is greater than its cap.
    ExemptionSpan,
    /// 15. A row of Annex IV names a kind besides medical devices and monitoring and control instruments.
    AnnexKinds,
    /// 16. More units are to be taken off than are kept.
    ShipBelowZero {
        /// How many units are kept.
        kept: u64,
    },
    /// 17. The year's units of the product would exceed 1,000,000,000,000.
    UnitsTooLarge,
    /// 18. A table would exceed its limit.
    TableFull {
        /// The number of the table from 1 to 10, or 11 for the lines of one parent.
        table: u8,
    },
    /// 19. The kept edit texts would exceed 67,108,864 bytes.
    TextFull,
    /// 20. The line would close a cycle.
    ClosesCycle {
        /// The chain from the line's child to its parent.
        chain: Codes,
    },
    /// 21. A part's mass would be 2^128 micrograms or more.
    TotalTooLarge {
        /// The part with the least code of these.
        part: Code,
    },
    /// 22. All parts together would have more than 4,194,304 findings.
    FindingsFull,
    /// 23. The sum over a year's shipments of units times mass would be 2^128 micrograms or more.
    YearTooLarge {
        /// The least year of these.
        year: u16,
    },
}

/// The refusal's words, by which the console and the reply to an edit tell it.
impl fmt::Display for RuleFault {
    ghost output = { λ fault. Some (refusal_words fault) };

    #[tactic(auto, unfolding(crate::specs::Refusals::refusal_words))]
    fn fmt<W: fmt::Write>(&self, f: &mut fmt::Formatter<W>) -> fmt::Result {
        match self {
            RuleFault::TicketReused => f.write_str("ticket-reused"),
            RuleFault::UnknownSubstance { code } => write!(f, "unknown-substance {code}"),
            RuleFault::UnknownMaterial { code } => write!(f, "unknown-material {code}"),
            RuleFault::UnknownPart { code } => write!(f, "unknown-part {code}"),
            RuleFault::UnknownProduct { code } => write!(f, "unknown-product {code}"),
            RuleFault::UnknownExemption { row } => write!(f, "unknown-exemption {row}"),
            RuleFault::NameTaken { code } => write!(f, "name-taken {code}"),
            RuleFault::KindChanged { code } => write!(f, "kind-changed {code}"),
            RuleFault::WrongChild { child } => write!(f, "wrong-child {child}"),
            RuleFault::NoSuchLine { parent, child } => write!(f, "no-such-line {parent} {child}"),
            RuleFault::ForeignMaterial { material, supplier } => {
                write!(f, "foreign-material {material} {supplier}")
            }
            RuleFault::StaleDeclaration { material, kept } => {
                write!(f, "stale-declaration {material} {kept}")
            }
            RuleFault::MassesExceed { material } => write!(f, "masses-exceed {material}"),
            RuleFault::ExemptionSpan => f.write_str("exemption-span"),
            RuleFault::AnnexKinds => f.write_str("annex-kinds"),
            RuleFault::ShipBelowZero { kept } => write!(f, "ship-below-zero {kept}"),
            RuleFault::UnitsTooLarge => f.write_str("units-too-large"),
            RuleFault::TableFull { table } => write!(f, "table-full {}", table_name(*table)),
            RuleFault::TextFull => f.write_str("text-full"),
            RuleFault::ClosesCycle { chain } => {
                let chain = Spaced {
                    codes: chain.as_slice(),
                };
                write!(f, "closes-cycle{chain}")
            }
            RuleFault::TotalTooLarge { part } => write!(f, "total-too-large {part}"),
            RuleFault::FindingsFull => f.write_str("findings-full"),
            RuleFault::YearTooLarge { year } => write!(f, "year-too-large {year}"),
        }
    }
}

impl Error for RuleFault {}

/// The name by which a refusal tells a full table, by number; 11 is for the lines of one parent.
#[tactic(auto, unfolding(crate::specs::Refusals::table_name))]
fn table_name(table: u8) -> &'static str
    ensures { result.now ≡ table_name table }
{
    match table {
        1 => "substances",
        2 => "members",
        3 => "materials",
        4 => "parts",
        5 => "lines",
        6 => "products",
        7 => "exemptions",
        8 => "candidates",
        9 => "shipments",
        10 => "tickets",
        _ => "lines-of-parent",
    }
}
