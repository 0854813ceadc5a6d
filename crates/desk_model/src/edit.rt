use crate::{Count, Declaration, Exemption, Factor, PartSort, Units, Year};
use desk_law::{Kind, Rule};
use desk_text::{Cas, Code, Day, Name};

/// One change to the tables. Each but a declaration carries a ticket, a code that its sender chooses.
#[derive(Debug, Drop)]
pub enum Edit {
    /// Enters a substance, or replaces its name and CAS number.
    Substance {
        /// The edit's ticket.
        ticket: Code,
        /// The code of the substance.
        code: Code,
        /// Its name.
        name: Name,
        /// Its CAS registry number, if it has one.
        cas: Option<Cas>,
    },
    /// Sets the factor by which a rule counts a substance. 0 takes the entry out.
    Member {
        /// The edit's ticket.
        ticket: Code,
        /// The code of the substance.
        substance: Code,
        /// The rule.
        rule: Rule,
        /// The factor in millionths.
        factor: Factor,
    },
    /// Enters or wholly replaces each material that the declaration lists.
    Declare {
        /// The declaration. Its supplier and number are the edit's ticket.
        declaration: Declaration,
    },
    /// Enters a part, or replaces its name.
    Part {
        /// The edit's ticket.
        ticket: Code,
        /// The code of the part.
        code: Code,
        /// Whether it is an article or an assembly.
        sort: PartSort,
        /// Its name.
        name: Name,
    },
    /// Enters a line of the bill, or replaces its count.
    Line {
        /// The edit's ticket.
        ticket: Code,
        /// The part that the line is of.
        parent: Code,
        /// The material or part that it leads to.
        child: Code,
        /// How many of the child one of the parent holds.
        count: Count,
    },
    /// Takes a line of the bill out.
    Unline {
        /// The edit's ticket.
        ticket: Code,
        /// The part that the line is of.
        parent: Code,
        /// The material or part that it leads to.
        child: Code,
    },
    /// Names a part a product of a kind, or replaces the kind.
    Product {
        /// The edit's ticket.
        ticket: Code,
        /// The code of the part.
        part: Code,
        /// The kind of equipment that it is.
        kind: Kind,
    },
    /// Enters or replaces an exemption row.
    Exemption {
        /// The edit's ticket.
        ticket: Code,
        /// The row.
        exemption: Exemption,
    },
    /// Takes an exemption row out.
    Unexempt {
        /// The edit's ticket.
        ticket: Code,
        /// The code of the row.
        row: Code,
    },
    /// Enters a substance into the candidate list, or replaces its inclusion day.
    Candidate {
        /// The edit's ticket.
        ticket: Code,
        /// The code of the substance.
        substance: Code,
        /// The day of its inclusion.
        day: Day,
    },
    /// Adds units to what was shipped of a product in a year.
    Ship {
        /// The edit's ticket.
        ticket: Code,
        /// The code of the product.
        product: Code,
        /// The year.
        year: Year,
        /// How many units more.
        units: Units,
    },
    /// Takes units off what was shipped of a product in a year. An entry at 0 is taken out.
    Unship {
        /// The edit's ticket.
        ticket: Code,
        /// The code of the product.
        product: Code,
        /// The year.
        year: Year,
        /// How many units fewer.
        units: Units,
    },
}
