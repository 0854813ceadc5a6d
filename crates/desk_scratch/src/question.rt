use desk_law::Kind;
use desk_text::{Code, Day};

/// What can be asked of the desk's tables.
///
/// A day in a question is 2014-07-22 or later, and a year one from 2008 to 2099: the calls that answer ask for that,
/// and contracts say it as `is_question_in_range`.
#[derive(Clone, Copy, Debug, PartialEq, Eq)]
pub enum Question {
    /// What was declared of a material, and its verdict for each rule: Article 4 of Directive 2011/65/EU.
    Material {
        /// The code of the material.
        code: Code,
        /// The kind of equipment that it is judged for.
        kind: Kind,
        /// The day on which that equipment is placed on the market.
        day: Day,
    },
    /// Whether a product meets Article 4 of Directive 2011/65/EU.
    Rohs {
        /// The code of the product.
        code: Code,
        /// The day on which it is placed on the market.
        day: Day,
    },
    /// Of which substances in which articles of a part one has to inform: Article 33 of Regulation (EC) 1907/2006.
    Reach33 {
        /// The code of the part.
        code: Code,
        /// The day on which it is supplied.
        day: Day,
    },
    /// Which substances have to be notified for a year: Article 7(2) of Regulation (EC) 1907/2006.
    Reach7 {
        /// The calendar year of the shipments.
        year: u16,
        /// The day on which is asked.
        day: Day,
    },
    /// What is kept of a part, what it weighs and what it carries.
    Part {
        /// The code of the part.
        code: Code,
    },
    /// Where a material or a part is used.
    Uses {
        /// The code of the material or the part.
        code: Code,
    },
    /// How much is kept, and how each product stands on a day.
    Summary {
        /// The day.
        day: Day,
    },
    /// The number of the tables.
    Version,
}
