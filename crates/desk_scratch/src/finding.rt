use desk_law::Rule;
use desk_text::Code;

/// What the law may ask about in a part, on whatever day.
#[derive(Clone, Copy, Debug, PartialEq, Eq)]
pub enum Finding {
    /// A material is over a rule's limit: Article 4 of Directive 2011/65/EU.
    Over {
        /// The code of the material.
        material: Code,
        /// The rule.
        rule: Rule,
    },
    /// A candidate is more than one thousandth of an article's mass: Article 33 of Regulation (EC) 1907/2006.
    Above {
        /// The code of the article.
        article: Code,
        /// The candidate's substance.
        substance: Code,
    },
}
