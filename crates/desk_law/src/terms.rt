use crate::{Annex, KindSet, Rule};
use desk_text::{Code, Day, ExemptionNumber};

/// The terms of one row of an exemption of Annex III or IV to Directive 2011/65/EU.
#[derive(Clone, Copy, Debug, PartialEq, Eq)]
pub struct Terms {
    /// The row's own code, by which a verdict names it.
    pub row: Code,
    /// The annex that the exemption stands in.
    pub annex: Annex,
    /// The exemption's number in the annex, such as `6(c)`. Rows may share one.
    pub number: ExemptionNumber,
    /// The rule that the row exempts from.
    pub rule: Rule,
    /// The kinds of equipment that it holds for.
    pub kinds: KindSet,
    /// The first day on which it covers.
    pub first: Day,
    /// The last day on which it covers.
    pub last: Day,
    /// The least concentration that it covers, in ppm by weight, if there is one.
    pub floor: Option<u32>,
    /// The greatest concentration that it covers, in ppm by weight, if there is one.
    pub cap: Option<u32>,
}
