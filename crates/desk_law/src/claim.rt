use crate::Rule;
use desk_text::ExemptionNumber;

/// What a supplier claims for a material: that an exemption from a rule covers it.
#[derive(Clone, Copy, Debug, PartialEq, Eq, PartialOrd, Ord)]
pub struct Claim {
    /// The rule that the material is exempt from.
    pub rule: Rule,
    /// The number of the exemption in Annex III or IV, such as `6(c)`.
    pub number: ExemptionNumber,
}
