/// The verdict on a material for a rule, a kind of equipment and a day.
#[derive(Clone, Copy, Debug, PartialEq, Eq)]
pub enum Verdict {
    /// The material is not over the rule's limit.
    Within,
    /// It is over the limit, and the rule is not in force for the kind on the day.
    NotInForce,
    /// The rule is in force, and an exemption covers the material.
    Exempt {
        /// The place, counted from 0, of the row in the list that was handed in.
        place: usize,
    },
    /// No exemption covers it.
    Breach,
}
