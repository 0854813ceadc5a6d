use desk_text::Code;

/// So much of a substance.
#[derive(Clone, Copy, Debug, PartialEq, Eq)]
pub struct Load {
    /// The code of the substance.
    pub substance: Code,
    /// In micrograms.
    pub amount: u128,
}
