use desk_rows::Keyed;
use desk_text::{Code, OutOfMemory};
use std::alloc::Global;
use std::cmp::Ordering;

/// How much of a substance a material holds.
#[derive(Clone, Copy, Debug, PartialEq, Eq)]
pub struct SubstanceMass {
    /// The code of the substance.
    pub substance: Code,
    /// Its mass in micrograms, from 0 to 1,000,000,000,000,000.
    pub mass: u64,
}

impl Keyed for SubstanceMass {
    type Key = Code;

    ghost key = { λ held. held.substance };

    fn compare(&self, sought: &Code) -> Ordering {
        self.substance.cmp(sought)
    }

    fn compare_row(&self, other: &SubstanceMass) -> Ordering {
        self.substance.cmp(&other.substance)
    }

    fn copied(&self, _alloc: Global) -> Result<SubstanceMass, OutOfMemory> {
        Ok(*self)
    }
}
