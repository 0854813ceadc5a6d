use desk_rows::Keyed;
use desk_text::{Code, OutOfMemory};
use std::alloc::Global;
use std::cmp::Ordering;

/// How many units of a product were shipped in a year, and what one of them weighs.
#[derive(Clone, Copy, Debug, PartialEq, Eq)]
pub struct Entry {
    /// The calendar year, the key's first part.
    pub year: u16,
    /// The product, the key's second part.
    pub product: Code,
    /// How many units: 1 to 1,000,000,000,000.
    pub units: u64,
    /// The mass of one unit in micrograms.
    pub mass: u128,
}

impl Keyed for Entry {
    type Key = (u16, Code);

    ghost key = { λ entry. (entry.year, entry.product) };

    fn compare(&self, sought: &(u16, Code)) -> Ordering {
        (self.year, self.product).cmp(sought)
    }

    fn compare_row(&self, other: &Entry) -> Ordering {
        (self.year, self.product).cmp(&(other.year, other.product))
    }

    fn copied(&self, _alloc: Global) -> Result<Entry, OutOfMemory> {
        Ok(*self)
    }
}
