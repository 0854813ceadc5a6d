use desk_rows::Keyed;
use desk_text::{Code, OutOfMemory};
use std::alloc::Global;
use std::cmp::Ordering;

/// What one unit of a product weighs from now on.
#[derive(Clone, Copy, Debug, PartialEq, Eq)]
pub struct ProductMass {
    /// The product.
    pub product: Code,
    /// The mass in micrograms.
    pub mass: u128,
}

impl Keyed for ProductMass {
    type Key = Code;

    ghost key = { λ weighed. weighed.product };

    fn compare(&self, sought: &Code) -> Ordering {
        self.product.cmp(sought)
    }

    fn compare_row(&self, other: &ProductMass) -> Ordering {
        self.product.cmp(&other.product)
    }

    fn copied(&self, _alloc: Global) -> Result<ProductMass, OutOfMemory> {
        Ok(*self)
    }
}
