use desk_rows::Keyed;
use desk_text::{Code, OutOfMemory};
use std::alloc::Global;
use std::cmp::Ordering;

/// What one unit of a product carries of a substance.
#[derive(Clone, Copy, Debug, PartialEq, Eq)]
pub struct ProductLoad {
    /// The product.
    pub product: Code,
    /// The carried mass in micrograms.
    pub carried: u128,
}

impl Keyed for ProductLoad {
    type Key = Code;

    ghost key = { λ load. load.product };

    fn compare(&self, sought: &Code) -> Ordering {
        self.product.cmp(sought)
    }

    fn compare_row(&self, other: &ProductLoad) -> Ordering {
        self.product.cmp(&other.product)
    }

    fn copied(&self, _alloc: Global) -> Result<ProductLoad, OutOfMemory> {
        Ok(*self)
    }
}
