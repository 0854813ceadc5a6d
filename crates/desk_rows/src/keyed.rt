ghost use Rattle.std.specs.Prelude.{◌≡◌, IfOk};

use desk_text::OutOfMemory;
use std::alloc::Global;
use std::cmp::Ordering;

/// A row of a table, told from the table's other rows by its key.
pub trait Keyed: Drop {
    /// What tells rows apart; its order is the table's order.
    type Key: Ord;

    // The row's key.
    ghost key: { Self → Self.Key };

    /// How the row's key stands to `sought`.
    fn compare(&self, sought: &Self::Key) -> Ordering
        ensures { result ≡ Self.Key.cmp (key self.now) sought.now };

    /// How the row's key stands to the key of `other`.
    fn compare_row(&self, other: &Self) -> Ordering
        ensures { result ≡ Self.Key.cmp (key self.now) (key other.now) };

    /// The same row once more.
    fn copied(&self, alloc: Global) -> Result<Self, OutOfMemory>
    where
        Self: Sized,
        ensures { IfOk result (λ row. row ≡ self.now) };
}

/// A row that belongs to a group, such as the lines of one parent. In a list by key the rows of one group stand together.
pub trait Grouped: Keyed {
    /// What tells groups apart; the order of keys is first of all the order of groups.
    type Group: Ord;

    // The row's group.
    ghost group: { Self → Self.Group };

    /// How the row's group stands to `sought`.
    fn compare_group(&self, sought: &Self::Group) -> Ordering
        ensures { result ≡ Self.Group.cmp (group self.now) sought.now };
}
