ghost use Rattle.std.specs.Prelude.{◌≡◌, ℕ, List};
ghost use Rattle.desk_graph.specs.declared.line.BillLine.{BillLine};
ghost use Rattle.desk_rollup.specs.Values.{RolledValues};

use crate::rolled::Rolled;
use desk_graph::BillLine;

/// What a node has of one number: its hop of a mark, or its load of a substance.
pub trait Entry: Copy {
    // The number that the lists are ordered by.
    ghost number: { Self → ℕ };

    // What two entries of one number come to.
    ghost joined: { Self → Self → Self };

    // What an entry of a child is at the parent of the line.
    ghost lifted: { BillLine → Self → Self };

    // The entries of a node.
    ghost listed: { RolledValues → List Self };

    /// The number that the lists are ordered by.
    fn number(&self) -> u64
        ensures { result ≡ number self.now };

    /// What two entries of one number come to.
    fn joined(self, more: Self) -> Self
        ensures { result ≡ joined self more };

    /// What an entry of a child is at the parent of the line.
    fn lifted(self, line: BillLine) -> Self
        ensures { result ≡ lifted line self };

    /// The entries of a node.
    fn listed(rolled: &Rolled) -> &[Self]
    where
        Self: Sized,
        ensures { result.now ≡ listed rolled.now };
}
