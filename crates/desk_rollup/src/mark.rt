ghost use Rattle.std.specs.Prelude.{◌≡◌};
ghost use Rattle.desk_rollup.specs.Numbers.{has, mark_number, mark_numbers};

use desk_graph::NodeId;

/// What is found at a node. Marks are ordered by their nodes, and those of one node by `what`.
#[derive(Clone, Copy, Debug, PartialEq, Eq)]
pub struct Mark {
    /// The node where the mark comes from.
    pub node: NodeId,
    /// What is found there, as the caller numbers it.
    pub what: u32,
}

impl Mark {
    /// The number of the mark in the order of marks.
    pub(crate) fn number(&self) -> u64
        ensures { result ≡ mark_number self.now }
    {
        u64::from(self.node) * 4_294_967_296 + u64::from(self.what)
    }
}

/// Whether one of the marks has this number.
pub fn has_number(marks: &[Mark], number: u64) -> bool
    ensures { result ≡ has (mark_numbers marks.now) number }
{
    for mark in marks {
        if mark.number() == number {
            return true;
        }
    }
    false
}
