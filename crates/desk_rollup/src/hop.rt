ghost use Rattle.std.specs.Prelude.{◌≡◌, true, Some};
ghost use Rattle.desk_rollup.specs.Numbers.{mark_number};

use crate::entry::Entry;
use crate::mark::Mark;
use crate::rolled::Rolled;
use desk_graph::{BillLine, NodeId};

/// A mark of a node, and where the way to it goes on. It takes 16 bytes.
#[derive(Clone, Copy, Debug, PartialEq, Eq)]
pub struct Hop {
    /// The mark.
    pub mark: Mark,
    /// The child with the least label that has the mark, or none where the mark is the node's own.
    pub next: Option<NodeId>,
}

impl Entry for Hop {
    ghost number = { λ hop. mark_number hop.mark };

    ghost joined = { λ held more. held };

    ghost lifted = { λ line hop. record { mark = hop.mark; next = Some line.node } };

    ghost listed = { λ rolled. rolled.hops };

    fn number(&self) -> u64 {
        self.mark.number()
    }

    fn joined(self, _more: Hop) -> Hop {
        self
    }

    fn lifted(self, line: BillLine) -> Hop {
        Hop {
            mark: self.mark,
            next: Some(line.node),
        }
    }

    fn listed(rolled: &Rolled) -> &[Hop] {
        rolled.hops.as_slice()
    }
}

impl Hop {
    /// Whether this is the same hop.
    pub(crate) fn is(self, other: Hop) -> bool
        ensures { result ≡ true → self ≡ other }
    {
        self.mark.node == other.mark.node
            && self.mark.what == other.mark.what
            && is_same_way(self.next, other.next)
    }
}

/// Whether the way goes on in the same direction.
fn is_same_way(first: Option<NodeId>, second: Option<NodeId>) -> bool
    ensures { result ≡ true → first ≡ second }
{
    let Some(node) = first else {
        return second.is_none();
    };
    let Some(other) = second else {
        return false;
    };
    node == other
}
