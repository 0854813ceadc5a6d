ghost use Rattle.std.specs.Prelude.{◌≡◌};

use crate::line::NodeId;
use std::marker::Model;

/// A list of nodes. Contracts see the list.
#[derive(Debug, Drop)]
pub struct Path {
    nodes: Vec<NodeId>,
}

impl Model for Path {
    ghost use Rattle.std.specs.Prelude.{List, ℕ};

    ghost Value = { List ℕ };

    ghost view = { λ path. path.nodes.items };
}

impl Path {
    pub(crate) fn new(nodes: Vec<NodeId>) -> Path
        ensures { result ≡ nodes.items }
    {
        Path { nodes }
    }

    /// The nodes of the path.
    pub fn as_slice(&self) -> &[NodeId]
        ensures { result.now ≡ self.now }
    {
        self.nodes.as_slice()
    }
}
