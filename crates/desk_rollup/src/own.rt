ghost use Rattle.std.specs.Prelude.{◌≡◌, IfOk};
ghost use Rattle.desk_rollup.specs.Values.{no_own};

use crate::load::Load;
use crate::mark::Mark;
use desk_graph::{NodeId, OutOfMemory};
use std::alloc::Global;
use std::marker::Model;

/// What a node has of its own. Contracts see it with its lists.
#[derive(Debug, Drop)]
pub struct Own {
    /// The node.
    pub node: NodeId,
    /// What it weighs without what it is made of.
    pub weight: u128,
    /// What is found at it. No mark stands twice.
    pub marks: Vec<Mark>,
    /// What it carries of substances. No two are of the same substance.
    pub loads: Vec<Load>,
}

impl Model for Own {
    ghost use Rattle.desk_rollup.specs.Values.{OwnValues};

    ghost Value = { OwnValues };

    ghost view = { λ own. record {
      node = own.node;
      weight = own.weight;
      marks = own.marks.items;
      loads = own.loads.items;
    } };
}

impl Own {
    /// A node that has nothing of its own. It takes no memory.
    pub(crate) fn none(alloc: Global) -> Own
        ensures { result ≡ no_own }
    {
        Own {
            node: 0,
            weight: 0,
            marks: Vec::new(alloc),
            loads: Vec::new(alloc),
        }
    }

    /// The same values once more.
    pub(crate) fn copied(&self, alloc: Global) -> Result<Own, OutOfMemory>
        ensures { IfOk result (λ own. own ≡ self.now) }
    {
        Ok(Own {
            node: self.node,
            weight: self.weight,
            marks: Vec::from_slice(alloc, self.marks.as_slice())?,
            loads: Vec::from_slice(alloc, self.loads.as_slice())?,
        })
    }
}
