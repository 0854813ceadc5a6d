ghost use Rattle.std.specs.Prelude.{◌≡◌, true, [], length, IfOk};
ghost use Rattle.desk_rollup.specs.Values.{no_values};

use crate::hops::Hops;
use crate::load::Load;
use desk_graph::OutOfMemory;
use std::alloc::Global;
use std::marker::Model;

/// What a node has together with all that it is made of. Contracts see it with its lists.
#[derive(Debug, Drop)]
pub struct Rolled {
    /// What the node weighs.
    pub weight: u128,
    /// What is found at it, and where the way to each mark goes on, in the order of marks, each once. A plan shares the lists that stay
    /// as they are with what is kept, and so do copies.
    pub hops: Hops,
    /// What it carries, in the order of `what`, each once.
    pub loads: Vec<Load>,
}

impl Model for Rolled {
    ghost use Rattle.desk_rollup.specs.Values.{RolledValues};

    ghost Value = { RolledValues };

    ghost view = { λ rolled. record {
      weight = rolled.weight;
      hops = rolled.hops;
      loads = rolled.loads.items;
    } };
}

impl Rolled {
    /// A node that has nothing. It takes no memory.
    pub(crate) fn none(alloc: Global) -> Rolled
        ensures { result ≡ no_values }
    {
        Rolled {
            weight: 0,
            hops: Hops::none(),
            loads: Vec::new(alloc),
        }
    }

    /// Whether the node has no mark and no load.
    pub(crate) fn has_none(&self) -> bool
        ensures hops { result ≡ true → self.now.hops ≡ [] }
        ensures loads { result ≡ true → self.now.loads ≡ [] }
    {
        self.hops.is_empty() && self.loads.is_empty()
    }

    /// How many hops the node has.
    pub(crate) fn hop_count(&self) -> usize
        ensures { result ≡ length self.now.hops }
    {
        self.hops.len()
    }

    /// The same values once more, with the same list of hops.
    pub(crate) fn copied(&self, alloc: Global) -> Result<Rolled, OutOfMemory>
        ensures { IfOk result (λ rolled. rolled ≡ self.now) }
    {
        Ok(Rolled {
            weight: self.weight,
            hops: self.hops.shared()?,
            loads: Vec::from_slice(alloc, self.loads.as_slice())?,
        })
    }
}
