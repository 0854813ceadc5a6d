ghost use Rattle.std.specs.Prelude.{◌≡◌, option_copied};
ghost use Rattle.desk_rollup.specs.Plan.{IsPlannedOf};

use crate::own::Own;
use crate::places::Places;
use crate::rolled::Rolled;
use desk_graph::NodeId;
use std::alloc::Global;
use std::marker::Model;

/// New own values of nodes, and the values of all nodes that they replace, made ready so that putting them in needs no memory and
/// isn't refused. Lists of hops that stay as they are have both the plan and what is kept as owners. Contracts see the own values, the
/// nodes that are replaced with their values, and how many nodes there will be.
#[derive(Drop)]
pub struct RollPlan {
    pub(crate) alloc: Global,
    pub(crate) count: usize,
    pub(crate) owns: Vec<Own>,
    pub(crate) places: Places,
    pub(crate) rolled: Vec<Rolled>,
}

impl Model for RollPlan {
    ghost use Rattle.std.specs.Prelude.{◌≡◌, ◌≤◌, length};
    ghost use Rattle.desk_rollup.specs.Plan.{PlannedValues};

    ghost Value = { PlannedValues };

    ghost view = { λ plan. record {
      count = plan.count;
      owns = plan.owns.items;
      nodes = plan.places.nodes;
      rolled = plan.rolled.items;
    } };

    ghost use Rattle.desk_rollup.specs.Values.{DoFit};

    ghost invariant = { λ plan. (length plan.rolled.items ≡ length plan.places.nodes) × (plan.count ≤ 24576) × DoFit plan.rolled.items };
}

impl RollPlan {
    /// The nodes whose values the plan replaces, each once.
    pub fn nodes(&self) -> &[NodeId]
        ensures { result.now ≡ self.now.nodes }
    {
        self.places.as_slice()
    }

    /// The new values of a node, or none just where the plan doesn't replace them. It takes no memory.
    pub fn rolled(&self, id: NodeId) -> Option<&Rolled>
        ensures { IsPlannedOf self.now id (option_copied result) }
    {
        match self.places.place_of(id) {
            Some(place) => Some(&self.rolled[place]),
            None => None,
        }
    }
}
