ghost use Rattle.std.specs.Prelude.{◌≡◌, IfOk};
ghost use Rattle.desk_rollup.specs.Places.{IsKnown, known, place_at};
ghost use Rattle.desk_rollup.specs.Values.{rolled_at};

use crate::hop::Hop;
use crate::hops::Hops;
use crate::places::Places;
use crate::rolled::Rolled;
use desk_graph::{NodeId, OutOfMemory};

/// The values of nodes: new ones at their places, and those that are kept of the others.
#[derive(Clone, Copy)]
pub struct Values<'a, 'b> {
    pub places: &'a Places,
    pub kept: &'a [Rolled],
    pub new: &'b [Rolled],
}

impl<'a, 'b> Values<'a, 'b> {
    /// The values of a node.
    pub fn of(&self, node: NodeId) -> &Rolled
        requires { IsKnown (place_at self.now.places.now node) self.now.kept.now self.now.new.now node }
        ensures { result.now ≡ known (place_at self.now.places.now node) self.now.kept.now self.now.new.now node }
    {
        match self.places.place_of(node) {
            Some(place) => &self.new[place],
            None => &self.kept[node as usize],
        }
    }

    /// The hops that are kept of a node, none of one of which nothing is kept.
    pub fn kept_hops(&self, node: NodeId) -> &[Hop]
        ensures { result.now ≡ (rolled_at self.now.kept.now node).hops }
    {
        if node as usize >= self.kept.len() {
            return &[];
        }
        let kept = &self.kept[node as usize];
        kept.hops.as_slice()
    }

    /// The list of hops that is kept of a node, shared.
    pub fn shared_hops(&self, node: NodeId) -> Result<Hops, OutOfMemory>
        ensures { IfOk result (λ hops. hops ≡ (rolled_at self.now.kept.now node).hops) }
    {
        if node as usize >= self.kept.len() {
            return Ok(Hops::none());
        }
        let kept = &self.kept[node as usize];
        kept.hops.shared()
    }
}
