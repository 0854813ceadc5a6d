ghost use Rattle.std.specs.Prelude.{◌≡◌, ◌<◌, ◌≤◌, ◌==◌, ℕ, true, length, position, IfOk};
ghost use Rattle.desk_graph.specs.Reaches.{has_node};
ghost use Rattle.desk_rollup.specs.Places.{IsPlaceOf, place_at, place_in};

use desk_graph::{NodeId, OutOfMemory};
use std::alloc::Global;
use std::marker::Model;

/// So few nodes are looked through where the place of one is asked for.
const FEW: usize = 8;

/// Nodes in an order, with the place of each at hand. Contracts see the nodes, and the numbers that tell the place of each.
///
/// A bill has at most 24,576 nodes, so a place takes two bytes. These are written anew for each edit that moves more than a few nodes;
/// most edits move few, and then writing a number for each node of the bill would be most of what they cost.
#[derive(Drop)]
pub struct Places {
    nodes: Vec<NodeId>,
    /// One more than the place of each node of the bill, and 0 where it has none; or nothing, where the nodes are few.
    slots: Vec<u16>,
}

impl Model for Places {
    ghost use Rattle.desk_rollup.specs.Places.{ArePlaced, Placed};

    ghost Value = { Placed };

    ghost view = { λ places. record {
      nodes = places.nodes.items;
      slots = places.slots.items;
    } };

    ghost invariant = { λ places. ArePlaced (record { nodes = places.nodes.items; slots = places.slots.items }) };
}

impl Places {
    /// The places of the nodes, which are below `count`.
    pub fn new(alloc: Global, nodes: Vec<NodeId>, count: usize) -> Result<Places, OutOfMemory>
        requires nodes { (node : ℕ) → has_node nodes.items node ≡ true → node < count }
        requires few { length nodes.items ≤ 24576 }
        ensures { IfOk result (λ places. places.nodes ≡ nodes.items) }
    {
        if nodes.len() <= FEW {
            let slots = Vec::new(alloc);
            return Ok(Places { nodes, slots });
        }
        let mut slots = Vec::from_elem(alloc, 0, count)?;
        set_slots(nodes.as_slice(), slots.as_mut_slice());
        Ok(Places { nodes, slots })
    }

    /// The nodes in their order.
    pub fn as_slice(&self) -> &[NodeId]
        ensures { result.now ≡ self.now.nodes }
    {
        self.nodes.as_slice()
    }

    /// The place of a node, if it has one.
    pub fn place_of(&self, node: NodeId) -> Option<usize>
        ensures place { result ≡ place_at self.now node }
        ensures told { IsPlaceOf self.now.nodes node result }
    {
        if node as usize >= self.slots.len() {
            return first_place(self.nodes.as_slice(), node);
        }
        match self.slots[node as usize] {
            0 => None,
            slot => Some(slot as usize - 1),
        }
    }
}

/// Where the node stands first, if it does.
fn first_place(nodes: &[NodeId], node: NodeId) -> Option<usize>
    ensures { result ≡ position (λ other. other == node) nodes.now }
{
    nodes.iter().position(|&other| other == node)
}

/// Writes down one more than the place of each node.
fn set_slots(nodes: &[NodeId], slots: &mut [u16])
    requires nodes { (node : ℕ) → has_node nodes.now node ≡ true → node < length slots.old }
    requires few { length nodes.now ≤ 24576 }
    requires none { (node : ℕ) → place_in slots.old node ≡ None }
    ensures { (node : ℕ) → IsPlaceOf nodes.now node (place_in slots.new node) }
{
    for (place, node) in nodes.iter().enumerate() {
        slots[*node as usize] = place as u16 + 1;
    }
}
