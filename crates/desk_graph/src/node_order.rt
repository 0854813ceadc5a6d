ghost use Rattle.std.specs.Prelude.{◌≡◌, ℕ, ◌<◌, ◌≤◌, ◌^◌, [], ◌∷◌, ◌++◌, true, false, filter, length, slice_index, vec_len, vec_capacity, IfOk};
ghost use Rattle.desk_graph.specs.Order.{AreBehind, HasOnce, IsMovedBehind, IsSwept, StandsBefore, has_mark};
ghost use Rattle.desk_graph.specs.Reaches.{has_node};

use crate::line::NodeId;
use crate::line_list::LineList;
use crate::memory::OutOfMemory;
use crate::sweep::{mark_from, push_marked};
use crate::users::Users;
use std::alloc::Global;
use std::marker::Model;
use std::mem;

/// The greatest number of nodes in a bill.
pub const NODE_LIMIT: usize = 24_576;

/// The nodes of a bill, each once, in an order. Contracts see the list.
///
/// It keeps the place of each node, and room for all nodes that a bill may have, so that no change of it takes memory.
pub struct NodeOrder {
    nodes: Vec<NodeId>,
    places: Vec<u32>,
    marks: Vec<bool>,
    room: Vec<NodeId>,
}

// Written out, so that a function that owns one does not prove anew how each part is dropped.
impl Drop for NodeOrder {
    fn drop(self) {
        let NodeOrder {
            nodes: _,
            places: _,
            marks: _,
            room: _,
        } = self;
    }
}

impl Model for NodeOrder {
    ghost use Rattle.std.specs.Prelude.{List, ℕ};

    ghost Value = { List ℕ };

    ghost use Rattle.desk_graph.specs.Places.{IsPlaced, nodes_in_order};

    ghost view = { nodes_in_order };

    ghost invariant = { IsPlaced };
}

impl NodeOrder {
    /// No nodes, and room for all that a bill may have.
    pub fn new(alloc: Global) -> Result<NodeOrder, OutOfMemory>
        ensures { IfOk result (λ order. order ≡ []) }
    {
        Ok(NodeOrder {
            nodes: Vec::with_capacity(alloc, NODE_LIMIT)?,
            places: Vec::with_capacity(alloc, NODE_LIMIT)?,
            marks: Vec::with_capacity(alloc, NODE_LIMIT)?,
            room: Vec::with_capacity(alloc, NODE_LIMIT)?,
        })
    }

    /// The nodes in their order.
    pub fn as_slice(&self) -> &[NodeId]
        ensures { result.now ≡ self.now }
    {
        self.nodes.as_slice()
    }

    /// The same order once more.
    pub fn copied(&self, alloc: Global) -> Result<NodeOrder, OutOfMemory>
        ensures { IfOk result (λ order. order ≡ self.now) }
    {
        Ok(NodeOrder {
            nodes: copied_numbers(alloc, self.nodes.as_slice())?,
            places: copied_numbers(alloc, self.places.as_slice())?,
            marks: copied_marks(alloc, self.marks.as_slice())?,
            room: Vec::with_capacity(alloc, NODE_LIMIT)?,
        })
    }

    /// Adds the next node behind all others.
    pub fn add(&mut self)
        requires { length self.old < 24576 }
        ensures { self.new ≡ self.old ++ length self.old ∷ [] }
    {
        let node = self.nodes.len() as u32;
        self.nodes.push_reserved(node);
        self.places.push_reserved(node);
        self.marks.push_reserved(false);
    }

    /// Whether the first node stands before the second.
    pub fn stands_before(&self, first: NodeId, second: NodeId) -> bool
        requires first { first < length self.now }
        requires second { second < length self.now }
        ensures { result ≡ true → StandsBefore self.now first second }
    {
        self.places[first as usize] < self.places[second as usize]
    }

    /// The place before which none of the nodes stands: the least of their places, or how many nodes there are.
    pub fn first_place(&self, nodes: &[NodeId]) -> usize
        requires { (node : ℕ) → has_node nodes.now node ≡ true → node < length self.now }
        ensures within { result ≤ length self.now }
        ensures early { AreBehind result self.now nodes.now }
    {
        let mut first = self.nodes.len();
        for node in nodes {
            first = first.min(self.places[*node as usize] as usize);
        }
        first
    }

    /// Moves the node and all from which lines lead to it behind all other nodes, each of the two parts in its old order.
    pub fn move_behind(&mut self, users: &[LineList], node: NodeId)
        requires node { node < length self.old }
        requires order { IsSwept users.now self.old }
        requires once { HasOnce self.old }
        ensures { IsMovedBehind users.now node self.old self.new }
    {
        mark_from(
            self.nodes.as_slice(),
            0,
            &Users::as_they_are(users),
            &[node],
            self.marks.as_mut_slice(),
        );
        move_marked(&mut self.nodes, &mut self.room, self.marks.as_slice());
        set_places(self.nodes.as_slice(), self.places.as_mut_slice());
    }
}

/// The numbers once more, with room for all nodes that a bill may have.
fn copied_numbers(alloc: Global, numbers: &[u32]) -> Result<Vec<u32>, OutOfMemory>
    requires { length numbers.now ≤ 24576 }
    ensures numbers { IfOk result (λ copy. copy.items ≡ numbers.now) }
    ensures room { IfOk result (λ copy. 24576 ≤ vec_capacity copy) }
{
    let mut copy = Vec::with_capacity(alloc, NODE_LIMIT)?;
    for number in numbers {
        copy.push_reserved(*number);
    }
    Ok(copy)
}

/// Marks once more, with room for all nodes that a bill may have.
fn copied_marks(alloc: Global, marks: &[bool]) -> Result<Vec<bool>, OutOfMemory>
    requires { length marks.now ≤ 24576 }
    ensures marks { IfOk result (λ copy. copy.items ≡ marks.now) }
    ensures room { IfOk result (λ copy. 24576 ≤ vec_capacity copy) }
{
    let mut copy = Vec::with_capacity(alloc, NODE_LIMIT)?;
    for mark in marks {
        copy.push_reserved(*mark);
    }
    Ok(copy)
}

/// Moves the marked nodes behind the others. `room` takes the new order, and gives the old one back.
fn move_marked(nodes: &mut Vec<NodeId>, room: &mut Vec<NodeId>, marks: &[bool])
    requires nodes { (place : ℕ) → place < length nodes.old.items → slice_index nodes.old.items place < length marks.now }
    requires room { vec_len nodes.old ≤ vec_capacity room.old }
    ensures nodes { nodes.new.items ≡ filter (has_mark false marks.now) nodes.old.items ++ filter (has_mark true marks.now) nodes.old.items }
    ensures capacity { vec_capacity room.old ≤ vec_capacity nodes.new }
    ensures room { vec_capacity nodes.old ≤ vec_capacity room.new }
{
    room.clear();
    push_marked(nodes.as_slice(), marks, false, room);
    push_marked(nodes.as_slice(), marks, true, room);
    mem::swap(nodes, room);
}

/// Writes down the place of each node.
fn set_places(nodes: &[NodeId], places: &mut [u32])
    requires small { length nodes.now < 2 ^ 32 }
    requires inside { (place : ℕ) → place < length nodes.now → slice_index nodes.now place < length places.old }
    requires once { HasOnce nodes.now }
    ensures size { length places.new ≡ length places.old }
    ensures places { (place : ℕ) → place < length nodes.now → slice_index places.new (slice_index nodes.now place) ≡ place }
{
    for (place, node) in nodes.iter().enumerate() {
        places[*node as usize] = place as u32;
    }
}
