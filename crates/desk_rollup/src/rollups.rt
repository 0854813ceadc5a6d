ghost use Rattle.std.specs.Prelude.{◌≡◌, ◌+◌, ◌<◌, ◌≤◌, ℕ, true, false, [], List, None, length, map, slice_index, unwrap_or, vec_capacity, IfErr, IfOk, IfSome};
ghost use Rattle.desk_graph.specs.Graph.{Graph, lines_of_node};
ghost use Rattle.desk_graph.specs.Reaches.{AreAffected, has_node};
ghost use Rattle.desk_rollup.specs.Chain.{hop_chain, next_hop};
ghost use Rattle.desk_rollup.specs.Numbers.{Rises, hop_numbers, mark_number};
ghost use Rattle.desk_rollup.specs.Plan.{AreDistinct, AreRolledUp, CanPrepare, IsWithinLimits, IsRefused, IsRollPlan, nodes_of_owns};
ghost use Rattle.desk_rollup.specs.Values.{AreHopsInOrder, DoFit, OwnValues, hop_of, hop_total, own_at, own_with, rolled_at};

use crate::fault::RollFault;
use crate::hop::Hop;
use crate::hops::place_of;
use crate::mark::Mark;
use crate::own::Own;
use crate::places::Places;
use crate::plan::RollPlan;
use crate::rolled::Rolled;
use crate::sweep::Sweep;
use desk_graph::{BillLine, BillView, NodeId, OutOfMemory, Steps};
use std::alloc::Global;
use std::marker::Model;
use std::sync::ledger::Ledger;

/// The greatest number of nodes in a bill.
const NODE_LIMIT: usize = 24_576;

/// What is kept of the nodes of a bill: their own values, and what these come to along the lines. Contracts see both by number.
pub struct Rollups {
    pub(crate) owns: Vec<Own>,
    pub(crate) rolled: Vec<Rolled>,
    /// How many hops all nodes have together, or none once there were too many to count.
    pub(crate) hops: Option<usize>,
}

// Written out, so that a function that owns one does not prove anew how each part is dropped.
impl Drop for Rollups {
    fn drop(self) {
        let Rollups {
            owns: _,
            rolled: _,
            hops: _,
        } = self;
    }
}

impl Model for Rollups {
    ghost use Rattle.desk_rollup.specs.Values.{KeptValues};

    ghost Value = { KeptValues };

    ghost view = { λ rollups. record {
      owns = rollups.owns.items;
      rolled = rollups.rolled.items;
    } };

    ghost use Rattle.desk_rollup.specs.Inside.{HoldsTogether};

    ghost invariant = { HoldsTogether };
}

impl Rollups {
    /// Nothing is kept. Room for all nodes that a bill may have is taken at once.
    pub fn start(alloc: Global) -> Result<Rollups, OutOfMemory>
        ensures { IfOk result (λ rollups. rollups ≡ record { owns = []; rolled = [] }) }
    {
        Ok(Rollups {
            owns: Vec::with_capacity(alloc, NODE_LIMIT)?,
            rolled: Vec::with_capacity(alloc, NODE_LIMIT)?,
            hops: Some(0),
        })
    }

    /// The same values once more, with room for all nodes that a bill may have. Lists of hops are shared.
    pub fn copied(&self, alloc: Global) -> Result<Rollups, OutOfMemory>
        ensures { IfOk result (λ rollups. rollups ≡ self.now) }
    {
        Ok(Rollups {
            owns: owns_with_room(alloc, self.owns.as_slice())?,
            rolled: rolled_with_room(alloc, self.rolled.as_slice())?,
            hops: self.hops,
        })
    }

    /// Makes new own values of nodes ready, with the values of all nodes that they replace.
    pub fn prepare<B: BillView, L: Ledger>(
        &self,
        alloc: Global,
        bill: &B,
        owns: &[Own],
        steps: &mut Steps<L>,
    ) -> Result<RollPlan, RollFault>
        requires { CanPrepare (B.graph bill.now) owns.now self.now }
        ensures plan { IfOk result (λ plan. IsRollPlan (B.graph bill.now) owns.now self.now plan) }
        ensures accepted { IfOk result (λ plan. IsWithinLimits (B.graph bill.now) (own_with owns.now self.now.owns)) }
        ensures refused { IfErr result (λ fault. IsRefused (B.graph bill.now) (own_with owns.now self.now.owns) fault) }
        ensures steps { IfOk result (λ plan. steps.new ≡ steps.old + length plan.nodes) }
        ensures few_steps { (nodes : List ℕ) → AreAffected (B.graph bill.now).lines (nodes_of_owns owns.now) nodes → steps.new ≤ steps.old + length nodes }
    {
        // A look at a field tells the proof what all roll-ups keep.
        let _ = &self.rolled;
        let count = bill.node_count();
        let seeds = nodes_of(alloc, owns)?;
        let nodes = bill.affected(alloc, seeds.as_slice())?;
        let lists = lists_of(alloc, bill, nodes.as_slice(), steps)?;
        let of_owns = Places::new(alloc, seeds, count)?;
        let places = Places::new(alloc, nodes, count)?;
        let sweep = Sweep {
            bill,
            kept: self,
            owns,
            of_owns: &of_owns,
            places: &places,
            lists: lists.as_slice(),
        };
        let rolled = sweep.judged(alloc)?;
        Ok(RollPlan {
            alloc,
            count,
            owns: copied_owns(alloc, owns)?,
            places,
            rolled,
        })
    }

    /// Puts the plan in. It isn't refused, and takes no memory.
    pub fn commit(&mut self, plan: RollPlan)
        requires { (g : Graph) × (owns : List OwnValues) × IsRollPlan g owns self.old plan }
        ensures rolled { (g : Graph) → (owns : List OwnValues) → IsRollPlan g owns self.old plan → AreRolledUp g self.new }
        ensures owns { (g : Graph) → (owns : List OwnValues) → IsRollPlan g owns self.old plan →
            (node : ℕ) → node < length g.labels → own_at self.new.owns node ≡ own_with owns self.old.owns node }
    {
        let RollPlan {
            alloc,
            count,
            owns,
            places,
            rolled,
        } = plan;
        self.grow(alloc, count);
        put_owns(self.owns.as_mut_slice(), owns);
        let kept = self.rolled.as_mut_slice();
        self.hops = put_rolled(kept, places.as_slice(), rolled, self.hops);
    }

    /// Sees to it that so many nodes are kept. New ones have nothing. It takes no memory.
    fn grow(&mut self, alloc: Global, count: usize)
        requires few { count ≤ 24576 }
        requires more { length self.old.rolled ≤ count }
        ensures owns_size { length self.new.owns ≡ count }
        ensures rolled_size { length self.new.rolled ≡ count }
        ensures owns { (node : ℕ) → own_at self.new.owns node ≡ own_at self.old.owns node }
        ensures rolled { (node : ℕ) → rolled_at self.new.rolled node ≡ rolled_at self.old.rolled node }
    {
        for _ in self.rolled.len()..count {
            self.owns.push_reserved(Own::none(alloc));
            self.rolled.push_reserved(Rolled::none(alloc));
        }
    }

    /// The own values that are kept of a node.
    pub(crate) fn own(&self, node: NodeId) -> &Own
        requires { node < length self.now.rolled }
        ensures { result.now ≡ own_at self.now.owns node }
    {
        &self.owns[node as usize]
    }

    /// The values that are kept, by node.
    pub(crate) fn values(&self) -> &[Rolled]
        ensures values { result.now ≡ self.now.rolled }
        ensures owns { length self.now.owns ≡ length self.now.rolled }
        ensures fit { DoFit self.now.rolled }
        ensures order { AreHopsInOrder self.now.rolled }
    {
        self.rolled.as_slice()
    }

    /// How many hops all nodes have together, unless there were too many to count.
    pub(crate) fn hops(&self) -> Option<usize>
        ensures { IfSome result (λ hops. hops ≡ hop_total self.now.rolled) }
    {
        self.hops
    }

    /// The values that are kept of a node. It takes one step.
    pub fn peek<L: Ledger>(&self, id: NodeId, steps: &mut Steps<L>) -> &Rolled
        requires { id < length self.now.rolled }
        ensures values { result.now ≡ rolled_at self.now.rolled id }
        ensures steps { steps.new ≡ steps.old + 1 }
    {
        steps.tick();
        &self.rolled[id as usize]
    }

    /// The chain from a node to a mark of it: the nodes to which the hops lead, the first and the last included. It takes a step for
    /// each line.
    pub fn chain<L: Ledger>(
        &self,
        alloc: Global,
        from: NodeId,
        mark: &Mark,
        steps: &mut Steps<L>,
    ) -> Result<Vec<NodeId>, OutOfMemory>
        ensures nodes { IfOk result (λ nodes. nodes.items ≡ hop_chain self.now.rolled (mark_number mark.now) from) }
        ensures steps { IfOk result (λ nodes. steps.new + 1 ≡ steps.old + length nodes.items) }
    {
        let mut nodes = Vec::new(alloc);
        nodes.push(from)?;
        let mut at = from;
        for _ in 0..self.rolled.len() {
            let Some(next) = self.next_to(at, mark) else {
                return Ok(nodes);
            };
            steps.tick();
            nodes.push(next)?;
            at = next;
        }
        Ok(nodes)
    }

    /// Where the way to a mark goes on from a node, if it does.
    fn next_to(&self, node: NodeId, mark: &Mark) -> Option<NodeId>
        ensures { result ≡ next_hop self.now.rolled (mark_number mark.now) node }
    {
        if node as usize >= self.rolled.len() {
            return None;
        }
        let values = &self.rolled[node as usize];
        next_in(values.hops.as_slice(), mark.number())
    }
}

/// Where the hop of a mark leads, if it leads on. It takes a binary search.
fn next_in(hops: &[Hop], number: u64) -> Option<NodeId>
    requires { Rises (hop_numbers hops.now) }
    ensures { result ≡ unwrap_or (hop_of hops.now number) None }
{
    let at = place_of(hops, number);
    if at >= hops.len() {
        return None;
    }
    if hops[at].mark.number() != number {
        return None;
    }
    hops[at].next
}

/// The nodes of the own values.
fn nodes_of(alloc: Global, owns: &[Own]) -> Result<Vec<NodeId>, OutOfMemory>
    ensures { IfOk result (λ nodes. nodes.items ≡ nodes_of_owns owns.now) }
{
    Ok(owns.iter().map(|own| own.node).collect(alloc)?)
}

/// The own values once more.
fn copied_owns(alloc: Global, owns: &[Own]) -> Result<Vec<Own>, OutOfMemory>
    ensures { IfOk result (λ copy. copy.items ≡ owns.now) }
{
    let mut copy = Vec::with_capacity(alloc, owns.len())?;
    for own in owns {
        copy.push(own.copied(alloc)?)?;
    }
    Ok(copy)
}

/// The own values once more, with room for those of all nodes that a bill may have.
fn owns_with_room(alloc: Global, owns: &[Own]) -> Result<Vec<Own>, OutOfMemory>
    ensures owns { IfOk result (λ copy. copy.items ≡ owns.now) }
    ensures room { IfOk result (λ copy. 24576 ≤ vec_capacity copy) }
{
    let mut copy = Vec::with_capacity(alloc, owns.len().max(NODE_LIMIT))?;
    for own in owns {
        copy.push_reserved(own.copied(alloc)?);
    }
    Ok(copy)
}

/// The values once more, with room for those of all nodes that a bill may have.
fn rolled_with_room(alloc: Global, rolled: &[Rolled]) -> Result<Vec<Rolled>, OutOfMemory>
    ensures rolled { IfOk result (λ copy. copy.items ≡ rolled.now) }
    ensures room { IfOk result (λ copy. 24576 ≤ vec_capacity copy) }
{
    let mut copy = Vec::with_capacity(alloc, rolled.len().max(NODE_LIMIT))?;
    for values in rolled {
        copy.push_reserved(values.copied(alloc)?);
    }
    Ok(copy)
}

/// The lines of each of the nodes. It takes a step for each.
fn lists_of<'b, B: BillView, L: Ledger>(
    alloc: Global,
    bill: &'b B,
    nodes: &[NodeId],
    steps: &mut Steps<L>,
) -> Result<Vec<&'b [BillLine]>, OutOfMemory>
    requires { (place : ℕ) → place < length nodes.now → slice_index nodes.now place < length (B.graph bill.now).labels }
    ensures lists { IfOk result (λ lists. map (λ list. list.now) lists.items ≡ map (lines_of_node (B.graph bill.now).lines) nodes.now) }
    ensures steps { IfOk result (λ lists. steps.new ≡ steps.old + length nodes.now) }
    ensures few_steps { steps.new ≤ steps.old + length nodes.now }
{
    let mut lists = Vec::with_capacity(alloc, nodes.len())?;
    for node in nodes {
        lists.push(bill.lines(*node, steps))?;
    }
    Ok(lists)
}

/// Puts own values in at their nodes.
fn put_owns(kept: &mut [Own], new: Vec<Own>)
    requires inside { (node : ℕ) → has_node (nodes_of_owns new.items) node ≡ true → node < length kept.old }
    requires distinct { AreDistinct (nodes_of_owns new.items) }
    ensures size { length kept.new ≡ length kept.old }
    ensures owns { (node : ℕ) → own_at kept.new node ≡ own_with new.items kept.old node }
{
    for own in new {
        let node = own.node as usize;
        kept[node] = own;
    }
}

/// Puts values in, each at its node, and gives how many hops all nodes have then, if it is told how many they have now.
fn put_rolled(
    kept: &mut [Rolled],
    nodes: &[NodeId],
    mut new: Vec<Rolled>,
    mut hops: Option<usize>,
) -> Option<usize>
    requires distinct { AreDistinct nodes.now }
    requires inside { (node : ℕ) → has_node nodes.now node ≡ true → node < length kept.old }
    requires sizes { length new.items ≡ length nodes.now }
    requires hops { IfSome hops (λ hops. hops ≡ hop_total kept.old) }
    ensures size { length kept.new ≡ length kept.old }
    ensures stays { (node : ℕ) → has_node nodes.now node ≡ false → rolled_at kept.new node ≡ rolled_at kept.old node }
    ensures put { (place : ℕ) → place < length nodes.now → rolled_at kept.new (slice_index nodes.now place) ≡ rolled_at new.items place }
    ensures fit { DoFit kept.old → DoFit new.items → DoFit kept.new }
    ensures order { AreHopsInOrder kept.old → AreHopsInOrder new.items → AreHopsInOrder kept.new }
    ensures hops { IfSome result (λ hops. hops ≡ hop_total kept.new) }
{
    while let Some(values) = new.pop() {
        let node = nodes[new.len()] as usize;
        hops = exchanged(hops, kept[node].hop_count(), values.hop_count());
        kept[node] = values;
    }
    hops
}

/// The sum once one of its parts is exchanged for another, if that can be told.
fn exchanged(sum: Option<usize>, old: usize, new: usize) -> Option<usize>
    ensures { (rest : ℕ) → IfSome sum (λ sum. sum ≡ rest + old) → IfSome result (λ sum. sum ≡ rest + new) }
{
    sum?.checked_sub(old)?.checked_add(new)
}
