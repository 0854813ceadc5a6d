ghost use Rattle.std.specs.Prelude.{◌≡◌, ◌==◌, ◌+◌, ◌<◌, ◌≤◌, length, map, nat_lt, if◌then◌else◌, IfErr, IfNone, IfOk, IfSome};
ghost use Rattle.desk_graph.specs.Graph.{lines_of_node};
ghost use Rattle.desk_graph.specs.Reaches.{has_node};
ghost use Rattle.desk_rollup.specs.Places.{IsKnown, known, place_at};
ghost use Rattle.desk_rollup.specs.Plan.{AllFit, IsWithinLimits, IsRefused, nodes_of_owns};
ghost use Rattle.desk_rollup.specs.Rolled.{mark_count, weight};
ghost use Rattle.desk_rollup.specs.Sweep.{AreRolledOf, IsSweep, IsTooLargeOr, lesser_of};
ghost use Rattle.desk_rollup.specs.Values.{hop_total, own_with};
ghost use Rattle.desk_rollup.specs.Weights.{fitting};

use crate::fault::RollFault;
use crate::own::Own;
use crate::places::Places;
use crate::rolled::Rolled;
use crate::roller::Roller;
use crate::rollups::Rollups;
use crate::values::Values;
use crate::weights::weigh;
use desk_graph::{BillLine, BillView, NodeId, OutOfMemory};
use std::alloc::Global;

/// The greatest number of marks that the nodes with lines may have together.
pub const MARK_LIMIT: usize = 4_194_304;

/// What a sweep over the affected nodes goes by.
#[derive(Drop)]
pub struct Sweep<'a, B> {
    pub bill: &'a B,
    pub kept: &'a Rollups,
    pub owns: &'a [Own],
    pub of_owns: &'a Places,
    pub places: &'a Places,
    pub lists: &'a [&'a [BillLine]],
}

impl<'a, B: BillView> Sweep<'a, B> {
    /// The new own values of a node, or those that are kept of it.
    fn own(&self, node: NodeId) -> &Own
        requires sweep { IsSweep (B.graph self.now.bill.now) self.now.owns.now self.now.kept.now self.now.of_owns.now self.now.places.now (map (λ list. list.now) self.now.lists.now) }
        requires there { node < length (B.graph self.now.bill.now).labels }
        ensures { result.now ≡ own_with self.now.owns.now self.now.kept.now.owns node }
    {
        match self.of_owns.place_of(node) {
            Some(place) => &self.owns[place],
            None => self.kept.own(node),
        }
    }

    /// Whether a node is given new own values.
    fn is_given(&self, node: NodeId) -> bool
        requires { IsSweep (B.graph self.now.bill.now) self.now.owns.now self.now.kept.now self.now.of_owns.now self.now.places.now (map (λ list. list.now) self.now.lists.now) }
        ensures { result ≡ has_node (nodes_of_owns self.now.owns.now) node }
    {
        match self.of_owns.place_of(node) {
            Some(_) => true,
            None => false,
        }
    }

    /// The values of each affected node, or why they are refused.
    pub fn judged(&self, alloc: Global) -> Result<Vec<Rolled>, RollFault>
        requires { IsSweep (B.graph self.now.bill.now) self.now.owns.now self.now.kept.now self.now.of_owns.now self.now.places.now (map (λ list. list.now) self.now.lists.now) }
        ensures size { IfOk result (λ rolled. length rolled.items ≡ length self.now.places.now.nodes) }
        ensures right { IfOk result (λ rolled. AreRolledOf (B.graph self.now.bill.now) self.now.owns.now self.now.kept.now self.now.places.now.nodes rolled.items) }
        ensures accepted { IfOk result (λ rolled. IsWithinLimits (B.graph self.now.bill.now) (own_with self.now.owns.now self.now.kept.now.owns)) }
        ensures refused { IfErr result (λ fault. IsRefused (B.graph self.now.bill.now) (own_with self.now.owns.now self.now.kept.now.owns) fault) }
    {
        let Some(rolled) = self.rolled(alloc)? else {
            return Err(self.fault(alloc)?);
        };
        if self.are_marks_too_many(rolled.as_slice()) {
            return Err(RollFault::MarksFull);
        }
        Ok(rolled)
    }

    /// Why the values are refused, where a weight is too large or else there are too many marks. All weights are computed anew, as not
    /// all nodes were given values.
    fn fault(&self, alloc: Global) -> Result<RollFault, OutOfMemory>
        requires sweep { IsSweep (B.graph self.now.bill.now) self.now.owns.now self.now.kept.now self.now.of_owns.now self.now.places.now (map (λ list. list.now) self.now.lists.now) }
        requires marks { AllFit (B.graph self.now.bill.now) (own_with self.now.owns.now self.now.kept.now.owns) → 4194304 < mark_count (B.graph self.now.bill.now).lines (own_with self.now.owns.now self.now.kept.now.owns) }
        ensures { IfOk result (λ fault. IsRefused (B.graph self.now.bill.now) (own_with self.now.owns.now self.now.kept.now.owns) fault) }
    {
        let weights = self.weights(alloc)?;
        match self.first_too_large(weights.as_slice()) {
            Some(node) => Ok(RollFault::WeightTooLarge { node }),
            None => Ok(RollFault::MarksFull),
        }
    }

    /// The weight of each affected node, unless it is 2^128 or more.
    fn weights(&self, alloc: Global) -> Result<Vec<Option<u128>>, OutOfMemory>
        requires { IsSweep (B.graph self.now.bill.now) self.now.owns.now self.now.kept.now self.now.of_owns.now self.now.places.now (map (λ list. list.now) self.now.lists.now) }
        ensures { IfOk result (λ weights. weights.items ≡ map (λ node. fitting (weight (B.graph self.now.bill.now).lines (own_with self.now.owns.now self.now.kept.now.owns) node)) self.now.places.now.nodes) }
    {
        let mut weights = Vec::with_capacity(alloc, self.lists.len())?;
        for (place, node) in self.places.as_slice().iter().enumerate() {
            let own = self.own(*node);
            let weight = weigh(
                own.weight,
                self.lists[place],
                self.places,
                self.kept.values(),
                weights.as_slice(),
            );
            weights.push(weight)?;
        }
        Ok(weights)
    }

    /// The values of each affected node, unless a weight is too large or there are too many marks: no more values are made then.
    fn rolled(&self, alloc: Global) -> Result<Option<Vec<Rolled>>, OutOfMemory>
        requires { IsSweep (B.graph self.now.bill.now) self.now.owns.now self.now.kept.now self.now.of_owns.now self.now.places.now (map (λ list. list.now) self.now.lists.now) }
        ensures size { IfOk result (λ found. IfSome found (λ rolled. length rolled.items ≡ length self.now.places.now.nodes)) }
        ensures right { IfOk result (λ found. IfSome found (λ rolled. AreRolledOf (B.graph self.now.bill.now) self.now.owns.now self.now.kept.now self.now.places.now.nodes rolled.items)) }
        ensures fit { IfOk result (λ found. IfSome found (λ _. AllFit (B.graph self.now.bill.now) (own_with self.now.owns.now self.now.kept.now.owns))) }
        ensures refused { IfOk result (λ found. IfNone found (AllFit (B.graph self.now.bill.now) (own_with self.now.owns.now self.now.kept.now.owns) → 4194304 < mark_count (B.graph self.now.bill.now).lines (own_with self.now.owns.now self.now.kept.now.owns))) }
    {
        let mut roller = Roller::new(alloc);
        let mut rolled = Vec::with_capacity(alloc, self.lists.len())?;
        let mut marks = 0;
        for (place, node) in self.places.as_slice().iter().enumerate() {
            let values = Values {
                places: self.places,
                kept: self.kept.values(),
                new: rolled.as_slice(),
            };
            let own = self.own(*node);
            let is_given = self.is_given(*node);
            let lines = self.lists[place];
            let Some(new) = roller.roll(alloc, *node, own, is_given, lines, &values)? else {
                return Ok(None);
            };
            marks = with_hops(marks, lines, &new);
            rolled.push(new)?;
            if marks > MARK_LIMIT {
                return Ok(None);
            }
        }
        Ok(Some(rolled))
    }

    /// Of the nodes whose weight is too large the one with the least label.
    fn first_too_large(&self, weights: &[Option<u128>]) -> Option<NodeId>
        requires sweep { IsSweep (B.graph self.now.bill.now) self.now.owns.now self.now.kept.now self.now.of_owns.now self.now.places.now (map (λ list. list.now) self.now.lists.now) }
        requires weights { weights.now ≡ map (λ node. fitting (weight (B.graph self.now.bill.now).lines (own_with self.now.owns.now self.now.kept.now.owns) node)) self.now.places.now.nodes }
        ensures { IsTooLargeOr (B.graph self.now.bill.now) (own_with self.now.owns.now self.now.kept.now.owns) result }
    {
        let mut first = None;
        for (place, node) in self.places.as_slice().iter().enumerate() {
            first = self.lesser_of(first, *node, weights[place]);
        }
        first
    }

    /// Of the first of two nodes, if there is one, and of the second, if its weight is too large, the one with the lesser label.
    fn lesser_of(&self, first: Option<NodeId>, node: NodeId, weight: Option<u128>) -> Option<NodeId>
        requires there { node < length (B.graph self.now.bill.now).labels }
        requires first { IfSome first (λ other. other < length (B.graph self.now.bill.now).labels) }
        ensures { result ≡ lesser_of (B.graph self.now.bill.now).labels first node weight }
    {
        if weight.is_some() {
            return first;
        }
        let Some(other) = first else {
            return Some(node);
        };
        if self.bill.label(node).cmp(self.bill.label(other)).is_lt() {
            return Some(node);
        }
        first
    }

    /// Whether the nodes that have lines have more marks than there may be.
    fn are_marks_too_many(&self, rolled: &[Rolled]) -> bool
        requires sweep { IsSweep (B.graph self.now.bill.now) self.now.owns.now self.now.kept.now self.now.of_owns.now self.now.places.now (map (λ list. list.now) self.now.lists.now) }
        requires fit { AllFit (B.graph self.now.bill.now) (own_with self.now.owns.now self.now.kept.now.owns) }
        requires size { length rolled.now ≡ length self.now.places.now.nodes }
        requires right { AreRolledOf (B.graph self.now.bill.now) self.now.owns.now self.now.kept.now self.now.places.now.nodes rolled.now }
        ensures { result ≡ nat_lt 4194304 (mark_count (B.graph self.now.bill.now).lines (own_with self.now.owns.now self.now.kept.now.owns)) }
    {
        if let Some(most) = self.most_hops(rolled)
            && most <= MARK_LIMIT
        {
            return false;
        }
        let values = Values {
            places: self.places,
            kept: self.kept.values(),
            new: rolled,
        };
        let mut sum = 0;
        for node in 0..self.bill.node_count() {
            sum = self.with_marks(sum, node as NodeId, &values);
            if sum > MARK_LIMIT {
                return true;
            }
        }
        false
    }

    /// How many hops are kept of all nodes and stand in the new values, if that can be told. It is no less than there will be.
    fn most_hops(&self, rolled: &[Rolled]) -> Option<usize>
        ensures { IfSome result (λ most. most ≡ hop_total self.now.kept.now.rolled + hop_total rolled.now) }
    {
        let mut sum = self.kept.hops()?;
        for values in rolled {
            sum = sum.checked_add(values.hop_count())?;
        }
        Some(sum)
    }

    /// The sum together with the marks of a node, if it has lines.
    fn with_marks(&self, sum: usize, node: NodeId, values: &Values) -> usize
        requires there { node < length (B.graph self.now.bill.now).labels }
        requires known { IsKnown (place_at values.now.places.now node) values.now.kept.now values.now.new.now node }
        requires small { sum ≤ 4194304 }
        ensures { result ≡ sum + (if length (lines_of_node (B.graph self.now.bill.now).lines node) == 0 then 0
            else length (known (place_at values.now.places.now node) values.now.kept.now values.now.new.now node).hops) }
    {
        if self.bill.line_count(node) == 0 {
            return sum;
        }
        sum + values.of(node).hops.as_slice().len()
    }
}

/// The sum together with the hops of a node, if it has lines.
fn with_hops(sum: usize, lines: &[BillLine], values: &Rolled) -> usize
    requires { sum ≤ 4194304 }
    ensures { result ≡ sum + (if length lines.now == 0 then 0 else length values.now.hops) }
{
    if lines.len() == 0 {
        return sum;
    }
    sum + values.hops.as_slice().len()
}
