ghost use Rattle.std.specs.Prelude.{◌≡◌, ◌+◌, ◌<◌, ℕ, true, length, IfOk};
ghost use Rattle.desk_graph.specs.Bill.{IsBillGraph};
ghost use Rattle.desk_graph.specs.Graph.{Graph, IsByLabel, label_of, lines_of_node};
ghost use Rattle.desk_graph.specs.Reaches.{AreAffected, AreChildrenFirst, has_node};

use crate::bill::Bill;
use crate::line::{BillLine, NodeId};
use crate::memory::OutOfMemory;
use crate::planned_bill::PlannedBill;
use crate::steps::Steps;
use std::alloc::Global;
use std::sync::ledger::Ledger;

/// A bill that can be read: as it is, or as a plan will leave it.
pub trait BillView {
    // The labels and the lines of the nodes by number.
    ghost graph: { Self → Graph };

    /// How many nodes the bill has. Their numbers are those below this.
    fn node_count(&self) -> usize
        ensures count { result ≡ length (graph self.now).labels }
        ensures bill { IsBillGraph (graph self.now) };

    /// The label of a node.
    fn label(&self, id: NodeId) -> &[u8]
        requires { id < length (graph self.now).labels }
        ensures { result.now ≡ label_of (graph self.now).labels id };

    /// How many lines lead from a node to its children.
    fn line_count(&self, id: NodeId) -> usize
        requires { id < length (graph self.now).labels }
        ensures { result ≡ length (lines_of_node (graph self.now).lines id) };

    /// The lines of a node to its children, in the order of their labels. It takes one step.
    fn lines<L: Ledger>(&self, id: NodeId, steps: &mut Steps<L>) -> &[BillLine]
        requires { id < length (graph self.now).labels }
        ensures lines { result.now ≡ lines_of_node (graph self.now).lines id }
        ensures by_label { IsByLabel (graph self.now).labels result.now }
        ensures steps { steps.new ≡ steps.old + 1 };

    /// The seeds and all nodes that reach one, each once, every child before its parents.
    fn affected(&self, alloc: Global, seeds: &[NodeId]) -> Result<Vec<NodeId>, OutOfMemory>
        requires { (node : ℕ) → has_node seeds.now node ≡ true → node < length (graph self.now).labels }
        ensures nodes { IfOk result (λ nodes. AreAffected (graph self.now).lines seeds.now nodes.items) }
        ensures children_first { IfOk result (λ nodes. AreChildrenFirst (graph self.now).lines nodes.items) };
}

impl BillView for Bill {
    ghost graph = { λ bill. bill };

    fn node_count(&self) -> usize {
        Bill::node_count(self)
    }

    fn label(&self, id: NodeId) -> &[u8] {
        Bill::label(self, id)
    }

    fn line_count(&self, id: NodeId) -> usize {
        Bill::line_count(self, id)
    }

    fn lines<L: Ledger>(&self, id: NodeId, steps: &mut Steps<L>) -> &[BillLine] {
        Bill::lines(self, id, steps)
    }

    fn affected(&self, alloc: Global, seeds: &[NodeId]) -> Result<Vec<NodeId>, OutOfMemory> {
        Bill::affected(self, alloc, seeds)
    }
}

impl<'a> BillView for PlannedBill<'a> {
    ghost graph = { λ bill. bill };

    fn node_count(&self) -> usize {
        PlannedBill::node_count(self)
    }

    fn label(&self, id: NodeId) -> &[u8] {
        PlannedBill::label(self, id)
    }

    fn line_count(&self, id: NodeId) -> usize {
        PlannedBill::line_count(self, id)
    }

    fn lines<L: Ledger>(&self, id: NodeId, steps: &mut Steps<L>) -> &[BillLine] {
        PlannedBill::lines(self, id, steps)
    }

    fn affected(&self, alloc: Global, seeds: &[NodeId]) -> Result<Vec<NodeId>, OutOfMemory> {
        PlannedBill::affected(self, alloc, seeds)
    }
}
