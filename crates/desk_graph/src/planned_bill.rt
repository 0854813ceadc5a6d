ghost use Rattle.std.specs.Prelude.{◌≡◌, ◌+◌, ◌<◌, ℕ, true, length, IfOk};
ghost use Rattle.desk_graph.specs.Bill.{IsBillGraph};
ghost use Rattle.desk_graph.specs.Graph.{IsByLabel, label_of, lines_of_node};
ghost use Rattle.desk_graph.specs.Planned.{IsBillPlan, graph_after};
ghost use Rattle.desk_graph.specs.Reaches.{AreAffected, AreChildrenFirst, has_node};

use crate::bill::Bill;
use crate::bill_plan::BillPlan;
use crate::line::{BillLine, NodeId};
use crate::memory::OutOfMemory;
use crate::steps::Steps;
use std::alloc::Global;
use std::marker::Model;
use std::sync::ledger::Ledger;

/// A bill as it will be once a plan is committed. Neither is copied. Contracts see that bill.
#[derive(Drop)]
pub struct PlannedBill<'a> {
    bill: &'a Bill,
    plan: &'a BillPlan,
}

impl<'a> Model for PlannedBill<'a> {
    ghost use Rattle.desk_graph.specs.Graph.{Graph};

    ghost Value = { Graph };

    ghost use Rattle.desk_graph.specs.Planned.{IsBillPlan, graph_after};

    ghost view = { λ after. graph_after after.plan.now after.bill.now };

    ghost invariant = { λ after. IsBillPlan after.bill.now after.plan.now };
}

impl<'a> PlannedBill<'a> {
    /// The bill after the plan.
    pub fn new(bill: &'a Bill, plan: &'a BillPlan) -> PlannedBill<'a>
        requires { IsBillPlan bill.now plan.now }
        ensures { result ≡ graph_after plan.now bill.now }
    {
        PlannedBill { bill, plan }
    }

    /// How many nodes the bill has then. Their numbers are those below this.
    pub fn node_count(&self) -> usize
        ensures count { result ≡ length self.now.labels }
        ensures bill { IsBillGraph self.now }
    {
        self.bill.node_count_after(self.plan)
    }

    /// The label of a node.
    pub fn label(&self, id: NodeId) -> &[u8]
        requires { id < length self.now.labels }
        ensures { result.now ≡ label_of self.now.labels id }
    {
        self.bill.label_after(self.plan, id)
    }

    /// How many lines lead from a node to its children then.
    pub fn line_count(&self, id: NodeId) -> usize
        requires { id < length self.now.labels }
        ensures { result ≡ length (lines_of_node self.now.lines id) }
    {
        self.bill.lines_after(self.plan, id).len()
    }

    /// The lines of a node to its children, in the order of their labels. It takes one step.
    pub fn lines<L: Ledger>(&self, id: NodeId, steps: &mut Steps<L>) -> &[BillLine]
        requires { id < length self.now.labels }
        ensures lines { result.now ≡ lines_of_node self.now.lines id }
        ensures by_label { IsByLabel self.now.labels result.now }
        ensures steps { steps.new ≡ steps.old + 1 }
    {
        steps.tick();
        self.bill.lines_after(self.plan, id)
    }

    /// The seeds and all nodes that reach one, each once, every child before its parents.
    pub fn affected(&self, alloc: Global, seeds: &[NodeId]) -> Result<Vec<NodeId>, OutOfMemory>
        requires { (node : ℕ) → has_node seeds.now node ≡ true → node < length self.now.labels }
        ensures nodes { IfOk result (λ nodes. AreAffected self.now.lines seeds.now nodes.items) }
        ensures children_first { IfOk result (λ nodes. AreChildrenFirst self.now.lines nodes.items) }
    {
        self.bill.affected_after(alloc, self.plan, seeds)
    }
}
