ghost use Rattle.std.specs.Prelude.{◌≡◌, ◌≢◌, ◌+◌, ◌<◌, ◌≤◌, ℕ, true, false, [], None, length, slice_set, Ok, Err, IfOk, IfErr, OnOk, OnErr};
ghost use Rattle.desk_graph.specs.Bill.{IsBillGraph};
ghost use Rattle.desk_graph.specs.Edits.{is_taken, line_answer, with_line_in, with_node, without_line_in};
ghost use Rattle.desk_graph.specs.Graph.{IsByLabel, label_of, lines_of_node};
ghost use Rattle.desk_graph.specs.Planned.{IsBillPlan, IsChangeOf, changed_lines, plan_answer, graph_after};
ghost use Rattle.desk_graph.specs.Reaches.{AreAffected, AreChildrenFirst, has_node};

use crate::bill::{Bill, is_taken, make_way};
use crate::bill_plan::{BillPlan, LineChange};
use crate::fault::{LineFault, NodeFault, PlanFault};
use crate::label::Label;
use crate::line::{BillLine, NodeId};
use crate::line_list::{LineList, has_line_to};
use crate::memory::OutOfMemory;
use crate::node_order::NODE_LIMIT;
use crate::order_after::{leaves_order, order_after, push_next};
use crate::plan::LinePlan;
use crate::sweep::swept_nodes;
use crate::users::Users;
use std::alloc::Global;

impl Bill {
    /// Makes ready for no change. It takes no memory.
    pub fn plan_nothing(&self, alloc: Global) -> BillPlan
        ensures nothing { result ≡ record { labels = []; line = None } }
        ensures bill { graph_after result self.now ≡ self.now }
        ensures plan { IsBillPlan self.now result }
    {
        // A look at a field tells the proof what every bill keeps.
        let _ = &self.line_count;
        BillPlan::of_line(alloc, None)
    }

    /// Makes ready to enter a line or to replace its count. The faults are tried in the order of `LineFault`.
    pub fn plan_set(
        &self,
        alloc: Global,
        parent: NodeId,
        child: NodeId,
        count: u32,
    ) -> Result<BillPlan, LineFault>
        requires parent { parent < length self.now.labels }
        requires child { child < length self.now.labels }
        requires count { 1 ≤ count }
        ensures ready { IfOk result (λ plan. line_answer parent child count self.now ≡ Ok tt) }
        ensures refused { IfErr result (λ fault. fault ≢ LineFault.OutOfMemory → line_answer parent child count self.now ≡ Err fault) }
        ensures bill { IfOk result (λ plan. graph_after plan self.now ≡ with_line_in parent child count self.now) }
        ensures plan { IfOk result (λ plan. IsBillPlan self.now plan) }
    {
        // A look at a field tells the proof what every bill keeps.
        let _ = &self.line_count;
        let LinePlan {
            parent,
            child,
            count: _,
            lines,
            users,
        } = self.plan_line(alloc, parent, child, count)?;
        let change = LineChange {
            parent,
            child,
            lines,
            users,
        };
        Ok(BillPlan::of_line(alloc, Some(change)))
    }

    /// Makes ready to take the line out. Where it isn't there nothing is to be done.
    pub fn plan_drop(
        &self,
        alloc: Global,
        parent: NodeId,
        child: NodeId,
    ) -> Result<BillPlan, OutOfMemory>
        requires parent { parent < length self.now.labels }
        requires child { child < length self.now.labels }
        ensures bill { IfOk result (λ plan. graph_after plan self.now ≡ without_line_in parent child self.now) }
        ensures plan { IfOk result (λ plan. IsBillPlan self.now plan) }
    {
        let lines = &self.lines[parent as usize];
        if !has_line_to(lines.as_slice(), child) {
            return Ok(BillPlan::of_line(alloc, None));
        }
        let change = LineChange {
            parent,
            child,
            lines: lines.without(alloc, child)?,
            users: self.users[child as usize].without(alloc, parent)?,
        };
        Ok(BillPlan::of_line(alloc, Some(change)))
    }

    /// Makes ready to add a node without lines, behind what is planned already, and gives its number.
    pub fn plan_node(&self, plan: &mut BillPlan, label: &[u8]) -> Result<NodeId, PlanFault>
        requires plan { IsBillPlan self.now plan.old }
        requires some { 1 ≤ length label.now }
        requires fits { length label.now ≤ 40 }
        ensures answer { result ≢ Err PlanFault.OutOfMemory → result ≡ plan_answer label.now (graph_after plan.old self.now) }
        ensures bill { OnOk result (graph_after plan.new self.now ≡ with_node label.now (graph_after plan.old self.now)) }
        ensures plan { OnOk result (IsBillPlan self.now plan.new) }
        ensures err { OnErr result (plan.new ≡ plan.old) }
    {
        if is_taken(self.labels.as_slice(), label) | is_taken(plan.labels.as_slice(), label) {
            return Err(PlanFault::Node {
                fault: NodeFault::Taken,
            });
        }
        let id = self.labels.len() + plan.labels.len();
        if id >= NODE_LIMIT {
            return Err(PlanFault::Node {
                fault: NodeFault::Full,
            });
        }
        match self.plan_new_node(plan, label) {
            Ok(node) => Ok(node),
            Err(OutOfMemory) => Err(PlanFault::OutOfMemory),
        }
    }

    /// Makes ready to add a node without lines, behind what is planned already, and gives its number. The label is known to be free, and
    /// there is room: no other label is looked at.
    pub fn plan_new_node(&self, plan: &mut BillPlan, label: &[u8]) -> Result<NodeId, OutOfMemory>
        requires plan { IsBillPlan self.now plan.old }
        requires some { 1 ≤ length label.now }
        requires fits { length label.now ≤ 40 }
        requires free { is_taken (graph_after plan.old self.now).labels label.now ≡ false }
        requires room { length (graph_after plan.old self.now).labels < 24576 }
        ensures answer { IfOk result (λ id. id ≡ length (graph_after plan.old self.now).labels) }
        ensures bill { OnOk result (graph_after plan.new self.now ≡ with_node label.now (graph_after plan.old self.now)) }
        ensures plan { OnOk result (IsBillPlan self.now plan.new) }
        ensures err { OnErr result (plan.new ≡ plan.old) }
    {
        let id = self.labels.len() + plan.labels.len();
        plan.labels.push(Label::new(label))?;
        Ok(id as NodeId)
    }

    /// Does what was planned. It isn't refused, and takes no memory.
    pub fn commit(&mut self, plan: BillPlan)
        requires { IsBillPlan self.old plan }
        ensures { self.new ≡ graph_after plan self.old }
    {
        let BillPlan {
            alloc,
            labels,
            line,
            none: _,
        } = plan;
        self.commit_change(line);
        for label in labels {
            self.push_node(alloc, label);
        }
    }

    /// Changes the line, where one is to be changed. It takes no memory.
    fn commit_change(&mut self, line: Option<LineChange>)
        requires { IsChangeOf self.old line }
        ensures { self.new ≡ record { labels = self.old.labels; lines = changed_lines line self.old.lines } }
    {
        if let Some(change) = line {
            let LineChange {
                parent,
                child,
                lines,
                users,
            } = change;
            make_way(&mut self.order, self.users.as_slice(), parent, child);
            self.line_count = self.line_count + lines.as_slice().len()
                - self.lines[parent as usize].as_slice().len();
            self.lines[parent as usize] = lines;
            self.users[child as usize] = users;
        }
    }

    /// As `affected`, in the bill after the plan.
    pub(crate) fn affected_after(
        &self,
        alloc: Global,
        plan: &BillPlan,
        seeds: &[NodeId],
    ) -> Result<Vec<NodeId>, OutOfMemory>
        requires plan { IsBillPlan self.now plan.now }
        requires seeds { (node : ℕ) → has_node seeds.now node ≡ true → node < length (graph_after plan.now self.now).labels }
        ensures nodes { IfOk result (λ nodes. AreAffected (graph_after plan.now self.now).lines seeds.now nodes.items) }
        ensures children_first { IfOk result (λ nodes. AreChildrenFirst (graph_after plan.now self.now).lines nodes.items) }
    {
        let more = plan.labels.len();
        let line = plan.line.as_ref();
        let users = Users::as_planned(self.users.as_slice(), line, more);
        if more == 0 && leaves_order(&self.order, line) {
            let from = self.order.first_place(seeds);
            return swept_nodes(alloc, self.order.as_slice(), from, &users, seeds);
        }
        let mut order = order_after(alloc, &self.order, self.users.as_slice(), line, more)?;
        push_next(&mut order, more);
        swept_nodes(alloc, order.as_slice(), 0, &users, seeds)
    }

    /// How many nodes the bill has after the plan.
    pub(crate) fn node_count_after(&self, plan: &BillPlan) -> usize
        requires plan { IsBillPlan self.now plan.now }
        ensures count { result ≡ length (graph_after plan.now self.now).labels }
        ensures bill { IsBillGraph (graph_after plan.now self.now) }
    {
        self.labels.len() + plan.labels.len()
    }

    /// The label of a node after the plan.
    pub(crate) fn label_after<'a>(&'a self, plan: &'a BillPlan, id: NodeId) -> &'a [u8]
        requires plan { IsBillPlan self.now plan.now }
        requires there { id < length (graph_after plan.now self.now).labels }
        ensures { result.now ≡ label_of (graph_after plan.now self.now).labels id }
    {
        let kept = self.labels.len();
        if (id as usize) < kept {
            return self.labels[id as usize].as_bytes();
        }
        plan.labels[id as usize - kept].as_bytes()
    }

    /// The lines of a node after the plan, and none of a new node.
    pub(crate) fn lines_after<'a>(&'a self, plan: &'a BillPlan, id: NodeId) -> &'a [BillLine]
        requires plan { IsBillPlan self.now plan.now }
        ensures lines { result.now ≡ lines_of_node (graph_after plan.now self.now).lines id }
        ensures by_label { IsByLabel (graph_after plan.now self.now).labels result.now }
    {
        match &plan.line {
            Some(change) => changed_or(self.lines.as_slice(), change, &plan.none, id),
            None => list_or(self.lines.as_slice(), &plan.none, id),
        }
    }
}

/// The lines of a node after a change of a line, or those of `none` where it has no list.
fn changed_or<'a>(
    lists: &'a [LineList],
    change: &'a LineChange,
    none: &'a LineList,
    node: NodeId,
) -> &'a [BillLine]
    requires none { none.now ≡ [] }
    requires parent { change.now.parent < length lists.now }
    ensures { result.now ≡ lines_of_node (slice_set lists.now change.now.parent change.now.lines) node }
{
    if change.parent == node {
        return change.lines.as_slice();
    }
    list_or(lists, none, node)
}

/// The lines of a node, or those of `none` where it has no list.
fn list_or<'a>(lists: &'a [LineList], none: &'a LineList, node: NodeId) -> &'a [BillLine]
    requires { none.now ≡ [] }
    ensures { result.now ≡ lines_of_node lists.now node }
{
    if node as usize >= lists.len() {
        return none.as_slice();
    }
    lists[node as usize].as_slice()
}
