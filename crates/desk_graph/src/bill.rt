ghost use Rattle.std.specs.Prelude.{◌≡◌, ◌≢◌, ◌+◌, ◌<◌, ◌≤◌, ℕ, true, false, [], length, vec_capacity, Ok, Err, IfOk, IfErr, OnOk, OnErr};
ghost use Rattle.desk_graph.specs.Bill.{IsBillGraph};
ghost use Rattle.desk_graph.specs.Graph.{AreUsers, IsByLabel, is_line_between, label_of, lines_of_node};
ghost use Rattle.desk_graph.specs.Edits.{is_taken, line_answer, node_answer, with_line_in, with_node, without_line_in};
ghost use Rattle.desk_graph.specs.Order.{HasMadeWay, HasOnce, IsSwept, mark_of};
ghost use Rattle.desk_graph.specs.Plan.{IsLinePlan};
ghost use Rattle.desk_graph.specs.Reaches.{AreAffected, AreChildrenFirst, chain_of_nodes, has_node, is_node_affected, is_node_or_reaches};

use crate::chain::chain_to;
use crate::fault::{LineFault, NodeFault};
use crate::label::Label;
use crate::line::{BillLine, NodeId};
use crate::line_list::{LineList, has_line_to};
use crate::memory::OutOfMemory;
use crate::node_order::{NODE_LIMIT, NodeOrder};
use crate::path::Path;
use crate::plan::LinePlan;
use crate::steps::Steps;
use crate::sweep::{mark_from, swept_nodes};
use crate::users::Users;
use std::alloc::Global;
use std::marker::Model;
use std::sync::ledger::Ledger;

/// The greatest number of lines in a bill.
pub const LINE_LIMIT: usize = 131_072;

/// A bill of materials: nodes with labels, and lines with counts from a parent to a child, which make no cycle.
///
/// Contracts see the labels and the lines of the nodes by number.
pub struct Bill {
    pub(crate) labels: Vec<Label>,
    pub(crate) lines: Vec<LineList>,
    pub(crate) users: Vec<LineList>,
    pub(crate) line_count: usize,
    pub(crate) order: NodeOrder,
}

// Written out, so that a function that owns one does not prove anew how each part is dropped.
impl Drop for Bill {
    fn drop(self) {
        let Bill {
            labels: _,
            lines: _,
            users: _,
            line_count: _,
            order: _,
        } = self;
    }
}

impl Model for Bill {
    ghost use Rattle.desk_graph.specs.Graph.{Graph};

    ghost Value = { Graph };

    ghost use Rattle.desk_graph.specs.Inside.{HoldsTogether, seen};

    ghost view = { seen };

    ghost invariant = { HoldsTogether };
}

impl Bill {
    /// No nodes. Room for all nodes that a bill may have is taken at once, so that a planned change is put in without memory: some 3 MB,
    /// which the system gives as they are written.
    pub fn start(alloc: Global) -> Result<Bill, OutOfMemory>
        ensures { IfOk result (λ bill. bill ≡ record { labels = []; lines = [] }) }
    {
        Ok(Bill {
            labels: Vec::with_capacity(alloc, NODE_LIMIT)?,
            lines: Vec::with_capacity(alloc, NODE_LIMIT)?,
            users: Vec::with_capacity(alloc, NODE_LIMIT)?,
            line_count: 0,
            order: NodeOrder::new(alloc)?,
        })
    }

    /// How many nodes the bill has. Their numbers are those below this.
    pub fn node_count(&self) -> usize
        ensures count { result ≡ length self.now.labels }
        ensures bill { IsBillGraph self.now }
    {
        self.labels.len()
    }

    /// The label of a node.
    pub fn label(&self, id: NodeId) -> &[u8]
        requires { id < length self.now.labels }
        ensures { result.now ≡ label_of self.now.labels id }
    {
        self.labels[id as usize].as_bytes()
    }

    /// How many lines lead from a node to its children.
    pub fn line_count(&self, id: NodeId) -> usize
        requires { id < length self.now.labels }
        ensures { result ≡ length (lines_of_node self.now.lines id) }
    {
        self.lines[id as usize].as_slice().len()
    }

    /// Adds a node without lines, and gives its number. It takes no memory.
    pub fn add_node(&mut self, alloc: Global, label: &[u8]) -> Result<NodeId, NodeFault>
        requires some { 1 ≤ length label.now }
        requires fits { length label.now ≤ 40 }
        ensures answer { result ≡ node_answer label.now self.old }
        ensures ok { OnOk result (self.new ≡ with_node label.now self.old) }
        ensures err { OnErr result (self.new ≡ self.old) }
    {
        if is_taken(self.labels.as_slice(), label) {
            return Err(NodeFault::Taken);
        }
        let id = self.labels.len();
        if id >= NODE_LIMIT {
            return Err(NodeFault::Full);
        }
        self.push_node(alloc, Label::new(label));
        Ok(id as NodeId)
    }

    /// Adds a node without lines, and gives its number. The label is known to be free, and there is room: no other label is looked at. It
    /// takes no memory.
    pub fn add_new_node(&mut self, alloc: Global, label: &[u8]) -> NodeId
        requires some { 1 ≤ length label.now }
        requires fits { length label.now ≤ 40 }
        requires free { is_taken self.old.labels label.now ≡ false }
        requires room { length self.old.labels < 24576 }
        ensures answer { result ≡ length self.old.labels }
        ensures bill { self.new ≡ with_node label.now self.old }
    {
        let id = self.labels.len();
        self.push_node(alloc, Label::new(label));
        id as NodeId
    }

    /// Adds a node without lines. It takes no memory.
    pub(crate) fn push_node(&mut self, alloc: Global, label: Label)
        requires free { is_taken self.old.labels label ≡ false }
        requires fits { length self.old.labels < 24576 }
        ensures { self.new ≡ with_node label self.old }
    {
        self.labels.push_reserved(label);
        self.lines.push_reserved(LineList::new(alloc));
        self.users.push_reserved(LineList::new(alloc));
        self.order.add();
    }

    /// Enters a line, or replaces its count. The faults are tried in the order of `LineFault`.
    pub fn set_line(
        &mut self,
        alloc: Global,
        parent: NodeId,
        child: NodeId,
        count: u32,
    ) -> Result<(), LineFault>
        requires parent { parent < length self.old.labels }
        requires child { child < length self.old.labels }
        requires count { 1 ≤ count }
        ensures answer { result ≢ Err LineFault.OutOfMemory → result ≡ line_answer parent child count self.old }
        ensures ok { OnOk result (self.new ≡ with_line_in parent child count self.old) }
        ensures err { OnErr result (self.new ≡ self.old) }
    {
        let plan = self.plan_set(alloc, parent, child, count)?;
        self.commit(plan);
        Ok(())
    }

    /// What a line that is entered, or whose count is replaced, makes of the lines of its parent and the users of its child. The
    /// faults are tried in the order of `LineFault`.
    pub(crate) fn plan_line(
        &self,
        alloc: Global,
        parent: NodeId,
        child: NodeId,
        count: u32,
    ) -> Result<LinePlan, LineFault>
        requires parent { parent < length self.now.labels }
        requires child { child < length self.now.labels }
        requires count { 1 ≤ count }
        ensures ready { IfOk result (λ plan. line_answer parent child count self.now ≡ Ok tt) }
        ensures refused { IfErr result (λ fault. fault ≢ LineFault.OutOfMemory → line_answer parent child count self.now ≡ Err fault) }
        ensures plan { IfOk result (λ plan. IsLinePlan self.now plan) }
        ensures line { IfOk result (λ plan. (plan.parent ≡ parent) × (plan.child ≡ child) × (plan.count ≡ count)) }
    {
        self.refuse_cycle(alloc, parent, child)?;
        let labels = self.labels.as_slice();
        let old = &self.lines[parent as usize];
        let lines = old.with(alloc, labels, BillLine { node: child, count })?;
        if self.line_count + lines.as_slice().len() - old.as_slice().len() > LINE_LIMIT {
            return Err(LineFault::Full);
        }
        let users = self.users[child as usize].with(
            alloc,
            labels,
            BillLine {
                node: parent,
                count,
            },
        )?;
        Ok(LinePlan {
            parent,
            child,
            count,
            lines,
            users,
        })
    }

    /// Refuses a line that would close a cycle. Where the child stands before the parent none can.
    fn refuse_cycle(&self, alloc: Global, parent: NodeId, child: NodeId) -> Result<(), LineFault>
        requires parent { parent < length self.now.labels }
        requires child { child < length self.now.labels }
        ensures ok { OnOk result (is_node_or_reaches self.now.lines child parent ≡ false) }
        ensures closes { IfErr result (λ fault. fault ≢ LineFault.OutOfMemory → is_node_or_reaches self.now.lines child parent ≡ true) }
        ensures chain_of_nodes { IfErr result (λ fault. fault ≢ LineFault.OutOfMemory → fault ≡ LineFault.Closes (chain_of_nodes self.now.lines child parent)) }
    {
        if self.order.stands_before(child, parent) {
            return Ok(());
        }
        let marks = self.marks_from(alloc, &[parent])?;
        if !marks[child as usize] {
            return Ok(());
        }
        let nodes = chain_to(
            alloc,
            self.lines.as_slice(),
            marks.as_slice(),
            child,
            parent,
        )?;
        Err(LineFault::Closes {
            chain: Path::new(nodes),
        })
    }

    /// Takes the line out, and tells whether it was there. It takes no memory.
    pub fn drop_line(&mut self, parent: NodeId, child: NodeId) -> bool
        requires parent { parent < length self.old.labels }
        requires child { child < length self.old.labels }
        ensures there { result ≡ is_line_between self.old.lines parent child }
        ensures lines { self.new ≡ without_line_in parent child self.old }
    {
        let lines = &mut self.lines[parent as usize];
        let there = has_line_to(lines.as_slice(), child);
        let had = lines.as_slice().len();
        lines.remove(child);
        let has = lines.as_slice().len();
        self.line_count = self.line_count + has - had;
        self.users[child as usize].remove(parent);
        there
    }

    /// The lines of a node to its children, in the order of their labels. It takes one step.
    pub fn lines<L: Ledger>(&self, id: NodeId, steps: &mut Steps<L>) -> &[BillLine]
        requires { id < length self.now.labels }
        ensures lines { result.now ≡ lines_of_node self.now.lines id }
        ensures by_label { IsByLabel self.now.labels result.now }
        ensures steps { steps.new ≡ steps.old + 1 }
    {
        steps.tick();
        self.lines[id as usize].as_slice()
    }

    /// The lines to a node from its parents, in the order of their labels. It takes one step.
    pub fn users<L: Ledger>(&self, id: NodeId, steps: &mut Steps<L>) -> &[BillLine]
        requires { id < length self.now.labels }
        ensures users { AreUsers self.now.lines id result.now }
        ensures by_label { IsByLabel self.now.labels result.now }
        ensures steps { steps.new ≡ steps.old + 1 }
    {
        steps.tick();
        self.users[id as usize].as_slice()
    }

    /// The seeds and all nodes that reach one, each once, every child before its parents.
    pub fn affected(&self, alloc: Global, seeds: &[NodeId]) -> Result<Vec<NodeId>, OutOfMemory>
        requires { (node : ℕ) → has_node seeds.now node ≡ true → node < length self.now.labels }
        ensures nodes { IfOk result (λ nodes. AreAffected self.now.lines seeds.now nodes.items) }
        ensures children_first { IfOk result (λ nodes. AreChildrenFirst self.now.lines nodes.items) }
    {
        let from = self.order.first_place(seeds);
        let users = Users::as_they_are(self.users.as_slice());
        swept_nodes(alloc, self.order.as_slice(), from, &users, seeds)
    }

    /// A mark for each node that is a seed or reaches one.
    pub(crate) fn marks_from(
        &self,
        alloc: Global,
        seeds: &[NodeId],
    ) -> Result<Vec<bool>, OutOfMemory>
        requires { (node : ℕ) → has_node seeds.now node ≡ true → node < length self.now.labels }
        ensures size { IfOk result (λ marks. length marks.items ≡ length self.now.labels) }
        ensures marks { IfOk result (λ marks. (node : ℕ) → mark_of marks.items node ≡ is_node_affected self.now.lines seeds.now node) }
    {
        let mut marks = Vec::from_elem(alloc, false, self.labels.len())?;
        mark_from(
            self.order.as_slice(),
            self.order.first_place(seeds),
            &Users::as_they_are(self.users.as_slice()),
            seeds,
            marks.as_mut_slice(),
        );
        Ok(marks)
    }

    /// The same bill once more.
    pub fn copied(&self, alloc: Global) -> Result<Bill, OutOfMemory>
        ensures { IfOk result (λ bill. bill ≡ self.now) }
    {
        Ok(Bill {
            labels: copied_labels(alloc, self.labels.as_slice())?,
            lines: copied_lists(alloc, self.lines.as_slice())?,
            users: copied_lists(alloc, self.users.as_slice())?,
            line_count: self.line_count,
            order: self.order.copied(alloc)?,
        })
    }
}

/// Whether some node has the label.
pub(crate) fn is_taken(labels: &[Label], label: &[u8]) -> bool
    ensures { result ≡ is_taken labels.now label.now }
{
    labels.iter().any(|kept| kept.as_bytes().cmp(label).is_eq())
}

/// Sees to it that the child stands before the parent, where it doesn't reach the parent.
pub(crate) fn make_way(order: &mut NodeOrder, users: &[LineList], parent: NodeId, child: NodeId)
    requires parent { parent < length order.old }
    requires child { child < length order.old }
    requires swept { IsSwept users.now order.old }
    requires once { HasOnce order.old }
    ensures { HasMadeWay users.now parent child order.old order.new }
{
    if !order.stands_before(child, parent) {
        order.move_behind(users, parent);
    }
}

/// The labels once more, with room for all that a bill may have.
fn copied_labels(alloc: Global, labels: &[Label]) -> Result<Vec<Label>, OutOfMemory>
    requires { length labels.now ≤ 24576 }
    ensures labels { IfOk result (λ copy. copy.items ≡ labels.now) }
    ensures room { IfOk result (λ copy. 24576 ≤ vec_capacity copy) }
{
    let mut copy = Vec::with_capacity(alloc, NODE_LIMIT)?;
    for label in labels {
        copy.push_reserved(Label::new(label.as_bytes()));
    }
    Ok(copy)
}

/// The lines of each node once more, with room for all nodes that a bill may have.
fn copied_lists(alloc: Global, lists: &[LineList]) -> Result<Vec<LineList>, OutOfMemory>
    requires { length lists.now ≤ 24576 }
    ensures lists { IfOk result (λ copy. copy.items ≡ lists.now) }
    ensures room { IfOk result (λ copy. 24576 ≤ vec_capacity copy) }
{
    let mut copy = Vec::with_capacity(alloc, NODE_LIMIT)?;
    for list in lists {
        copy.push_reserved(list.copied(alloc)?);
    }
    Ok(copy)
}
