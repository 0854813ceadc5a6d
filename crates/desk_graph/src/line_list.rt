ghost use Rattle.std.specs.Prelude.{◌≡◌, ◌==◌, ℕ, ◌<◌, ◌≤◌, true, [], length, map, insert, if◌then◌else◌, IfOk};
ghost use Rattle.std.specs.Ordering.{is_lt};
ghost use Rattle.desk_graph.specs.Graph.{has_line, label_cmp, label_of};
ghost use Rattle.desk_graph.specs.Edits.{inserted_by_label, with_line_of_node, without_line_of_node};

use crate::label::Label;
use crate::line::{BillLine, NodeId};
use crate::memory::OutOfMemory;
use std::alloc::Global;
use std::marker::Model;

/// The lines of one node, from one end. Contracts see the list.
#[derive(Drop)]
pub struct LineList {
    lines: Vec<BillLine>,
}

impl Model for LineList {
    ghost use Rattle.std.specs.Prelude.{List};
    ghost use Rattle.desk_graph.specs.declared.line.BillLine.{BillLine};

    ghost Value = { List BillLine };

    ghost view = { λ list. list.lines.items };
}

impl LineList {
    /// No lines. It takes no memory yet.
    pub fn new(alloc: Global) -> LineList
        ensures { result ≡ [] }
    {
        LineList {
            lines: Vec::new(alloc),
        }
    }

    /// The lines.
    pub fn as_slice(&self) -> &[BillLine]
        ensures { result.now ≡ self.now }
    {
        self.lines.as_slice()
    }

    /// Takes the line to the node out.
    pub fn remove(&mut self, node: NodeId)
        ensures { self.new ≡ without_line_of_node node self.old }
    {
        self.lines.retain(|line| line.node != node);
    }

    /// The list without the line to the node.
    pub fn without(&self, alloc: Global, node: NodeId) -> Result<LineList, OutOfMemory>
        ensures { IfOk result (λ list. list ≡ without_line_of_node node self.now) }
    {
        let mut list = self.copied(alloc)?;
        list.remove(node);
        Ok(list)
    }

    /// The same list once more.
    pub fn copied(&self, alloc: Global) -> Result<LineList, OutOfMemory>
        ensures { IfOk result (λ list. list ≡ self.now) }
    {
        Ok(LineList {
            lines: Vec::from_slice(alloc, self.lines.as_slice())?,
        })
    }

    /// The list with the new line: in the place of the line to the same node, or else by the label of its node.
    pub fn with(
        &self,
        alloc: Global,
        labels: &[Label],
        new: BillLine,
    ) -> Result<LineList, OutOfMemory>
        requires new { new.node < length labels.now }
        requires kept { (node : ℕ) → has_line self.now node ≡ true → node < length labels.now }
        ensures { IfOk result (λ list. list ≡ with_line_of_node labels.now new self.now) }
    {
        let lines = if has_line_to(self.lines.as_slice(), new.node) {
            replaced(alloc, self.lines.as_slice(), new)?
        } else {
            entered(alloc, labels, self.lines.as_slice(), new)?
        };
        Ok(LineList { lines })
    }
}

/// Whether one of the lines leads to the node.
pub fn has_line_to(lines: &[BillLine], node: NodeId) -> bool
    ensures { result ≡ has_line lines.now node }
{
    lines.iter().any(|line| line.node == node)
}

/// The lines with the new one in the place of the line to the same node.
fn replaced(alloc: Global, lines: &[BillLine], new: BillLine) -> Result<Vec<BillLine>, OutOfMemory>
    ensures { IfOk result (λ list. list.items ≡ map (λ line. if line.node == new.node then new else line) lines.now) }
{
    let list = lines
        .iter()
        .map(|line| if line.node == new.node { new } else { *line })
        .collect(alloc)?;
    Ok(list)
}

/// The lines with the new one before the first whose node has a greater label.
fn entered(
    alloc: Global,
    labels: &[Label],
    lines: &[BillLine],
    new: BillLine,
) -> Result<Vec<BillLine>, OutOfMemory>
    requires new { new.node < length labels.now }
    requires kept { (node : ℕ) → has_line lines.now node ≡ true → node < length labels.now }
    ensures { IfOk result (λ list. list.items ≡ inserted_by_label labels.now new lines.now) }
{
    let place = place_of_new(labels, lines, new.node);
    let mut list = Vec::with_capacity(alloc, lines.len().saturating_add(1))?;
    list.extend_from_slice(&lines[..place])?;
    list.push(new)?;
    list.extend_from_slice(&lines[place..])?;
    Ok(list)
}

/// The place of the first line whose node has a greater label than the new node.
fn place_of_new(labels: &[Label], lines: &[BillLine], node: NodeId) -> usize
    requires new { node < length labels.now }
    requires kept { (other : ℕ) → has_line lines.now other ≡ true → other < length labels.now }
    ensures within { result ≤ length lines.now }
    ensures place { (count : ℕ) → inserted_by_label labels.now (record { node = node; count = count }) lines.now ≡ insert lines.now result (record { node = node; count = count }) }
{
    for (place, line) in lines.iter().enumerate() {
        if stands_before(labels, node, line.node) {
            return place;
        }
    }
    lines.len()
}

/// Whether the label of the first node is the lesser of the two.
fn stands_before(labels: &[Label], node: NodeId, other: NodeId) -> bool
    requires node { node < length labels.now }
    requires other { other < length labels.now }
    ensures { result ≡ is_lt (label_cmp (label_of labels.now node) (label_of labels.now other)) }
{
    labels[node as usize]
        .compare(&labels[other as usize])
        .is_lt()
}
