ghost use Rattle.std.specs.Prelude.{◌≡◌, ◌==◌, ℕ, ◌<◌, true, length, find, option_map, if◌then◌else◌, IfOk, IfSome};
ghost use Rattle.desk_graph.specs.Graph.{has_line, is_line_between};
ghost use Rattle.desk_graph.specs.Order.{GoesByNext, mark_of};
ghost use Rattle.desk_graph.specs.Reaches.{chain_of_nodes, is_node_or_reaches, next_node_to};

use crate::line::{BillLine, NodeId};
use crate::line_list::LineList;
use crate::memory::OutOfMemory;
use std::alloc::Global;

/// The chain from a node to a target, where just the target and what reaches it is marked.
pub fn chain_to(
    alloc: Global,
    lines: &[LineList],
    marks: &[bool],
    from: NodeId,
    target: NodeId,
) -> Result<Vec<NodeId>, OutOfMemory>
    requires from { from < length lines.now }
    requires children { (parent child : ℕ) → is_line_between lines.now parent child ≡ true → child < length lines.now }
    requires size { length marks.now ≡ length lines.now }
    requires marks { (node : ℕ) → mark_of marks.now node ≡ is_node_or_reaches lines.now node target }
    requires steps { GoesByNext lines.now target }
    ensures { IfOk result (λ nodes. nodes.items ≡ chain_of_nodes lines.now from target) }
{
    let mut nodes = Vec::new(alloc);
    let mut at = Some(from);
    while let Some(node) = at {
        nodes.push(node)?;
        at = next_in_chain(lines, marks, node, target);
    }
    Ok(nodes)
}

/// The next node of the chain to the target, none at the target itself.
fn next_in_chain(lines: &[LineList], marks: &[bool], node: NodeId, target: NodeId) -> Option<NodeId>
    requires node { node < length lines.now }
    requires children { (parent child : ℕ) → is_line_between lines.now parent child ≡ true → child < length lines.now }
    requires size { length marks.now ≡ length lines.now }
    requires marks { (other : ℕ) → mark_of marks.now other ≡ is_node_or_reaches lines.now other target }
    ensures next { result ≡ (if node == target then None else next_node_to lines.now node target) }
    ensures there { IfSome result (λ child. child < length lines.now) }
{
    if node == target {
        return None;
    }
    first_marked(lines[node as usize].as_slice(), marks)
}

/// The node of the first line whose node is marked.
fn first_marked(lines: &[BillLine], marks: &[bool]) -> Option<NodeId>
    requires { (node : ℕ) → has_line lines.now node ≡ true → node < length marks.now }
    ensures first { result ≡ option_map (λ line. line.node) (find (λ line. mark_of marks.now line.node) lines.now) }
    ensures there { IfSome result (λ child. has_line lines.now child ≡ true) }
{
    for line in lines {
        if marks[line.node as usize] {
            return Some(line.node);
        }
    }
    None
}
