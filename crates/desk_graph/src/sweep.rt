ghost use Rattle.std.specs.Prelude.{◌≡◌, ◌==◌, ℕ, Bool, ◌+◌, ◌<◌, ◌≤◌, ◌||◌, ◌&&◌, true, [], ◌∷◌, ◌++◌, filter, count_by, length, slice_index_or, vec_len, vec_capacity, if◌then◌else◌, option_copied, IfOk};
ghost use Rattle.std.specs.Option.{option_map_or};
ghost use Rattle.desk_graph.specs.Graph.{has_line, lines_of_node};
ghost use Rattle.desk_graph.specs.Order.{AreBehind, AreMarkedUp, AreSweptUp, AreUnmarked, AreUnmarkedFrom, HasOnce, HoldsBelow, IsSwept, MarksAtMost, has_mark, mark_of};
ghost use Rattle.desk_graph.specs.Reaches.{has_node};

use crate::line::{BillLine, NodeId};
use crate::memory::OutOfMemory;
use crate::users::Users;
use std::alloc::Global;

/// How far a sweep went.
#[derive(Clone, Copy, Debug, PartialEq, Eq)]
pub struct Sweep {
    /// No marked node stands at this place or behind it.
    pub end: usize,
    /// No more nodes than this are marked.
    pub count: usize,
}

/// Marks, beside the marked nodes, each node from which lines lead to one: the order has children first, so one sweep over it does. It
/// begins at a place before which none is marked, and ends behind the last marked node: where all that were marked were met.
pub fn mark_all_users(
    order: &[NodeId],
    from: usize,
    users: &Users,
    seeded: usize,
    marks: &mut [bool],
) -> Sweep
    requires order { IsSwept users.now order.now }
    requires once { HasOnce order.now }
    requires size { length marks.old ≡ length users.now }
    requires within { from ≤ length order.now }
    requires early { AreUnmarked from order.now marks.old }
    requires seeded { count_by (has_mark true marks.old) order.now ≤ seeded }
    ensures size { length marks.new ≡ length marks.old }
    ensures kept { (node : ℕ) → mark_of marks.old node ≡ true → mark_of marks.new node ≡ true }
    ensures closed { (node user : ℕ) → mark_of marks.new node ≡ true → has_line (lines_of_node users.now node) user ≡ true → mark_of marks.new user ≡ true }
    ensures least { (holds : ℕ → Bool) → HoldsBelow holds marks.old users.now → (node : ℕ) → mark_of marks.new node ≡ true → holds node ≡ true }
    ensures early { AreUnmarked from order.now marks.new }
    ensures behind { from ≤ result.end }
    ensures within { result.end ≤ length order.now }
    ensures late { AreUnmarkedFrom result.end order.now marks.new }
    ensures count { count_by (has_mark true marks.new) order.now ≤ result.count }
{
    let mut met = 0;
    let mut count = seeded;
    for place in from..order.len() {
        if met >= count {
            return Sweep { end: place, count };
        }
        let node = order[place];
        met += count_at(marks, node);
        count = count.saturating_add(mark_users(node, users, marks));
    }
    Sweep {
        end: order.len(),
        count,
    }
}

/// One where the node is marked, or else none.
fn count_at(marks: &[bool], node: NodeId) -> usize
    requires { node < length marks.now }
    ensures count { result ≡ (if mark_of marks.now node then 1 else 0) }
    ensures few { result ≤ 1 }
{
    if marks[node as usize] { 1 } else { 0 }
}

/// Marks the users of a node where it is marked itself, and gives how many weren't marked.
fn mark_users(node: NodeId, users: &Users, marks: &mut [bool]) -> usize
    requires node { node < length users.now }
    requires size { length marks.old ≡ length users.now }
    requires users { (user : ℕ) → has_line (lines_of_node users.now node) user ≡ true → user < length users.now }
    ensures size { length marks.new ≡ length marks.old }
    ensures marks { (other : ℕ) → mark_of marks.new other ≡ (mark_of marks.old other || (mark_of marks.old node && has_line (lines_of_node users.now node) other)) }
    ensures more { MarksAtMost result marks.old marks.new }
{
    if marks[node as usize] {
        return mark_lines(users.of(node), marks);
    }
    0
}

/// Marks the nodes of the lines, where there are any, and gives how many weren't marked.
fn mark_lines(lines: Option<&[BillLine]>, marks: &mut [bool]) -> usize
    requires { (node : ℕ) → has_line (option_map_or (λ of_node. of_node) (option_copied lines) []) node ≡ true → node < length marks.old }
    ensures size { length marks.new ≡ length marks.old }
    ensures marks { (node : ℕ) → mark_of marks.new node ≡ (mark_of marks.old node || has_line (option_map_or (λ of_node. of_node) (option_copied lines.entry) []) node) }
    ensures more { MarksAtMost result marks.old marks.new }
{
    match lines {
        Some(lines) => mark_nodes(lines, marks),
        None => 0,
    }
}

/// Marks the nodes of the lines, and gives how many weren't marked.
fn mark_nodes(lines: &[BillLine], marks: &mut [bool]) -> usize
    requires { (node : ℕ) → has_line lines.now node ≡ true → node < length marks.old }
    ensures size { length marks.new ≡ length marks.old }
    ensures marks { (node : ℕ) → mark_of marks.new node ≡ (mark_of marks.old node || has_line lines.now node) }
    ensures more { MarksAtMost result marks.old marks.new }
{
    let mut more = 0;
    for line in lines {
        more += mark_node(line.node, marks);
    }
    more
}

/// Marks a node, and gives how many weren't marked: one or none.
fn mark_node(node: NodeId, marks: &mut [bool]) -> usize
    requires { node < length marks.old }
    ensures size { length marks.new ≡ length marks.old }
    ensures marks { (other : ℕ) → mark_of marks.new other ≡ (mark_of marks.old other || node == other) }
    ensures more { MarksAtMost result marks.old marks.new }
    ensures few { result ≤ 1 }
{
    if marks[node as usize] {
        return 0;
    }
    marks[node as usize] = true;
    1
}

/// Marks the seeds and each node from which lines lead to one, and no other node. The sweep begins at a place before which no seed
/// stands.
pub fn mark_from(
    order: &[NodeId],
    from: usize,
    users: &Users,
    seeds: &[NodeId],
    marks: &mut [bool],
) -> Sweep
    requires order { IsSwept users.now order.now }
    requires once { HasOnce order.now }
    requires size { length marks.old ≡ length users.now }
    requires seeds { (node : ℕ) → has_node seeds.now node ≡ true → node < length users.now }
    requires within { from ≤ length order.now }
    requires early { AreBehind from order.now seeds.now }
    ensures up { AreMarkedUp users.now seeds.now marks.new }
    ensures early { AreUnmarked from order.now marks.new }
    ensures behind { from ≤ result.end }
    ensures within { result.end ≤ length order.now }
    ensures late { AreUnmarkedFrom result.end order.now marks.new }
    ensures count { count_by (has_mark true marks.new) order.now ≤ result.count }
{
    marks.fill(false);
    let seeded = mark_seeds(seeds, marks);
    mark_all_users(order, from, users, seeded, marks)
}

/// The seeds and all nodes from which lines lead to one, in their order. The sweep begins at a place before which no seed stands.
pub fn swept_nodes(
    alloc: Global,
    order: &[NodeId],
    from: usize,
    users: &Users,
    seeds: &[NodeId],
) -> Result<Vec<NodeId>, OutOfMemory>
    requires order { IsSwept users.now order.now }
    requires once { HasOnce order.now }
    requires seeds { (node : ℕ) → has_node seeds.now node ≡ true → node < length users.now }
    requires within { from ≤ length order.now }
    requires early { AreBehind from order.now seeds.now }
    ensures { IfOk result (λ nodes. AreSweptUp users.now order.now seeds.now nodes.items) }
{
    let mut marks = Vec::from_elem(alloc, false, order.len())?;
    let sweep = mark_from(order, from, users, seeds, marks.as_mut_slice());
    marked_nodes(alloc, order, from, sweep, marks.as_slice())
}

/// The marked nodes in their order. Before the first place none is marked, and the sweep says how many are, and where none is.
fn marked_nodes(
    alloc: Global,
    order: &[NodeId],
    from: usize,
    sweep: Sweep,
    marks: &[bool],
) -> Result<Vec<NodeId>, OutOfMemory>
    requires nodes { (place : ℕ) → place < length order.now → slice_index_or order.now place 0 < length marks.now }
    requires behind { from ≤ sweep.end }
    requires within { sweep.end ≤ length order.now }
    requires early { AreUnmarked from order.now marks.now }
    requires late { AreUnmarkedFrom sweep.end order.now marks.now }
    requires count { count_by (has_mark true marks.now) order.now ≤ sweep.count }
    ensures { IfOk result (λ nodes. nodes.items ≡ filter (has_mark true marks.now) order.now) }
{
    let mut nodes = Vec::with_capacity(alloc, sweep.count)?;
    let front = order.split_at(sweep.end).0;
    push_marked(front.split_at(from).1, marks, true, &mut nodes);
    Ok(nodes)
}

/// Marks the seeds, and gives how many nodes they are at most.
fn mark_seeds(seeds: &[NodeId], marks: &mut [bool]) -> usize
    requires { (node : ℕ) → has_node seeds.now node ≡ true → node < length marks.old }
    ensures size { length marks.new ≡ length marks.old }
    ensures marks { (node : ℕ) → mark_of marks.new node ≡ (mark_of marks.old node || has_node seeds.now node) }
    ensures more { MarksAtMost result marks.old marks.new }
{
    let mut more = 0;
    for seed in seeds {
        more += mark_node(*seed, marks);
    }
    more
}

/// Appends the nodes of the order whose mark is the wanted one.
pub fn push_marked(order: &[NodeId], marks: &[bool], wanted: bool, into: &mut Vec<NodeId>)
    requires nodes { (place : ℕ) → place < length order.now → slice_index_or order.now place 0 < length marks.now }
    requires room { vec_len into.old + count_by (has_mark wanted marks.now) order.now ≤ vec_capacity into.old }
    ensures nodes { into.new.items ≡ into.old.items ++ filter (has_mark wanted marks.now) order.now }
    ensures len { vec_len into.new ≡ vec_len into.old + count_by (has_mark wanted marks.now) order.now }
    ensures capacity { vec_capacity into.old ≤ vec_capacity into.new }
{
    for node in order {
        push_if(is_marked(marks, *node, wanted), *node, into);
    }
}

/// Whether the node's mark is the wanted one.
fn is_marked(marks: &[bool], node: NodeId, wanted: bool) -> bool
    requires { node < length marks.now }
    ensures { result ≡ has_mark wanted marks.now node }
{
    marks[node as usize] == wanted
}

/// Appends the node where it is wanted. Room was made before.
fn push_if(wanted: bool, node: NodeId, into: &mut Vec<NodeId>)
    requires { wanted ≡ true → vec_len into.old < vec_capacity into.old }
    ensures nodes { into.new.items ≡ into.old.items ++ (if wanted then node ∷ [] else []) }
    ensures len { vec_len into.new ≡ vec_len into.old + (if wanted then 1 else 0) }
    ensures capacity { vec_capacity into.old ≤ vec_capacity into.new }
{
    if wanted {
        into.push_reserved(node);
    }
}
