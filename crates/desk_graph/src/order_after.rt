ghost use Rattle.std.specs.Prelude.{◌≡◌, ◌+◌, ◌<◌, ◌≤◌, List, true, false, length, option_copied, vec_len, vec_capacity, IfOk};
ghost use Rattle.desk_graph.specs.declared.line.BillLine.{BillLine};
ghost use Rattle.desk_graph.specs.Order.{HasMadeWay, HasOnce, IsMovedBehind, IsSwept};
ghost use Rattle.desk_graph.specs.Planned.{AreIn, HasMadeWayFor, with_next};

use crate::bill_plan::LineChange;
use crate::line::NodeId;
use crate::line_list::LineList;
use crate::memory::OutOfMemory;
use crate::node_order::NodeOrder;
use crate::sweep::{mark_from, push_marked};
use crate::users::Users;
use std::alloc::Global;

/// Whether a change of a line leaves the order as it is: where there is none, and where the child stands before the parent already.
pub fn leaves_order(order: &NodeOrder, line: Option<&LineChange>) -> bool
    requires { AreIn order.now (option_copied line) }
    ensures { (users : List (List BillLine)) → result ≡ true → HasMadeWayFor users (option_copied line.entry) order.now order.now }
{
    match line {
        Some(change) => order.stands_before(change.child, change.parent),
        None => true,
    }
}

/// The order of the nodes in which the parent of a changed line made way for its child, with room for so many nodes more.
pub fn order_after(
    alloc: Global,
    order: &NodeOrder,
    users: &[LineList],
    line: Option<&LineChange>,
    more: usize,
) -> Result<Vec<NodeId>, OutOfMemory>
    requires swept { IsSwept users.now order.now }
    requires once { HasOnce order.now }
    requires there { AreIn order.now (option_copied line) }
    requires fits { length order.now + more ≤ 24576 }
    ensures way { IfOk result (λ new. HasMadeWayFor users.now (option_copied line.entry) order.now new.items) }
    ensures len { IfOk result (λ new. vec_len new ≡ length order.now) }
    ensures room { IfOk result (λ new. length order.now + more ≤ vec_capacity new) }
{
    match line {
        Some(change) => made_way(alloc, order, users, change, more),
        None => copied(alloc, order.as_slice(), more),
    }
}

/// The order in which the parent of the line made way for the child, where that stood behind it.
fn made_way(
    alloc: Global,
    order: &NodeOrder,
    users: &[LineList],
    change: &LineChange,
    more: usize,
) -> Result<Vec<NodeId>, OutOfMemory>
    requires swept { IsSwept users.now order.now }
    requires once { HasOnce order.now }
    requires parent { change.now.parent < length order.now }
    requires child { change.now.child < length order.now }
    requires fits { length order.now + more ≤ 24576 }
    ensures way { IfOk result (λ new. HasMadeWay users.now change.now.parent change.now.child order.now new.items) }
    ensures len { IfOk result (λ new. vec_len new ≡ length order.now) }
    ensures room { IfOk result (λ new. length order.now + more ≤ vec_capacity new) }
{
    if order.stands_before(change.child, change.parent) {
        return copied(alloc, order.as_slice(), more);
    }
    moved_behind(alloc, order.as_slice(), users, change.parent, more)
}

/// The order in which the node and all from which lines lead to it stand behind all other nodes.
fn moved_behind(
    alloc: Global,
    order: &[NodeId],
    users: &[LineList],
    node: NodeId,
    more: usize,
) -> Result<Vec<NodeId>, OutOfMemory>
    requires node { node < length order.now }
    requires swept { IsSwept users.now order.now }
    requires once { HasOnce order.now }
    requires fits { length order.now + more ≤ 24576 }
    ensures moved { IfOk result (λ new. IsMovedBehind users.now node order.now new.items) }
    ensures len { IfOk result (λ new. vec_len new ≡ length order.now) }
    ensures room { IfOk result (λ new. length order.now + more ≤ vec_capacity new) }
{
    let mut marks = Vec::from_elem(alloc, false, order.len())?;
    mark_from(
        order,
        0,
        &Users::as_they_are(users),
        &[node],
        marks.as_mut_slice(),
    );
    let mut new = Vec::with_capacity(alloc, order.len() + more)?;
    push_marked(order, marks.as_slice(), false, &mut new);
    push_marked(order, marks.as_slice(), true, &mut new);
    Ok(new)
}

/// The same order, with room for so many nodes more.
fn copied(alloc: Global, order: &[NodeId], more: usize) -> Result<Vec<NodeId>, OutOfMemory>
    requires { length order.now + more ≤ 24576 }
    ensures same { IfOk result (λ new. new.items ≡ order.now) }
    ensures len { IfOk result (λ new. vec_len new ≡ length order.now) }
    ensures room { IfOk result (λ new. length order.now + more ≤ vec_capacity new) }
{
    let mut new = Vec::with_capacity(alloc, order.len() + more)?;
    new.extend_from_slice(order)?;
    Ok(new)
}

/// Appends the next nodes: so many numbers from the length on.
pub fn push_next(order: &mut Vec<NodeId>, more: usize)
    requires room { vec_len order.old + more ≤ vec_capacity order.old }
    requires fits { vec_len order.old + more ≤ 24576 }
    ensures nodes { order.new.items ≡ with_next more order.old.items }
    ensures len { vec_len order.new ≡ vec_len order.old + more }
{
    for _ in 0..more {
        let next = order.len() as NodeId;
        order.push_reserved(next);
    }
}
