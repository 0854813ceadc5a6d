ghost use Rattle.std.specs.Prelude.{◌≡◌, ◌<◌, [], length, option_copied, slice_set};
ghost use Rattle.std.specs.Option.{option_map_or};
ghost use Rattle.desk_graph.specs.Graph.{lines_of_node};
ghost use Rattle.desk_graph.specs.Planned.{HasChild, changed_users, with_empty};

use crate::bill_plan::LineChange;
use crate::line::{BillLine, NodeId};
use crate::line_list::LineList;
use std::marker::Model;

/// The users of each node of a bill, as they are or as a plan will leave them. Contracts see the users by node.
#[derive(Drop)]
pub struct Users<'a> {
    lists: &'a [LineList],
    change: Option<&'a LineChange>,
    more: usize,
}

impl<'a> Model for Users<'a> {
    ghost use Rattle.std.specs.Prelude.{List, option_copied};
    ghost use Rattle.desk_graph.specs.declared.line.BillLine.{BillLine};

    ghost Value = { List (List BillLine) };

    ghost use Rattle.desk_graph.specs.Planned.{HasChild, changed_users, with_empty};

    ghost view = { λ users. with_empty users.more (changed_users (option_copied users.change) users.lists.now) };

    ghost invariant = { λ users. HasChild users.lists.now (option_copied users.change) };
}

impl<'a> Users<'a> {
    /// The users as they are.
    pub fn as_they_are(lists: &'a [LineList]) -> Users<'a>
        ensures { result ≡ lists.now }
    {
        Users {
            lists,
            change: None,
            more: 0,
        }
    }

    /// The users after a change of a line, and with so many new nodes.
    pub fn as_planned(
        lists: &'a [LineList],
        change: Option<&'a LineChange>,
        more: usize,
    ) -> Users<'a>
        requires { HasChild lists.now (option_copied change) }
        ensures { result ≡ with_empty more (changed_users (option_copied change.entry) lists.now) }
    {
        Users {
            lists,
            change,
            more,
        }
    }

    /// The users of a node, none where it has no list of them.
    pub fn of(&self, node: NodeId) -> Option<&[BillLine]>
        ensures { option_map_or (λ lines. lines) (option_copied result) [] ≡ lines_of_node self.now node }
    {
        match self.change {
            Some(change) => changed_at(self.lists, change, node),
            None => list_at(self.lists, node),
        }
    }
}

/// The users of a node after a change of a line, none where it has no list of them.
fn changed_at<'a>(
    lists: &'a [LineList],
    change: &'a LineChange,
    node: NodeId,
) -> Option<&'a [BillLine]>
    requires { change.now.child < length lists.now }
    ensures { option_map_or (λ lines. lines) (option_copied result) [] ≡ lines_of_node (slice_set lists.now change.now.child change.now.users) node }
{
    if change.child == node {
        return Some(change.users.as_slice());
    }
    list_at(lists, node)
}

/// The lines of a node, none where it has no list of them.
fn list_at(lists: &[LineList], node: NodeId) -> Option<&[BillLine]>
    ensures { option_map_or (λ lines. lines) (option_copied result) [] ≡ lines_of_node lists.now node }
{
    if node as usize >= lists.len() {
        return None;
    }
    Some(lists[node as usize].as_slice())
}
