use crate::line::NodeId;
use crate::line_list::LineList;
use std::marker::Model;

/// A line that may be set, with the lines of its parent and the users of its child as they will be. Contracts see it as a record
/// of its parts.
#[derive(Drop)]
pub struct LinePlan {
    pub(crate) parent: NodeId,
    pub(crate) child: NodeId,
    pub(crate) count: u32,
    pub(crate) lines: LineList,
    pub(crate) users: LineList,
}

impl Model for LinePlan {
    ghost use Rattle.desk_graph.specs.Plan.{Planned};

    ghost Value = { Planned };

    ghost view = { λ plan. record {
      parent = plan.parent;
      child = plan.child;
      count = plan.count;
      lines = plan.lines;
      users = plan.users;
    } };
}
