use crate::bill::is_taken;
use crate::label::Label;
use crate::line::NodeId;
use crate::line_list::LineList;
use std::alloc::Global;
use std::marker::Model;

/// A line that is entered, replaced or dropped: the lines of its parent and the users of its child as they will be.
#[derive(Drop)]
pub struct LineChange {
    pub(crate) parent: NodeId,
    pub(crate) child: NodeId,
    pub(crate) lines: LineList,
    pub(crate) users: LineList,
}

/// What one edit does to a bill, made ready so that it needs no memory and isn't refused: at most one line entered, replaced or
/// dropped, and then new nodes. Contracts see the labels of the new nodes, and the change of the line.
#[derive(Drop)]
pub struct BillPlan {
    pub(crate) alloc: Global,
    pub(crate) labels: Vec<Label>,
    pub(crate) line: Option<LineChange>,
    pub(crate) none: LineList,
}

impl Model for BillPlan {
    ghost use Rattle.std.specs.Prelude.{◌≡◌, []};
    ghost use Rattle.desk_graph.specs.Planned.{BillEdit};

    ghost Value = { BillEdit };

    ghost view = { λ plan. record {
      labels = plan.labels.items;
      line = plan.line;
    } };

    ghost invariant = { λ plan. plan.none ≡ [] };
}

impl BillPlan {
    ghost use Rattle.std.specs.Prelude.{◌≡◌, []};
    ghost use Rattle.desk_graph.specs.Edits.{is_taken};

    /// At most one line, and no new nodes. It takes no memory.
    pub(crate) fn of_line(alloc: Global, line: Option<LineChange>) -> BillPlan
        ensures { result ≡ record { labels = []; line = line } }
    {
        BillPlan {
            alloc,
            labels: Vec::new(alloc),
            line,
            none: LineList::new(alloc),
        }
    }

    /// Whether a new node of the plan has the label. No node of the bill is looked at.
    pub fn adds(&self, label: &[u8]) -> bool
        ensures { result ≡ is_taken self.now.labels label.now }
    {
        is_taken(self.labels.as_slice(), label)
    }
}
