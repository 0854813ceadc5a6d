ghost use Rattle.std.specs.Prelude.{◌≡◌, IfOk, IfSome, None, true};
ghost use Rattle.desk_model.specs.Effect.{with_edit_made};
ghost use Rattle.desk_model.specs.Lists.{Lists};
ghost use Rattle.desk_history.specs.Refused.{closes_cycle};
ghost use Rattle.desk_history.specs.Sound.{Sound};
ghost use Rattle.desk_tables.specs.PutLine.{cycle_with, with_line};
ghost use Rattle.desk_tables.specs.Sums.{may_raise_sums};
ghost use Rattle.desk_totals.specs.Linked.{IsLinkedOf};

use crate::Tables;
use desk_model::{Edit, LineRow, RuleFault};
use desk_text::OutOfMemory;
use desk_totals::Links;
use std::alloc::Global;

impl Tables {
    /// 20: the child of the line is its parent or reaches it; the chain goes from the child to the parent. The bill is that of the
    /// tables. It takes a few passes over nodes and lines.
    pub(crate) fn cycle_fault(
        &self,
        alloc: Global,
        bill: &Links,
        line: &LineRow,
    ) -> Result<Option<RuleFault>, OutOfMemory>
        requires sound { Sound self.now.lists }
        requires bill { IsLinkedOf bill.now self.now.lists }
        ensures { IfOk result (λ fault. fault ≡ cycle_with self.now.lists line.now) }
    {
        let (child, parent) = (&line.child, &line.parent);
        if self.lists().is_or_reaches(alloc, bill, child, parent)? {
            let chain = bill.chain(alloc, child, parent)?;
            Ok(Some(RuleFault::ClosesCycle { chain }))
        } else {
            Ok(None)
        }
    }
}

/// The line of an edit that puts one in.
#[tactic(auto, unfolding(desk_history::specs::Refused::closes_cycle, desk_model::specs::Effect::with_edit_made))]
pub(crate) fn line_of(edit: &Edit) -> Option<LineRow>
    ensures none { result ≡ None → (t : Lists) → closes_cycle t edit.now ≡ None }
    ensures cycle { IfSome result (λ line. (t : Lists) → closes_cycle t edit.now ≡ cycle_with t line) }
    ensures made { IfSome result (λ line. (t : Lists) → with_edit_made t edit.now ≡ with_line t line) }
    ensures raises { IfSome result (λ _. may_raise_sums edit.now ≡ true) }
{
    match edit {
        Edit::Line {
            parent,
            child,
            count,
            ..
        } => Some(LineRow {
            parent: *parent,
            child: *child,
            count: count.get() as u32,
        }),
        _ => None,
    }
}
