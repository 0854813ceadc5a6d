ghost use Rattle.std.specs.Prelude.{◌≡◌, None, Some, length, option_map};
ghost use Rattle.desk_rows.specs.Rows.{with_row};
ghost use Rattle.desk_model.specs.Lists.{Lists, line_key, line_key_cmp, ticket_row};
ghost use Rattle.desk_findings.specs.Reaches.{lines_of};
ghost use Rattle.desk_model.specs.declared.rule_fault.RuleFault.TheVariants.{TableFull, TextFull};
ghost use Rattle.desk_history.specs.Limits.{has_too_many_lines, has_too_much_text, tables_over};
ghost use Rattle.desk_history.specs.Refused.{first_of, refuse_if};
ghost use Rattle.desk_history.specs.Sound.{Sound};
ghost use Rattle.desk_tables.specs.Change.{IsReady, with_change_made};
ghost use Rattle.desk_tables.specs.Counts.{counts_of};
ghost use Rattle.desk_tables.specs.Plan.{with_change_entered};

use crate::counts::{RowCounts, count_with};
use crate::refuse::refuse_if;
use crate::{RowChange, Tables};
use desk_model::limits::{
    CANDIDATE_LIMIT, EXEMPTION_LIMIT, LINE_LIMIT, LINES_OF_PARENT_LIMIT, MATERIAL_LIMIT,
    MEMBER_LIMIT, PART_LIMIT, PRODUCT_LIMIT, SHIPMENT_LIMIT, SUBSTANCE_LIMIT, TEXT_LIMIT,
    TICKET_LIMIT,
};
use desk_model::{LineRow, RuleFault, TicketRow};
use desk_rows::run_of;
use desk_text::Code;

/// The refusals 18 and 19, on the limits of tables and texts.
impl Tables {
    /// 18: a table would exceed its limit, the first of the ten, or else one parent's lines.
    pub(crate) fn table_full(&self, change: &RowChange, ticket: &TicketRow) -> Option<RuleFault>
        requires sound { Sound self.now.lists }
        requires ready { IsReady self.now change.now }
        ensures { result ≡ option_map TableFull (first_of (tables_over (with_change_entered self.now.lists change.now ticket.now))) }
    {
        let mut counts = self.counts_with(change);
        counts.tickets = count_with(self.tables.tickets.as_slice(), ticket);
        match counts.first_over(self.has_too_many_lines_with(change)) {
            Some(table) => Some(RuleFault::TableFull { table }),
            None => None,
        }
    }

    /// Whether some part has more lines than one parent may have, with the change made.
    #[tactic(auto, unfolding(crate::specs::Change::with_change_made))]
    fn has_too_many_lines_with(&self, change: &RowChange) -> bool
        requires { Sound self.now.lists }
        ensures { result ≡ has_too_many_lines (with_change_made self.now.lists change.now) }
    {
        match change {
            RowChange::PutLine { row, .. } => {
                self.is_part(&row.parent) && self.lines_with(row) > LINES_OF_PARENT_LIMIT as u128
            }
            _ => false,
        }
    }

    /// How many lines the row's parent has with the row put in. It takes three binary searches.
    fn lines_with(&self, row: &LineRow) -> u128
        ensures { result ≡ length (lines_of (with_row line_key line_key_cmp row.now self.now.lists.lines) row.now.parent) }
    {
        // The call does nothing but say that lines of one parent stand together.
        self.in_order();
        let kept = run_of(self.lines(), &row.parent).len() as u128;
        if self.is_line(&row.parent, &row.child) {
            kept
        } else {
            kept + 1
        }
    }

    /// 19: the kept edit texts would exceed their limit. The ticket isn't kept.
    pub(crate) fn text_full(&self, change: &RowChange, ticket: &TicketRow) -> Option<RuleFault>
        requires sound { Sound self.now.lists }
        requires new { ticket_row self.now.lists ticket.now.code ≡ None }
        ensures { result ≡ refuse_if (has_too_much_text (with_change_entered self.now.lists change.now ticket.now)) TextFull }
    {
        let text = self.text + ticket.text.len() as u128;
        refuse_if(text > TEXT_LIMIT as u128, RuleFault::TextFull)
    }
}

impl RowCounts {
    /// The number of the first table over its limit, or else 11 where some part has too many lines.
    #[tactic(auto, unfolding(desk_history::specs::Limits::tables_over))]
    fn first_over(&self, lines_overflow: bool) -> Option<u8>
        ensures { (t : Lists) → self.now ≡ counts_of t → lines_overflow ≡ has_too_many_lines t → result ≡ first_of (tables_over t) }
    {
        if self.substances > SUBSTANCE_LIMIT as u128 {
            return Some(1);
        }
        if self.members > MEMBER_LIMIT as u128 {
            return Some(2);
        }
        if self.materials > MATERIAL_LIMIT as u128 {
            return Some(3);
        }
        if self.parts > PART_LIMIT as u128 {
            return Some(4);
        }
        if self.lines > LINE_LIMIT as u128 {
            return Some(5);
        }
        if self.products > PRODUCT_LIMIT as u128 {
            return Some(6);
        }
        if self.exemptions > EXEMPTION_LIMIT as u128 {
            return Some(7);
        }
        if self.candidates > CANDIDATE_LIMIT as u128 {
            return Some(8);
        }
        if self.shipments > SHIPMENT_LIMIT as u128 {
            return Some(9);
        }
        if self.tickets > TICKET_LIMIT as u128 {
            return Some(10);
        }
        if lines_overflow { Some(11) } else { None }
    }
}
