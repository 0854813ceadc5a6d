ghost use Rattle.std.specs.Prelude.{◌≡◌, true, IfOk};
ghost use Rattle.desk_history.specs.Refused.{first_some};
ghost use Rattle.desk_history.specs.Sound.{IsConsistent};
ghost use Rattle.desk_tables.specs.Change.{with_change_made};
ghost use Rattle.desk_tables.specs.PutLine.{with_line};
ghost use Rattle.desk_tables.specs.Sums.{is_of_sums, may_raise_sums, refusals_of_sums};
ghost use Rattle.desk_totals.specs.Linked.{IsLinkedOf};

use crate::changed_table::ChangedTable;
use crate::{RowChange, TableLists, Tables};
use desk_model::{Edit, LineRow, RuleFault};
use desk_rows::place_of_row;
use desk_text::OutOfMemory;
use desk_totals::Links;
use std::alloc::Global;

impl<'a> TableLists<'a> {
    /// The first of the refusals 21 to 23 that the lists meet, over a bill that is theirs.
    pub(crate) fn sums_fault(
        &self,
        alloc: Global,
        bill: &Links,
    ) -> Result<Option<RuleFault>, OutOfMemory>
        requires consistent { IsConsistent self.now }
        requires bill { IsLinkedOf bill.now self.now }
        ensures { IfOk result (λ fault. fault ≡ first_some (refusals_of_sums self.now)) }
    {
        let masses = self.masses(alloc, bill)?;
        if let Some(part) = self.too_heavy_part(masses.as_slice()) {
            return Ok(Some(RuleFault::TotalTooLarge { part }));
        }
        if self.has_too_many_findings(alloc, bill, masses.as_slice())? {
            return Ok(Some(RuleFault::FindingsFull));
        }
        match self.too_heavy_year(masses.as_slice()) {
            Some(year) => Ok(Some(RuleFault::YearTooLarge { year })),
            None => Ok(None),
        }
    }
}

impl Tables {
    /// The first of the refusals 21 to 23 that the tables meet with the change made.
    pub(crate) fn sums_fault_with(
        &self,
        alloc: Global,
        change: &RowChange,
    ) -> Result<Option<RuleFault>, OutOfMemory>
        requires consistent { IsConsistent (with_change_made self.now.lists change.now) }
        requires sums { is_of_sums change.now ≡ true }
        ensures { IfOk result (λ fault. fault ≡ first_some (refusals_of_sums (with_change_made self.now.lists change.now))) }
    {
        let table = self.changed_table(alloc, change)?;
        let lists = self.lists_with(&table);
        let bill = lists.links(alloc)?;
        lists.sums_fault(alloc, &bill)
    }

    /// The first of the refusals 21 to 23 that the tables meet with the line put in, where the bill is theirs without it.
    pub(crate) fn sums_fault_with_line(
        &self,
        alloc: Global,
        bill: Links,
        line: &LineRow,
    ) -> Result<Option<RuleFault>, OutOfMemory>
        requires bill { IsLinkedOf bill self.now.lists }
        requires consistent { IsConsistent (with_line self.now.lists line.now) }
        ensures { IfOk result (λ fault. fault ≡ first_some (refusals_of_sums (with_line self.now.lists line.now))) }
    {
        let bill = self.bill_with_line(alloc, bill, line)?;
        let lines = ChangedTable::Lines(self.tables.lines.copied_with(alloc, *line)?);
        let lists = self.lists_with(&lines);
        lists.sums_fault(alloc, &bill)
    }

    /// The bill of the tables with the line put in, from theirs without it. It takes two searches and a few passes over nodes and
    /// lines.
    fn bill_with_line(
        &self,
        alloc: Global,
        bill: Links,
        line: &LineRow,
    ) -> Result<Links, OutOfMemory>
        requires bill { IsLinkedOf bill self.now.lists }
        requires consistent { IsConsistent (with_line self.now.lists line.now) }
        ensures { IfOk result (λ bill. IsLinkedOf bill (with_line self.now.lists line.now)) }
    {
        self.in_order();
        match place_of_row(self.lines(), line) {
            Ok(place) => bill.with_line_at(alloc, place, line),
            Err(place) => bill.with_line_before(alloc, place, line),
        }
    }
}

/// Whether the edit can raise a mass, a number of findings or the mass of a year.
pub(crate) fn may_raise_sums(edit: &Edit) -> bool
    ensures { result ≡ may_raise_sums edit.now }
{
    match edit {
        Edit::Member { .. }
        | Edit::Declare { .. }
        | Edit::Line { .. }
        | Edit::Unline { .. }
        | Edit::Candidate { .. }
        | Edit::Ship { .. } => true,
        Edit::Substance { .. }
        | Edit::Part { .. }
        | Edit::Product { .. }
        | Edit::Exemption { .. }
        | Edit::Unexempt { .. }
        | Edit::Unship { .. } => false,
    }
}
