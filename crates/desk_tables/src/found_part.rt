ghost use Rattle.std.specs.Prelude.{◌≡◌, ◌<◌, IfOk, MatchOption, None, false, length, map, nat_lt, slice_index, slice_index_or, true};
ghost use Rattle.std.specs.List.{list_any};
ghost use Rattle.desk_model.specs.Lists.{IsOrdered, is_part};
ghost use Rattle.desk_model.specs.declared.rows.line.LineRow.{LineRow};
ghost use Rattle.desk_findings.specs.Findings.{finding_count, findings};
ghost use Rattle.desk_findings.specs.Mass.{mass};
ghost use Rattle.desk_findings.specs.Totals.{too_heavy_part};
ghost use Rattle.desk_history.specs.Sound.{IsConsistent};
ghost use Rattle.desk_tables.specs.FindingCounts.{is_over_some_limit, own_of_material};
ghost use Rattle.desk_totals.specs.Fit.{fit};

use crate::TableLists;
use desk_rows::place_of_key;
use desk_text::{Code, OutOfMemory};
use std::alloc::Global;

/// A part on which something is found.
impl<'a> TableLists<'a> {
    /// A part that has findings, or None where no part has any. The masses are those of the parts, in order.
    ///
    /// It looks at each article for each candidate and at each material for each rule, and takes a binary search for
    /// each line.
    pub(crate) fn part_with_findings(
        &self,
        alloc: Global,
        masses: &[Option<u128>],
    ) -> Result<Option<Code>, OutOfMemory>
        requires consistent { IsConsistent self.now }
        requires masses { masses.now ≡ map (λ part. fit (mass self.now part.code)) self.now.parts }
        requires light { too_heavy_part self.now ≡ None }
        ensures { IfOk result (λ part. MatchOption part
            (finding_count self.now ≡ 0)
            (λ code. (is_part self.now code ≡ true) × (nat_lt 0 (length (findings self.now code)) ≡ true))) }
    {
        let of_parts = self.part_counts(alloc, self.parts(), masses)?;
        if let Some(place) = first_above_zero(of_parts.as_slice()) {
            return Ok(Some(self.parts()[place].code));
        }
        let of_materials = self.material_counts(alloc, self.materials())?;
        match self.line_to_findings(of_materials.as_slice()) {
            Some(place) => Ok(Some(self.lines()[place].parent)),
            None => Ok(None),
        }
    }

    /// The place of the first line to a material that is over a rule's limit. For each material it is given how many it
    /// is over.
    fn line_to_findings(&self, counts: &[usize]) -> Option<usize>
        requires ordered { IsOrdered self.now }
        requires counts { counts.now ≡ map (own_of_material self.now) self.now.materials }
        ensures { MatchOption result
            (list_any (λ line. is_over_some_limit self.now line.child) self.now.lines ≡ false)
            (λ place. (place < length self.now.lines)
            × ((d : LineRow) → is_over_some_limit self.now (slice_index_or self.now.lines place d).child ≡ true)) }
    {
        let lines = self.lines();
        for (place, line) in lines.iter().enumerate() {
            if self.is_over_some_limit(counts, &line.child) {
                return Some(place);
            }
        }
        None
    }

    /// Whether the code is that of a material that is over a rule's limit. It takes a binary search.
    fn is_over_some_limit(&self, counts: &[usize], code: &Code) -> bool
        requires ordered { IsOrdered self.now }
        requires counts { counts.now ≡ map (own_of_material self.now) self.now.materials }
        ensures { result ≡ is_over_some_limit self.now code.now }
    {
        match place_of_key(self.materials(), code) {
            Ok(place) => counts[place] > 0,
            Err(_) => false,
        }
    }
}

/// The place of the first count that isn't 0.
fn first_above_zero(counts: &[usize]) -> Option<usize>
    ensures { MatchOption result
        (list_any (λ count. nat_lt 0 count) counts.now ≡ false)
        (λ place. (place < length counts.now) × (nat_lt 0 (slice_index counts.now place) ≡ true)) }
{
    for (place, count) in counts.iter().enumerate() {
        if *count > 0 {
            return Some(place);
        }
    }
    None
}
