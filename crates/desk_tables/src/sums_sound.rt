ghost use Rattle.std.specs.Prelude.{◌≡◌, ◌<◌, IfErr, IfOk, MatchOption, None, OnOk, Some, false, length, map, nat_lt, slice_index_or, true, ◌==◌};
ghost use Rattle.std.specs.List.{list_any};
ghost use Rattle.desk_model.specs.declared.rows.shipment.ShipmentRow.{ShipmentRow};
ghost use Rattle.desk_model.specs.Lists.{is_part};
ghost use Rattle.desk_findings.specs.Findings.{findings};
ghost use Rattle.desk_findings.specs.Mass.{mass};
ghost use Rattle.desk_findings.specs.Totals.{has_too_many_findings, too_heavy_part, too_heavy_year};
ghost use Rattle.desk_history.specs.Sound.{IsConsistent, KeepsSums};
ghost use Rattle.desk_tables.specs.Soundness.{IsNaming, NamesBreach};
ghost use Rattle.desk_totals.specs.Fit.{fit};
ghost use Rattle.desk_totals.specs.Linked.{IsLinkedOf};

use crate::tested_row::{fault_at, naming};
use crate::{SoundFault, TableLists, Tables};
use desk_model::{ShipmentRow, TableName, code_bytes};
use desk_text::{Code, OutOfMemory};
use desk_totals::Links;
use std::alloc::Global;

/// The test of the sums over whole tables: masses of parts, the number of findings, and masses of years.
impl Tables {
    /// Tests the sums, over a bill that is that of the tables.
    ///
    /// It takes what the sums take: a few passes over the bill, and where many ways lead down from parts, for each 64 nodes that have
    /// findings of their own, a few more.
    pub(crate) fn test_sums(&self, alloc: Global, bill: &Links) -> Result<(), SoundFault>
        requires consistent { IsConsistent self.now.lists }
        requires bill { IsLinkedOf bill.now self.now.lists }
        ensures kept { OnOk result (KeepsSums self.now.lists) }
        ensures told { IfErr result (NamesBreach self.now.lists) }
    {
        let lists = self.lists();
        let masses = lists.masses(alloc, bill)?;
        if let Some(part) = lists.too_heavy_part(masses.as_slice()) {
            return Err(part_fault(alloc, &part));
        }
        let found = lists.part_of_too_many_findings(alloc, bill, masses.as_slice())?;
        if let Some(part) = found {
            return Err(part_fault(alloc, &part));
        }
        match lists.too_heavy_year(masses.as_slice()) {
            Some(year) => Err(self.year_fault(alloc, year)),
            None => Ok(()),
        }
    }

    /// The fault that names the first shipment of a year that is too heavy.
    fn year_fault(&self, alloc: Global, year: u16) -> SoundFault
        requires { too_heavy_year self.now.lists ≡ Some year }
        ensures { NamesBreach self.now.lists result }
    {
        match first_of_year(self.shipments(), year) {
            Some(place) => fault_at(alloc, &self.shipments()[place]),
            None => unreachable!(),
        }
    }
}

impl<'a> TableLists<'a> {
    /// A part that has findings, where all parts together have more of them than the desk keeps.
    fn part_of_too_many_findings(
        &self,
        alloc: Global,
        bill: &Links,
        masses: &[Option<u128>],
    ) -> Result<Option<Code>, OutOfMemory>
        requires consistent { IsConsistent self.now }
        requires bill { IsLinkedOf bill.now self.now }
        requires masses { masses.now ≡ map (λ part. fit (mass self.now part.code)) self.now.parts }
        requires light { too_heavy_part self.now ≡ None }
        ensures { IfOk result (λ part. MatchOption part
            (has_too_many_findings self.now ≡ false)
            (λ code. (has_too_many_findings self.now ≡ true) × (is_part self.now code ≡ true)
            × (nat_lt 0 (length (findings self.now code)) ≡ true))) }
    {
        let is_full = self.has_too_many_findings(alloc, bill, masses)?;
        if !is_full {
            return Ok(None);
        }
        self.part_with_findings(alloc, masses)
    }
}

/// The place of the first shipment of the year.
fn first_of_year(shipments: &[ShipmentRow], year: u16) -> Option<usize>
    ensures { MatchOption result
        (list_any (λ shipment. shipment.year == year) shipments.now ≡ false)
        (λ place. (place < length shipments.now) × ((d : ShipmentRow) → (slice_index_or shipments.now place d).year ≡ year)) }
{
    for (place, shipment) in shipments.iter().enumerate() {
        if shipment.year == year {
            return Some(place);
        }
    }
    None
}

/// The fault that names the part.
fn part_fault(alloc: Global, part: &Code) -> SoundFault
    ensures { IsNaming 4 part.now result }
{
    naming(TableName::Parts, code_bytes(alloc, part))
}
