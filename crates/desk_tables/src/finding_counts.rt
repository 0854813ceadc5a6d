ghost use Rattle.std.specs.Prelude.{◌≡◌, [], ◌∷◌, ◌<◌, ◌≤◌, ◌+◌, ◌++◌, ◌^◌, ℕ, List, None, Some, length, map, nat_lt, slice_index, sum_by, vec_capacity, vec_len, if◌then◌else◌, IfOk};
ghost use Rattle.std.specs.List.{All, range_with_len};
ghost use Rattle.desk_model.specs.Lists.{IsOrdered, member_key, member_key_cmp};
ghost use Rattle.desk_model.specs.declared.limits.TheConstants.{CONTENT_LIMIT, FINDING_LIMIT};
ghost use Rattle.desk_rows.specs.Rows.{IsByKey};
ghost use Rattle.desk_findings.specs.Above.{content};
ghost use Rattle.desk_findings.specs.Mass.{mass};
ghost use Rattle.desk_findings.specs.Totals.{has_too_many_findings, too_heavy_part};
ghost use Rattle.desk_history.specs.Sound.{IsConsistent};
ghost use Rattle.desk_tables.specs.FindingCounts.{added_at, holders_among, own_of_material, own_of_part};
ghost use Rattle.desk_totals.specs.Fit.{fit};
ghost use Rattle.desk_totals.specs.Linked.{IsLinkedOf};

use crate::TableLists;
use desk_model::limits::FINDING_LIMIT;
use desk_model::{MaterialRow, PartRow, PartSort};
use desk_text::OutOfMemory;
use desk_totals::Links;
use std::alloc::Global;

impl<'a> TableLists<'a> {
    /// Whether all parts together have more findings than the desk keeps. The bill is that of the lists, and the masses are those of
    /// the parts, in order.
    ///
    /// Where few ways lead down from parts it takes a few passes over nodes and lines. Else it looks at each material for each rule and
    /// at each article for each candidate, and takes, for each 64 of them that have findings of their own, a few passes over them and
    /// the lines.
    pub(crate) fn has_too_many_findings(
        &self,
        alloc: Global,
        bill: &Links,
        masses: &[Option<u128>],
    ) -> Result<bool, OutOfMemory>
        requires consistent { IsConsistent self.now }
        requires bill { IsLinkedOf bill.now self.now }
        requires masses { masses.now ≡ map (λ part. fit (mass self.now part.code)) self.now.parts }
        requires light { too_heavy_part self.now ≡ None }
        ensures { IfOk result (λ many. many ≡ has_too_many_findings self.now) }
    {
        if self.has_few_ways(alloc, bill)? {
            return Ok(false);
        }
        let own = self.own_counts(alloc, masses)?;
        let holders = holders_of(alloc, own.as_slice())?;
        let reach = bill.reach_counts(alloc, holders.as_slice())?;
        Ok(are_too_many(
            own.as_slice(),
            holders.as_slice(),
            reach.as_slice(),
            self.materials().len(),
        ))
    }

    /// How many findings there are on each material and then on each part by itself.
    fn own_counts(&self, alloc: Global, masses: &[Option<u128>]) -> Result<Vec<usize>, OutOfMemory>
        requires consistent { IsConsistent self.now }
        requires masses { masses.now ≡ map (λ part. fit (mass self.now part.code)) self.now.parts }
        requires light { too_heavy_part self.now ≡ None }
        ensures { IfOk result (λ counts. counts.items ≡ map (own_of_material self.now) self.now.materials ++ map (own_of_part self.now) self.now.parts) }
    {
        let mut counts = self.material_counts(alloc, self.materials())?;
        let of_parts = self.part_counts(alloc, self.parts(), masses)?;
        counts.extend_from_slice(of_parts.as_slice())?;
        Ok(counts)
    }

    /// How many findings there are on each of these materials by itself.
    pub(crate) fn material_counts(
        &self,
        alloc: Global,
        materials: &[MaterialRow],
    ) -> Result<Vec<usize>, OutOfMemory>
        requires ordered { IsByKey member_key member_key_cmp self.now.members }
        requires few { All (λ material. length material.substances ≤ CONTENT_LIMIT) materials.now }
        ensures { IfOk result (λ counts. counts.items ≡ map (own_of_material self.now) materials.now) }
    {
        let mut counts = Vec::with_capacity(alloc, materials.len())?;
        for material in materials {
            counts.push_reserved(self.rules_over_count(material));
        }
        Ok(counts)
    }

    /// How many findings there are on each of these parts by itself, by their masses.
    pub(crate) fn part_counts(
        &self,
        alloc: Global,
        parts: &[PartRow],
        masses: &[Option<u128>],
    ) -> Result<Vec<usize>, OutOfMemory>
        requires ordered { IsOrdered self.now }
        requires fits { All (λ part. (substance : List ℕ) → content self.now part.code substance < 2 ^ 128) parts.now }
        requires masses { masses.now ≡ map (λ part. Some (mass self.now part.code)) parts.now }
        ensures { IfOk result (λ counts. counts.items ≡ map (own_of_part self.now) parts.now) }
    {
        let mut counts = Vec::with_capacity(alloc, parts.len())?;
        for (place, part) in parts.iter().enumerate() {
            counts.push_reserved(self.part_count(part, masses[place]));
        }
        Ok(counts)
    }

    /// How many findings there are on the part by itself, whose mass is given.
    fn part_count(&self, part: &PartRow, weight: Option<u128>) -> usize
        requires ordered { IsOrdered self.now }
        requires fits { (substance : List ℕ) → content self.now part.now.code substance < 2 ^ 128 }
        requires weight { weight ≡ Some (mass self.now part.now.code) }
        ensures { result ≡ own_of_part self.now part.now }
    {
        match (part.sort, weight) {
            (PartSort::Article, Some(weight)) => self.above_count(part, weight),
            _ => 0,
        }
    }
}

/// The places of the nodes that have findings of their own.
fn holders_of(alloc: Global, own: &[usize]) -> Result<Vec<usize>, OutOfMemory>
    ensures { IfOk result (λ holders. holders.items ≡ holders_among own.now) }
{
    let mut holders = Vec::with_capacity(alloc, own.len())?;
    for place in 0..own.len() {
        add_holder(&mut holders, own, place);
    }
    Ok(holders)
}

/// Adds the place where its node has findings of its own.
fn add_holder(holders: &mut Vec<usize>, own: &[usize], place: usize)
    requires room { vec_len holders.old < vec_capacity holders.old }
    requires place { place < length own.now }
    ensures items { holders.new.items ≡ holders.old.items ++ (if nat_lt 0 (slice_index own.now place) then place ∷ [] else []) }
    ensures len { vec_len holders.new ≤ vec_len holders.old + 1 }
    ensures capacity { vec_capacity holders.new ≡ vec_capacity holders.old }
{
    if own[place] > 0 {
        holders.push_reserved(place);
    }
}

/// Whether the nodes at these places add up to more findings than the desk keeps.
fn are_too_many(own: &[usize], holders: &[usize], reach: &[usize], material_count: usize) -> bool
    requires places { All (λ place. place < length own.now) holders.now }
    requires reach { length reach.now ≡ length holders.now }
    ensures { result ≡ nat_lt FINDING_LIMIT (sum_by (added_at own.now holders.now reach.now material_count) (range_with_len 0 (length holders.now))) }
{
    let mut total = 0u128;
    for index in 0..holders.len() {
        total += added_by(own, holders, reach, material_count, index);
        if total > FINDING_LIMIT as u128 {
            return true;
        }
    }
    false
}

/// What the holder of this index adds: its own findings, for each part that reaches it, and those of a part for the part itself.
fn added_by(
    own: &[usize],
    holders: &[usize],
    reach: &[usize],
    material_count: usize,
    index: usize,
) -> u128
    requires places { All (λ place. place < length own.now) holders.now }
    requires index { index < length holders.now }
    requires reach { index < length reach.now }
    ensures amount { result ≡ added_at own.now holders.now reach.now material_count index }
    ensures below { result + 2 ^ 64 ≤ 2 ^ 128 }
{
    let place = holders[index];
    let itself = u128::from(place >= material_count);
    own[place] as u128 * (reach[index] as u128 + itself)
}
