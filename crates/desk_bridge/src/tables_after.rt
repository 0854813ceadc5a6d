ghost use Rattle.std.specs.Prelude.{◌≡◌, ◌≤◌, true, IfOk, length, option_copied, option_map};
ghost use Rattle.desk_text.specs.Code.{code_cmp};
ghost use Rattle.desk_rows.specs.Rows.{IsByKey, row_of};
ghost use Rattle.desk_model.specs.Lists.{IsOrdered, candidate_row, material_row, member_key, member_key_cmp, member_row, part_row};
ghost use Rattle.desk_model.specs.declared.limits.TheConstants.{CONTENT_LIMIT};
ghost use Rattle.desk_findings.specs.Above.{is_candidate};
ghost use Rattle.desk_findings.specs.Reaches.{lines_of};
ghost use Rattle.desk_findings.specs.Share.{factor_of, is_over_limit, share};
ghost use Rattle.desk_tables.specs.Change.{with_change_made};
ghost use Rattle.desk_bridge.specs.TablesAfter.{changed_if, put_materials, put_materials_if};

use crate::lines_after::lines_of;
use crate::rows_after::{do_keys_rise, row_with, row_with_all, row_without};
use desk_law::{Rule, limit_ppm, over};
use desk_model::{CandidateRow, LineRow, MaterialRow, MemberRow, PartRow};
use desk_tables::{RowChange, Tables, row_of};
use desk_text::{Code, OutOfMemory};
use std::alloc::Global;
use std::marker::Model;

/// The tables as they stand, or as a change of rows would leave them; neither is copied. Contracts see the lists.
#[derive(Drop)]
pub struct TablesAfter<'a> {
    tables: &'a Tables,
    change: Option<&'a RowChange>,
    /// Whether the materials that the change puts in are known to stand in order, so that a binary search finds one of them.
    rise: bool,
}

impl<'a> Model for TablesAfter<'a> {
    ghost use Rattle.std.specs.Prelude.{◌≡◌, true, option_map};
    ghost use Rattle.desk_text.specs.Code.{code_cmp};
    ghost use Rattle.desk_rows.specs.Rows.{IsByKey};
    ghost use Rattle.desk_model.specs.Lists.{Lists};
    ghost use Rattle.desk_bridge.specs.TablesAfter.{changed_if, put_materials_if};

    ghost Value = { Lists };

    ghost view = { λ after. changed_if after.tables.now.lists (option_map (λ change. change.now) after.change) };

    ghost invariant = { λ after. after.rise ≡ true → IsByKey (λ row. row.code) code_cmp (put_materials_if (option_map (λ change. change.now) after.change)) };
}

impl<'a> TablesAfter<'a> {
    /// The tables as they stand.
    pub fn unchanged(tables: &'a Tables) -> TablesAfter<'a>
        ensures { result ≡ tables.now.lists }
    {
        TablesAfter {
            tables,
            change: None,
            rise: false,
        }
    }

    /// The tables as the change would leave them. It takes a pass over the materials that the change puts in.
    pub fn new(tables: &'a Tables, change: &'a RowChange) -> TablesAfter<'a>
        ensures { result ≡ with_change_made tables.now.lists change.now }
    {
        let rise = do_materials_rise(change);
        TablesAfter {
            tables,
            change: Some(change),
            rise,
        }
    }

    /// The material of a code. It takes up to two binary searches.
    pub fn material(&self, code: &Code) -> Option<&'a MaterialRow>
        ensures { option_copied result ≡ material_row self.now code.now }
    {
        material_after(self.tables, self.change, self.rise, code)
    }

    /// The part of a code. It takes a binary search.
    pub fn part(&self, code: &Code) -> Option<&'a PartRow>
        ensures { option_copied result ≡ part_row self.now code.now }
    {
        part_after(self.tables, self.change, code)
    }

    /// The lines of a part, in order of child. It takes a binary search and a copy of the lines.
    pub fn lines_of(&self, alloc: Global, code: &Code) -> Result<Vec<LineRow>, OutOfMemory>
        ensures { IfOk result (λ lines. lines.items ≡ lines_of self.now.lines code.now) }
    {
        lines_of(alloc, self.tables, self.change, code)
    }

    /// Whether a substance is on the candidate list. It takes a binary search.
    pub fn is_candidate(&self, substance: &Code) -> bool
        ensures { result ≡ is_candidate self.now substance.now }
    {
        candidate_after(self.tables, self.change, substance).is_some()
    }

    /// What a rule counts of a substance. It takes a binary search.
    pub fn member(&self, substance: &Code, rule: Rule) -> Option<&'a MemberRow>
        ensures { option_copied result ≡ member_row self.now substance.now rule }
    {
        member_after(self.tables, self.change, &(*substance, rule.number()))
    }

    /// Whether the rule's share in a material is over the rule's limit. It takes a binary search for each substance of the material.
    pub fn is_over_limit(&self, material: &MaterialRow, rule: Rule) -> bool
        requires { length material.now.substances ≤ CONTENT_LIMIT }
        ensures { result ≡ is_over_limit self.now rule material.now }
    {
        over(
            self.share_in(material, rule),
            material.mass,
            limit_ppm(rule),
        )
    }

    /// The share of the rule in a material, in millionths of a microgram: the sum over its substances of mass times factor.
    #[tactic(auto, unfolding(desk_findings::specs::Share::share))]
    fn share_in(&self, material: &MaterialRow, rule: Rule) -> u128
        requires { length material.now.substances ≤ CONTENT_LIMIT }
        ensures { result ≡ share self.now rule material.now }
    {
        let mut share = 0u128;
        for held in material.substances.as_slice() {
            share += u128::from(held.mass) * u128::from(self.factor_of(rule, &held.substance));
        }
        share
    }

    /// By which factor a substance counts for the rule, in millionths: 0 where it is no member.
    fn factor_of(&self, rule: Rule, substance: &Code) -> u32
        ensures { result ≡ factor_of self.now rule substance.now }
    {
        match self.member(substance, rule) {
            Some(member) => member.factor,
            None => 0,
        }
    }
}

/// Whether the materials that the change puts in stand in order.
fn do_materials_rise(change: &RowChange) -> bool
    ensures { result ≡ true → IsByKey (λ row. row.code) code_cmp (put_materials change.now) }
{
    match change {
        RowChange::PutMaterials { rows, .. } => do_keys_rise(rows.as_slice()),
        _ => false,
    }
}

/// The material of a code after the change.
fn material_after<'a>(
    tables: &'a Tables,
    change: Option<&'a RowChange>,
    rise: bool,
    code: &Code,
) -> Option<&'a MaterialRow>
    requires { rise ≡ true → IsByKey (λ row. row.code) code_cmp (put_materials_if (option_map (λ change. change.now) change)) }
    ensures { option_copied result ≡ material_row (changed_if tables.now.lists (option_map (λ change. change.now) change.entry)) code.now }
{
    // The call does nothing but say that the rows stand in order.
    tables.in_order();
    match change {
        Some(change) => changed_material(tables, change, rise, code),
        None => row_of(tables.materials(), code),
    }
}

/// The material of a code after the change.
#[tactic(auto, unfolding(desk_tables::specs::Change::with_change_made))]
fn changed_material<'a>(
    tables: &'a Tables,
    change: &'a RowChange,
    rise: bool,
    code: &Code,
) -> Option<&'a MaterialRow>
    requires ordered { IsOrdered tables.now.lists }
    requires rise { rise ≡ true → IsByKey (λ row. row.code) code_cmp (put_materials change.now) }
    ensures { option_copied result ≡ material_row (with_change_made tables.now.lists change.now) code.now }
{
    match change {
        RowChange::PutMaterials { rows, .. } => {
            row_with_all(tables.materials(), rows.as_slice(), rise, code)
        }
        _ => row_of(tables.materials(), code),
    }
}

/// The part of a code after the change.
fn part_after<'a>(
    tables: &'a Tables,
    change: Option<&'a RowChange>,
    code: &Code,
) -> Option<&'a PartRow>
    ensures { option_copied result ≡ part_row (changed_if tables.now.lists (option_map (λ change. change.now) change.entry)) code.now }
{
    tables.in_order();
    match change {
        Some(change) => changed_part(tables, change, code),
        None => row_of(tables.parts(), code),
    }
}

/// The part of a code after the change.
#[tactic(auto, unfolding(desk_tables::specs::Change::with_change_made))]
fn changed_part<'a>(tables: &'a Tables, change: &'a RowChange, code: &Code) -> Option<&'a PartRow>
    requires { IsOrdered tables.now.lists }
    ensures { option_copied result ≡ part_row (with_change_made tables.now.lists change.now) code.now }
{
    match change {
        RowChange::PutPart { row, .. } => row_with(tables.parts(), row, code),
        _ => row_of(tables.parts(), code),
    }
}

/// The candidate of a substance after the change.
fn candidate_after<'a>(
    tables: &'a Tables,
    change: Option<&'a RowChange>,
    substance: &Code,
) -> Option<&'a CandidateRow>
    ensures { option_copied result ≡ candidate_row (changed_if tables.now.lists (option_map (λ change. change.now) change.entry)) substance.now }
{
    tables.in_order();
    match change {
        Some(change) => changed_candidate(tables, change, substance),
        None => row_of(tables.candidates(), substance),
    }
}

/// The candidate of a substance after the change.
#[tactic(auto, unfolding(desk_tables::specs::Change::with_change_made))]
fn changed_candidate<'a>(
    tables: &'a Tables,
    change: &'a RowChange,
    substance: &Code,
) -> Option<&'a CandidateRow>
    requires { IsOrdered tables.now.lists }
    ensures { option_copied result ≡ candidate_row (with_change_made tables.now.lists change.now) substance.now }
{
    match change {
        RowChange::PutCandidate { row, .. } => row_with(tables.candidates(), row, substance),
        _ => row_of(tables.candidates(), substance),
    }
}

/// The member of a key after the change.
fn member_after<'a>(
    tables: &'a Tables,
    change: Option<&'a RowChange>,
    key: &(Code, u8),
) -> Option<&'a MemberRow>
    ensures { option_copied result ≡ row_of member_key member_key_cmp key.now (changed_if tables.now.lists (option_map (λ change. change.now) change.entry)).members }
{
    tables.in_order();
    match change {
        Some(change) => changed_member(tables, change, key),
        None => row_of(tables.members(), key),
    }
}

/// The member of a key after the change.
#[tactic(auto, unfolding(desk_tables::specs::Change::with_change_made))]
fn changed_member<'a>(
    tables: &'a Tables,
    change: &'a RowChange,
    key: &(Code, u8),
) -> Option<&'a MemberRow>
    requires { IsOrdered tables.now.lists }
    ensures { option_copied result ≡ row_of member_key member_key_cmp key.now (with_change_made tables.now.lists change.now).members }
{
    match change {
        RowChange::PutMember { row, .. } => row_with(tables.members(), row, key),
        RowChange::DropMember { substance, rule } => {
            row_without(tables.members(), &(*substance, rule.number()), key)
        }
        _ => row_of(tables.members(), key),
    }
}
