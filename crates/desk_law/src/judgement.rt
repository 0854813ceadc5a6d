ghost use Rattle.std.specs.Prelude.{◌≡◌, IsTrue};
ghost use Rattle.std.specs.List.Sorted.{IsSortedByKey};
ghost use Rattle.desk_text.specs.Code.{code_cmp};
ghost use Rattle.desk_text.specs.Day.{is_askable};
ghost use Rattle.desk_law.specs.Exemption.{covers};
ghost use Rattle.desk_law.specs.Verdict.{covering_place, verdict, verdict_by, NamesLeast};

use crate::{Claim, Kind, Restriction, Rule, Terms, Verdict, covers, over};
use desk_text::Day;

/// The verdict on a material for a rule, a kind of equipment and a day: the first that applies of
/// within, not in force, exempt and breach.
///
/// The mass is in micrograms and the share in millionths of a microgram. The day is askable. The
/// rows are the exemptions in order of code; of those that cover the material the one with the
/// least code is named.
#[tactic(auto, unfolding(crate::specs::Verdict::verdict, crate::specs::Restriction::restriction_of))]
pub fn judge(
    share: u128,
    mass: u64,
    claims: &[Claim],
    rule: Rule,
    kind: Kind,
    day: Day,
    rows: &[Terms],
) -> Verdict
    requires askable { IsTrue (is_askable day) }
    requires in_order { IsSortedByKey (λ row. row.row) code_cmp rows.now }
    ensures verdict { result ≡ verdict share mass claims.now rule kind day rows.now }
    ensures least { NamesLeast (λ row. covers row claims.now rule kind day share mass) rows.now result }
{
    judge_by(share, mass, claims, &Restriction::of(rule, kind), day, rows)
}

/// The verdict on a material by a restriction, which holds its rule, its kind of equipment, its limit and its first
/// day: the first that applies of within, not in force, exempt and breach.
///
/// The mass is in micrograms and the share in millionths of a microgram. The rows are the exemptions
/// in order of code; of those that cover the material the one with the least code is named.
#[tactic(auto, unfolding(crate::specs::Verdict::verdict_by))]
pub fn judge_by(
    share: u128,
    mass: u64,
    claims: &[Claim],
    restriction: &Restriction,
    day: Day,
    rows: &[Terms],
) -> Verdict
    requires { IsSortedByKey (λ row. row.row) code_cmp rows.now }
    ensures verdict { result ≡ verdict_by share mass claims.now restriction.now day rows.now }
    ensures least { NamesLeast (λ row. covers row claims.now restriction.now.rule restriction.now.kind day share mass) rows.now result }
{
    if !over(share, mass, restriction.ppm) {
        return Verdict::Within;
    }
    if !restriction.in_force(day) {
        return Verdict::NotInForce;
    }
    match first_covering(rows, claims, restriction, day, share, mass) {
        Some(place) => Verdict::Exempt { place },
        None => Verdict::Breach,
    }
}

/// The place of the first row that covers the material for the restriction's rule and kind.
fn first_covering(
    rows: &[Terms],
    claims: &[Claim],
    restriction: &Restriction,
    day: Day,
    share: u128,
    mass: u64,
) -> Option<usize>
    ensures { result ≡ covering_place rows.now claims.now restriction.now.rule restriction.now.kind day share mass }
{
    let (rule, kind) = (restriction.rule, restriction.kind);
    rows.iter()
        .position(|row| covers(row, claims, rule, kind, day, share, mass))
}
