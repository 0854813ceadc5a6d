ghost use Rattle.std.specs.Prelude.{◌≡◌, ◌&&◌};
ghost use Rattle.desk_text.specs.Code.{same_code};
ghost use Rattle.desk_law.specs.Exemption.{covers, is_valid_on, is_claimed, is_for, keeps_cap, reaches_floor};
ghost use Rattle.desk_law.specs.Rule.{same_rule};

use crate::{Claim, Kind, Rule, Terms};
use desk_text::{Day, ExemptionNumber};

/// Whether the row covers a material that has these claims, for a rule, a kind of equipment and a day.
///
/// It does where the material claims the rule with the row's number, the row has the rule and the
/// kind, the day lies from its first to its last, and the share from its floor to its cap. The mass
/// is in micrograms and the share in millionths of a microgram; a floor and a cap are compared in
/// full, as a limit is.
#[tactic(auto, unfolding(crate::specs::Exemption::covers))]
pub fn covers(
    terms: &Terms,
    claims: &[Claim],
    rule: Rule,
    kind: Kind,
    day: Day,
    share: u128,
    mass: u64,
) -> bool
    ensures { result ≡ covers terms.now claims.now rule kind day share mass }
{
    is_claimed(claims, rule, terms.number)
        && is_for(terms, rule, kind)
        && is_valid_on(terms, day)
        && reaches_floor(terms.floor, share, mass)
        && keeps_cap(terms.cap, share, mass)
}

/// Whether one of the claims is of this rule and this number.
fn is_claimed(claims: &[Claim], rule: Rule, number: ExemptionNumber) -> bool
    ensures { result ≡ is_claimed claims.now rule number }
{
    claims.iter().any(|claim| is_of(claim, rule, number))
}

/// Whether the claim is of this rule and this number.
#[tactic(auto, unfolding(crate::specs::Rule::rule_number))]
fn is_of(claim: &Claim, rule: Rule, number: ExemptionNumber) -> bool
    ensures { result ≡ (same_rule claim.now.rule rule && same_code claim.now.number number) }
{
    claim.rule == rule && claim.number == number
}

/// Whether the row is for the rule and the kind.
#[tactic(auto, unfolding(crate::specs::Rule::rule_number))]
fn is_for(terms: &Terms, rule: Rule, kind: Kind) -> bool
    ensures { result ≡ is_for terms.now rule kind }
{
    terms.rule == rule && terms.kinds.contains(kind)
}

/// Whether the day lies from the row's first to its last.
#[tactic(auto, unfolding(crate::specs::Exemption::is_valid_on))]
fn is_valid_on(terms: &Terms, day: Day) -> bool
    ensures { result ≡ is_valid_on terms.now day }
{
    terms.first <= day && day <= terms.last
}

/// Whether the share is at least the floor, where there is one.
fn reaches_floor(floor: Option<u32>, share: u128, mass: u64) -> bool
    ensures { result ≡ reaches_floor floor share mass }
{
    match floor {
        Some(ppm) => share >= u128::from(ppm) * u128::from(mass),
        None => true,
    }
}

/// Whether the share is at most the cap, where there is one.
fn keeps_cap(cap: Option<u32>, share: u128, mass: u64) -> bool
    ensures { result ≡ keeps_cap cap share mass }
{
    match cap {
        Some(ppm) => share <= u128::from(ppm) * u128::from(mass),
        None => true,
    }
}
