ghost use Rattle.std.specs.Prelude.{◌≡◌};
ghost use Rattle.desk_law.specs.Limit.{is_over, limit_of};

use crate::Rule;

/// The maximum concentration of a rule's substance in a homogeneous material, in ppm by weight:
/// Annex II to Directive 2011/65/EU.
#[tactic(auto, unfolding(crate::specs::Limit::limit_of))]
pub fn limit_ppm(rule: Rule) -> u32
    ensures { result ≡ limit_of rule }
{
    match rule {
        Rule::Cadmium => 100,
        _ => 1000,
    }
}

/// Whether a share of a mass is over a limit of `ppm` parts per million.
///
/// The mass is in micrograms and the share in millionths of a microgram. They are compared as
/// they stand, by `share > ppm * mass`, without a quotient that would have to be rounded.
#[tactic(auto, unfolding(crate::specs::Limit::is_over))]
pub fn over(share: u128, mass: u64, ppm: u32) -> bool
    ensures { result ≡ is_over share mass ppm }
{
    share > u128::from(ppm) * u128::from(mass)
}
