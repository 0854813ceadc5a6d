#![tactic(auto, unfolding(crate::specs::InForce::first_day, crate::specs::Kind::kind_place, crate::specs::Rule::rule_number))]

ghost use Rattle.std.specs.Prelude.{◌≡◌, IsTrue, Some};
ghost use Rattle.desk_text.specs.Day.{is_askable};
ghost use Rattle.desk_law.specs.InForce.{first_day, is_in_force};

use crate::{Kind, Restriction, Rule};
use desk_text::Day;

/// Whether the rule is in force for equipment of the kind that is placed on the market on the day.
///
/// Article 4(3) of Directive 2011/65/EU, as amended by Directive (EU) 2017/2102, and Annex II with
/// Delegated Directive (EU) 2015/863. The day is askable: what was in force before 22 July 2014 is
/// not told.
#[tactic(auto, unfolding(crate::specs::InForce::is_in_force, crate::specs::Restriction::restriction_of))]
pub fn in_force(rule: Rule, kind: Kind, day: Day) -> bool
    requires { IsTrue (is_askable day) }
    ensures { result ≡ is_in_force rule kind day }
{
    Restriction::of(rule, kind).in_force(day)
}

/// The first askable day on which the rule is in force for the kind, if it ever is.
pub(crate) fn first_day(rule: Rule, kind: Kind) -> Option<Day>
    ensures { result ≡ first_day rule kind }
{
    match rule {
        Rule::Lead | Rule::Mercury | Rule::Cadmium | Rule::ChromiumVi | Rule::Pbb | Rule::Pbde =>
            Some(first_day_of_six(kind)),
        Rule::Dehp | Rule::Bbp | Rule::Dbp if kind == Kind::Toy => None,
        Rule::Dehp | Rule::Bbp | Rule::Dbp | Rule::Dibp => Some(first_day_of_phthalates(kind)),
    }
}

/// The first day of the six substances of Annex II as adopted in 2011.
fn first_day_of_six(kind: Kind) -> Day
    ensures { Some result ≡ first_day Rule.Lead kind }
{
    match kind {
        Kind::MedicalDevice | Kind::ControlInstrument => Day::new(2014, 7, 22),
        Kind::InVitroDiagnostic => Day::new(2016, 7, 22),
        Kind::IndustrialInstrument => Day::new(2017, 7, 22),
        Kind::Other => Day::new(2019, 7, 22),
        _ => Day::FIRST_ASKABLE,
    }
}

/// The first day of the four phthalates of Delegated Directive (EU) 2015/863, besides three of them in toys.
fn first_day_of_phthalates(kind: Kind) -> Day
    ensures { Some result ≡ first_day Rule.Dibp kind }
{
    match kind {
        Kind::MedicalDevice
        | Kind::InVitroDiagnostic
        | Kind::ControlInstrument
        | Kind::IndustrialInstrument => Day::new(2021, 7, 22),
        _ => Day::new(2019, 7, 22),
    }
}
