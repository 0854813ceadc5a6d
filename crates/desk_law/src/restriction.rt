ghost use Rattle.std.specs.Prelude.{◌≡◌};
ghost use Rattle.desk_law.specs.InForce.{in_force_from};
ghost use Rattle.desk_law.specs.Restriction.{restriction_of};

use crate::first_days::first_day;
use crate::{Kind, Rule, limit_ppm};
use desk_text::Day;

/// What the law asks of equipment of a kind by a rule: no homogeneous material over a limit, from a first day on.
#[derive(Clone, Copy, Debug, PartialEq, Eq)]
pub struct Restriction {
    /// The rule.
    pub rule: Rule,
    /// The kind of equipment.
    pub kind: Kind,
    /// The maximum concentration in a homogeneous material, in ppm by weight.
    pub ppm: u32,
    /// The first day on which the rule is in force for the kind, `None` where it never is.
    pub first: Option<Day>,
}

impl Restriction {
    /// What Annex II to Directive 2011/65/EU and the first days of its Article 4(3) ask by the rule of
    /// equipment of the kind. What was in force before 22 July 2014 is given that day, since a
    /// question may be asked from then on.
    #[tactic(auto, unfolding(crate::specs::Restriction::restriction_of))]
    pub fn of(rule: Rule, kind: Kind) -> Restriction
        ensures { result ≡ restriction_of rule kind }
    {
        Restriction {
            rule,
            kind,
            ppm: limit_ppm(rule),
            first: first_day(rule, kind),
        }
    }

    /// Whether the first day has come on the day, so that the rule is in force then.
    pub fn in_force(&self, day: Day) -> bool
        ensures { result ≡ in_force_from self.now.first day }
    {
        match self.first {
            Some(first) => first <= day,
            None => false,
        }
    }
}
