ghost use Rattle.std.specs.Prelude.{◌≡◌, ◌≤◌, length, option_copied, true, IfOk, IfSome};
ghost use Rattle.desk_text.specs.Day.{is_askable};
ghost use Rattle.desk_history.specs.Sound.{Sound};
ghost use Rattle.desk_model.specs.declared.limits.TheConstants.{CONTENT_LIMIT};
ghost use Rattle.desk_model.specs.declared.rows.material.MaterialRow.{MaterialRow};
ghost use Rattle.desk_model.specs.Lists.{material_row};
ghost use Rattle.desk_findings.specs.Share.{share};
ghost use Rattle.desk_findings.specs.Verdicts.{terms_of, verdict_on};
ghost use Rattle.desk_scratch.specs.Assessment.{facts_of};
ghost use Rattle.desk_scratch.specs.Holdings.{holdings_of};

use crate::facts::Facts;
use crate::holdings::{Holdings, share_of};
use desk_law::{KindOnDay, Rule, Terms, Verdict, judge};
use desk_model::{MaterialRow, SubstanceMass};
use desk_tables::Tables;
use desk_text::{Code, OutOfMemory};
use std::alloc::Global;
use std::marker::Model;

/// What materials are judged by: sound tables, the terms of their exemption rows, the kind of equipment and the day.
#[derive(Drop)]
pub(crate) struct Assessment<'a> {
    tables: &'a Tables,
    terms: &'a [Terms],
    asked: KindOnDay,
}

impl<'a> Model for Assessment<'a> {
    ghost use Rattle.std.specs.Prelude.{◌≡◌, true};
    ghost use Rattle.desk_text.specs.Day.{is_askable};
    ghost use Rattle.desk_history.specs.Sound.{Sound};
    ghost use Rattle.desk_findings.specs.Verdicts.{terms_of};
    ghost use Rattle.desk_scratch.specs.Assessment.{Assessed};

    ghost Value = { Assessed };

    ghost view = { λ a. record { lists = a.tables.now.lists; kind = a.asked.kind; day = a.asked.day } };

    ghost invariant = { λ a. Sound a.tables.now.lists × (a.terms.now ≡ terms_of a.tables.now.lists) × (is_askable a.asked.day ≡ true) };
}

impl<'a> Assessment<'a> {
    /// By these tables, whose exemption rows have these terms.
    pub(crate) fn new(tables: &'a Tables, terms: &'a [Terms], asked: KindOnDay) -> Assessment<'a>
        requires sound { Sound tables.now.lists }
        requires terms { terms.now ≡ terms_of tables.now.lists }
        requires askable { is_askable asked.day ≡ true }
        ensures { result ≡ record { lists = tables.now.lists; kind = asked.kind; day = asked.day } }
    {
        Assessment {
            tables,
            terms,
            asked,
        }
    }

    /// The terms of the exemption rows, in order of the rows' codes.
    pub(crate) fn terms(&self) -> &'a [Terms]
        ensures { result.now ≡ terms_of self.now.lists }
    {
        self.terms
    }

    /// What a material of these substances holds. It takes a binary search for each.
    pub(crate) fn holdings(
        &self,
        alloc: Global,
        substances: &[SubstanceMass],
    ) -> Result<Holdings<'a>, OutOfMemory>
        requires { length substances.now ≤ CONTENT_LIMIT }
        ensures { IfOk result (λ holdings. holdings ≡ holdings_of self.now.lists substances.now) }
    {
        Holdings::new(alloc, self.tables, substances)
    }

    /// The material of this code. It takes a binary search.
    pub(crate) fn material(&self, code: &Code) -> Option<&'a MaterialRow>
        ensures row { option_copied result ≡ material_row self.now.lists code.now }
        ensures few { IfSome result (λ row. length row.now.substances ≤ CONTENT_LIMIT) }
    {
        self.tables.material(code)
    }

    /// The rule's share in a material, in millionths of a microgram. It takes a binary search for each of its substances.
    pub(crate) fn share(&self, rule: Rule, material: &MaterialRow) -> u128
        requires { length material.now.substances ≤ CONTENT_LIMIT }
        ensures { result ≡ share self.now.lists rule material.now }
    {
        share_of(self.tables, rule, material.substances.as_slice())
    }

    /// The verdict on a material for the rule, whose share in it is given. It looks at each exemption row where the
    /// share is over the limit.
    #[tactic(auto, unfolding(desk_findings::specs::Verdicts::verdict_on))]
    pub(crate) fn verdict(&self, rule: Rule, its_share: u128, facts: &Facts<'_>) -> Verdict
        ensures { (material : MaterialRow) → facts.now ≡ facts_of material → its_share ≡ share self.now.lists rule material
            → result ≡ verdict_on self.now.lists self.now.kind self.now.day material rule }
    {
        judge(
            its_share,
            facts.mass,
            facts.claims,
            rule,
            self.asked.kind,
            self.asked.day,
            self.terms,
        )
    }
}

/// The terms of the exemption rows, in order of the rows' codes. They are as many as the rows.
pub(crate) fn terms_of(alloc: Global, tables: &Tables) -> Result<Vec<Terms>, OutOfMemory>
    ensures { IfOk result (λ terms. terms.items ≡ terms_of tables.now.lists) }
{
    let rows = tables.exemptions();
    let mut terms = Vec::with_capacity(alloc, rows.len())?;
    for row in rows {
        terms.push_reserved(row.terms);
    }
    Ok(terms)
}
