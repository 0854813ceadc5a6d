ghost use Rattle.std.specs.Prelude.{◌≡◌, ◌<◌, ◌≤◌, ◌*◌, ◌^◌, ℕ, List, count_by, length, nat_lt, option_copied, sum_by};
ghost use Rattle.desk_rows.specs.Rows.{IsByKey, row_of};
ghost use Rattle.desk_model.specs.Lists.{IsOrdered, member_key, member_key_cmp};
ghost use Rattle.desk_model.specs.declared.limits.TheConstants.{CONTENT_LIMIT};
ghost use Rattle.desk_text.specs.Code.{code_cmp};
ghost use Rattle.desk_findings.specs.Above.{content, held_mass, is_above, is_candidate, mass_in};
ghost use Rattle.desk_findings.specs.Findings.{findings_of_article, rules_over};
ghost use Rattle.desk_findings.specs.Mass.{mass};
ghost use Rattle.desk_findings.specs.Share.{is_over_limit};

use crate::TableLists;
use desk_law::{Rule, limit_ppm, over};
use desk_model::{CandidateRow, LineRow, MaterialRow, PartRow, SubstanceMass};
use desk_rows::{Keyed, place_of_key, run_of};
use desk_text::Code;

/// What is found at a material or at an article by itself.
impl<'a> TableLists<'a> {
    /// How many rules' limits the material is over. It takes a binary search for each rule and substance of the material.
    pub(crate) fn rules_over_count(&self, material: &MaterialRow) -> usize
        requires ordered { IsByKey member_key member_key_cmp self.now.members }
        requires few { length material.now.substances ≤ CONTENT_LIMIT }
        ensures { result ≡ length (rules_over self.now material.now) }
    {
        self.over_among(material, &Rule::RESTRICTING)
    }

    /// Of how many of these rules the material is over the limit.
    fn over_among(&self, material: &MaterialRow, rules: &[Rule]) -> usize
        requires ordered { IsByKey member_key member_key_cmp self.now.members }
        requires few { length material.now.substances ≤ CONTENT_LIMIT }
        ensures { result ≡ count_by (λ rule. is_over_limit self.now rule material.now) rules.now }
    {
        let mut count: usize = 0;
        for rule in rules {
            count += usize::from(self.is_over_limit(material, *rule));
        }
        count
    }

    /// Whether the rule's share in the material is over the rule's limit.
    pub fn is_over_limit(&self, material: &MaterialRow, rule: Rule) -> bool
        requires ordered { IsByKey member_key member_key_cmp self.now.members }
        requires few { length material.now.substances ≤ CONTENT_LIMIT }
        ensures { result ≡ is_over_limit self.now rule material.now }
    {
        over(
            self.share_in(material, rule),
            material.mass,
            limit_ppm(rule),
        )
    }

    /// What an article holds of the substance, in micrograms: the sum over its lines of count times the mass of the substance in the
    /// material. It takes a binary search for each line.
    pub fn content(&self, article: &Code, substance: &Code) -> u128
        requires ordered { IsOrdered self.now }
        requires fits { content self.now article.now substance.now < 2 ^ 128 }
        ensures { result ≡ content self.now article.now substance.now }
    {
        self.content_of(run_of(self.lines(), article), substance)
    }

    /// The sum over these lines of count times the mass of the substance in the material, in micrograms.
    fn content_of(&self, lines: &[LineRow], substance: &Code) -> u128
        requires materials { IsByKey (λ row. row.code) code_cmp self.now.materials }
        requires fits { sum_by (λ line. line.count * mass_in self.now substance.now line.child) lines.now < 2 ^ 128 }
        ensures { result ≡ sum_by (λ line. line.count * mass_in self.now substance.now line.child) lines.now }
    {
        let mut sum = 0u128;
        for line in lines {
            sum += u128::from(line.count) * u128::from(self.mass_in(substance, &line.child));
        }
        sum
    }

    /// Whether the substance is more than one thousandth of the article's mass. It takes a binary search for each line of the article.
    fn is_more(&self, article: &Code, weight: u128, substance: &Code) -> bool
        requires ordered { IsOrdered self.now }
        requires fits { content self.now article.now substance.now < 2 ^ 128 }
        ensures { result ≡ nat_lt weight (1000 * content self.now article.now substance.now) }
    {
        is_over_thousandth(self.content(article, substance), weight)
    }

    /// Whether the substance is a candidate and more than one thousandth of the article's mass.
    #[tactic(auto, unfolding(desk_findings::specs::Above::is_above))]
    pub fn is_above(&self, article: &Code, weight: u128, substance: &Code) -> bool
        requires ordered { IsOrdered self.now }
        requires fits { content self.now article.now substance.now < 2 ^ 128 }
        requires weight { weight ≡ mass self.now article.now }
        ensures { result ≡ is_above self.now article.now substance.now }
    {
        self.is_candidate(substance) && self.is_more(article, weight, substance)
    }

    /// Whether the substance is on the candidate list. It takes a binary search.
    fn is_candidate(&self, substance: &Code) -> bool
        requires { IsByKey (λ row. row.substance) code_cmp self.now.candidates }
        ensures { result ≡ is_candidate self.now substance.now }
    {
        row_of(self.candidates(), substance).is_some()
    }

    /// How many candidates are above in the article, whose mass is given. It takes, for each of them, a binary search for each line of
    /// the article.
    pub(crate) fn above_count(&self, article: &PartRow, weight: u128) -> usize
        requires ordered { IsOrdered self.now }
        requires fits { (substance : List ℕ) → content self.now article.now.code substance < 2 ^ 128 }
        requires weight { weight ≡ mass self.now article.now.code }
        ensures { result ≡ length (findings_of_article self.now article.now) }
    {
        self.above_among(&article.code, weight, self.candidates())
    }

    /// How many of these candidates are above in the article, whose mass is given.
    fn above_among(&self, article: &Code, weight: u128, candidates: &[CandidateRow]) -> usize
        requires ordered { IsOrdered self.now }
        requires fits { (substance : List ℕ) → content self.now article.now substance < 2 ^ 128 }
        requires weight { weight ≡ mass self.now article.now }
        ensures { result ≡ count_by (λ candidate. is_above self.now article.now candidate.substance) candidates.now }
    {
        let mut count: usize = 0;
        for candidate in candidates {
            count += usize::from(self.is_above(article, weight, &candidate.substance));
        }
        count
    }

    /// The mass of the substance in the material of this code, 0 where it isn't kept. It takes a binary search.
    pub(crate) fn mass_in(&self, substance: &Code, code: &Code) -> u64
        requires { IsByKey (λ row. row.code) code_cmp self.now.materials }
        ensures { result ≡ mass_in self.now substance.now code.now }
    {
        match row_of(self.materials(), code) {
            Some(material) => held_mass(material.substances.as_slice(), substance),
            None => 0,
        }
    }
}

/// The mass of the substance among these, 0 where it isn't one of them.
fn held_mass(held: &[SubstanceMass], substance: &Code) -> u64
    ensures { result ≡ held_mass substance.now held.now }
{
    for one in held {
        if one.substance == *substance {
            return one.mass;
        }
    }
    0
}

/// Whether a mass is more than one thousandth of another.
fn is_over_thousandth(part: u128, whole: u128) -> bool
    ensures { result ≡ nat_lt whole (1000 * part) }
{
    match part.checked_mul(1000) {
        Some(times) => times > whole,
        // A thousand times the part is then 2^128 or more, and so more than any mass.
        None => true,
    }
}

/// The row of the key. It takes a binary search.
pub fn row_of<'a, R: Keyed>(rows: &'a [R], key: &R::Key) -> Option<&'a R>
    requires { IsByKey R.key R.Key.cmp rows.now }
    ensures { option_copied result ≡ row_of R.key R.Key.cmp key.now rows.now }
{
    match place_of_key(rows, key) {
        Ok(place) => Some(&rows[place]),
        Err(_) => None,
    }
}
