ghost use Rattle.std.specs.Prelude.{◌≡◌, ◌≤◌, ◌++◌, ◌∷◌, ◌&&◌, [], length, map, true, if◌then◌else◌, IfOk, OnOk};
ghost use Rattle.std.specs.List.{flat_map, list_any};
ghost use Rattle.desk_history.specs.Sound.{Sound};
ghost use Rattle.desk_model.specs.declared.limits.TheConstants.{CONTENT_LIMIT};
ghost use Rattle.desk_model.specs.Lists.{is_part};
ghost use Rattle.desk_findings.specs.Above.{is_above, is_candidate};
ghost use Rattle.desk_findings.specs.Articles.{articles_in, is_article_sort, materials_in};
ghost use Rattle.desk_findings.specs.Findings.{findings, findings_of_article, findings_on};
ghost use Rattle.desk_law.specs.Limit.{is_over, limit_of};
ghost use Rattle.desk_findings.specs.Reaches.{lines_of};
ghost use Rattle.desk_scratch.specs.LookUps.{finding_above, finding_of, finding_over, holds_candidate};

use crate::bill::Bill;
use crate::finding::Finding;
use crate::holdings::Holdings;
use desk_law::{Rule, limit_ppm, over};
use desk_model::{CandidateRow, LineRow, MaterialRow, PartRow, PartSort, SubstanceMass};
use desk_rows::run_of;
use desk_tables::Tables;
use desk_text::{Code, OutOfMemory};
use std::alloc::Global;

impl<'a> Bill<'a> {
    /// The findings of a part: those on materials in order of material and then of rule, and behind them those on articles, in order
    /// of article and then of substance.
    ///
    /// It takes a few passes over nodes and lines for each 64 nodes, for each reached material and substance a binary search,
    /// and for each article that the part holds, or is, and each candidate a binary search for each line of the article.
    #[tactic(auto, unfolding(desk_findings::specs::Findings::findings))]
    pub(crate) fn findings(&self, alloc: Global, part: &Code) -> Result<Vec<Finding>, OutOfMemory>
        requires { is_part self.now part.now ≡ true }
        ensures { IfOk result (λ list. map finding_of list.items ≡ findings self.now part.now) }
    {
        let mut list = Vec::new(alloc);
        self.push_on_materials(alloc, &mut list, part)?;
        self.push_on_articles(alloc, &mut list, part)?;
        Ok(list)
    }

    /// Appends the findings on the materials that the part reaches.
    fn push_on_materials(
        &self,
        alloc: Global,
        list: &mut Vec<Finding>,
        part: &Code,
    ) -> Result<(), OutOfMemory>
        requires { is_part self.now part.now ≡ true }
        ensures { OnOk result (map finding_of list.new.items ≡ map finding_of list.old.items
            ++ flat_map (findings_on self.now) (materials_in self.now part.now)) }
    {
        let reached = self.reached_materials(alloc, part)?;
        let mut place: usize = 0;
        for material in self.tables().materials() {
            self.push_if_reached(alloc, list, material, reached[place])?;
            place += 1;
        }
        Ok(())
    }

    /// Appends the findings on a material, where it is reached.
    fn push_if_reached(
        &self,
        alloc: Global,
        list: &mut Vec<Finding>,
        material: &MaterialRow,
        is_reached: bool,
    ) -> Result<(), OutOfMemory>
        requires { length material.now.substances ≤ CONTENT_LIMIT }
        ensures { OnOk result (map finding_of list.new.items ≡ map finding_of list.old.items
            ++ (if is_reached then findings_on self.now material.now else [])) }
    {
        if !is_reached {
            return Ok(());
        }
        self.push_overs(alloc, list, material)
    }

    /// Appends the findings on a material, in order of rule.
    fn push_overs(
        &self,
        alloc: Global,
        list: &mut Vec<Finding>,
        material: &MaterialRow,
    ) -> Result<(), OutOfMemory>
        requires { length material.now.substances ≤ CONTENT_LIMIT }
        ensures { OnOk result (map finding_of list.new.items ≡ map finding_of list.old.items ++ findings_on self.now material.now) }
    {
        let holdings = Holdings::new(alloc, self.tables(), material.substances.as_slice())?;
        for rule in Rule::RESTRICTING {
            let share = holdings.share(rule);
            push_if_over(list, &material.code, material.mass, rule, share)?;
        }
        Ok(())
    }

    /// Appends the findings on the articles that the part holds, or is.
    fn push_on_articles(
        &self,
        alloc: Global,
        list: &mut Vec<Finding>,
        part: &Code,
    ) -> Result<(), OutOfMemory>
        requires { is_part self.now part.now ≡ true }
        ensures { OnOk result (map finding_of list.new.items ≡ map finding_of list.old.items
            ++ flat_map (findings_of_article self.now) (articles_in self.now part.now)) }
    {
        let reached = self.reached_parts(alloc, part)?;
        let mut place: usize = 0;
        for other in self.tables().parts() {
            self.push_if_held(list, other, reached[place])?;
            place += 1;
        }
        Ok(())
    }

    /// Appends the findings on a part, where it is an article and held.
    fn push_if_held(
        &self,
        list: &mut Vec<Finding>,
        part: &PartRow,
        is_held: bool,
    ) -> Result<(), OutOfMemory>
        requires { is_part self.now part.now.code ≡ true }
        ensures { OnOk result (map finding_of list.new.items ≡ map finding_of list.old.items
            ++ (if is_article_sort part.now.sort && is_held then findings_of_article self.now part.now else [])) }
    {
        if part.sort == PartSort::Assembly {
            return Ok(());
        }
        if !is_held {
            return Ok(());
        }
        // Most articles hold no candidate at all, and that is told sooner than which of them is above.
        if !leads_to_candidate(self.tables(), &part.code) {
            return Ok(());
        }
        self.push_aboves(list, part)
    }

    /// Appends the findings on an article, in order of substance.
    fn push_aboves(&self, list: &mut Vec<Finding>, article: &PartRow) -> Result<(), OutOfMemory>
        requires { is_part self.now article.now.code ≡ true }
        ensures { OnOk result (map finding_of list.new.items ≡ map finding_of list.old.items ++ findings_of_article self.now article.now) }
    {
        for candidate in self.tables().candidates() {
            self.push_if_above(list, &article.code, candidate)?;
        }
        Ok(())
    }

    /// Appends the finding on a candidate in an article, where it is above.
    fn push_if_above(
        &self,
        list: &mut Vec<Finding>,
        article: &Code,
        candidate: &CandidateRow,
    ) -> Result<(), OutOfMemory>
        requires { is_part self.now article.now ≡ true }
        ensures { OnOk result (map finding_of list.new.items ≡ map finding_of list.old.items
            ++ (if is_above self.now article.now candidate.now.substance then finding_above article.now candidate.now.substance ∷ [] else [])) }
    {
        if !self.is_above(article, &candidate.substance) {
            return Ok(());
        }
        list.push(Finding::Above {
            article: *article,
            substance: candidate.substance,
        })?;
        Ok(())
    }
}

/// Appends the finding on a rule of this share in a material of this mass, where the material is over its limit.
fn push_if_over(
    list: &mut Vec<Finding>,
    material: &Code,
    mass: u64,
    rule: Rule,
    share: u128,
) -> Result<(), OutOfMemory>
    ensures { OnOk result (map finding_of list.new.items ≡ map finding_of list.old.items
        ++ (if is_over share mass (limit_of rule) then finding_over material.now rule ∷ [] else [])) }
{
    if !over(share, mass, limit_ppm(rule)) {
        return Ok(());
    }
    list.push(Finding::Over {
        material: *material,
        rule,
    })?;
    Ok(())
}

/// Whether a line of the part leads to a material that holds a candidate. It takes a binary search for each line and for each
/// substance of its material.
fn leads_to_candidate(tables: &Tables, part: &Code) -> bool
    requires { Sound tables.now.lists }
    ensures { result ≡ list_any (λ line. holds_candidate tables.now.lists line.child) (lines_of tables.now.lists.lines part.now) }
{
    is_candidate_below(tables, run_of(tables.lines(), part))
}

/// Whether one of these lines leads to a material that holds a candidate.
fn is_candidate_below(tables: &Tables, lines: &[LineRow]) -> bool
    ensures { result ≡ list_any (λ line. holds_candidate tables.now.lists line.child) lines.now }
{
    let mut found = false;
    for line in lines {
        found = found | holds_candidate(tables, &line.child);
    }
    found
}

/// Whether the code is that of a material that holds a candidate.
#[tactic(auto, unfolding(crate::specs::LookUps::holds_candidate))]
fn holds_candidate(tables: &Tables, code: &Code) -> bool
    ensures { result ≡ holds_candidate tables.now.lists code.now }
{
    match tables.material(code) {
        Some(material) => is_candidate_among(tables, material.substances.as_slice()),
        None => false,
    }
}

/// Whether one of the substances that are held is a candidate.
fn is_candidate_among(tables: &Tables, held: &[SubstanceMass]) -> bool
    ensures { result ≡ list_any (λ one. is_candidate tables.now.lists one.substance) held.now }
{
    let mut found = false;
    for one in held {
        found = found | tables.candidate(&one.substance).is_some();
    }
    found
}
