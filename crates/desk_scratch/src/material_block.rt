ghost use Rattle.std.specs.Prelude.{◌≡◌, ◌++◌, ◌≤◌, codes, length, string_bytes, IfOk, OnOk};
ghost use Rattle.std.specs.List.{flat_map};
ghost use Rattle.desk_law.specs.Rule.{restricting_rules, rule_code};
ghost use Rattle.desk_model.specs.declared.limits.TheConstants.{CONTENT_LIMIT};
ghost use Rattle.desk_model.specs.declared.rows.material.MaterialRow.{MaterialRow};
ghost use Rattle.desk_scratch.specs.Assessment.{facts_of};
ghost use Rattle.desk_scratch.specs.Holdings.{holdings_of};
ghost use Rattle.desk_scratch.specs.Judgement.{has_breach, is_breach, is_breached};
ghost use Rattle.desk_scratch.specs.MaterialBlock.{material_block, material_line_with, rule_line, rule_line_with, verdict_words};

use crate::assessment::Assessment;
use crate::facts::Facts;
use crate::holdings::Holdings;
use crate::shared_lines::push_number;
use crate::verdict_words::VerdictWords;
use desk_law::{Rule, Verdict, limit_ppm};
use desk_text::OutOfMemory;
use std::alloc::{AllocError, Global};
use std::fmt::Write;

/// Appends the lines on a material: what was declared of it, and its verdict for each rule. Tells whether one of these
/// is a breach.
pub(crate) fn push_material_block(
    alloc: Global,
    out: &mut String,
    by: &Assessment<'_>,
    facts: &Facts<'_>,
) -> Result<bool, OutOfMemory>
    requires { length facts.now.substances ≤ CONTENT_LIMIT }
    ensures block { OnOk result ((material : MaterialRow) → facts.now ≡ facts_of material
        → string_bytes out.new ≡ string_bytes out.old ++ material_block by.now.lists by.now.kind by.now.day material) }
    ensures breach { IfOk result (λ breach. (material : MaterialRow) → facts.now ≡ facts_of material
        → breach ≡ has_breach by.now.lists by.now.kind by.now.day material) }
{
    let holdings = by.holdings(alloc, facts.substances)?;
    push_material_line(out, facts)?;
    push_rule_lines(out, by, facts, &holdings)
}

/// Appends the line on what was declared of a material.
#[tactic(auto, unfolding(crate::specs::MaterialBlock::material_line_with))]
fn push_material_line(out: &mut String, facts: &Facts<'_>) -> Result<(), AllocError>
    ensures { OnOk result (string_bytes out.new ≡ string_bytes out.old
        ++ material_line_with facts.now.code facts.now.supplier facts.now.number facts.now.mass) }
{
    let (code, supplier) = (facts.code, facts.supplier);
    let (number, mass) = (facts.number, facts.mass);
    writeln!(
        out,
        "material {code} supplier {supplier} declaration {number} mass {mass}"
    )
}

/// Appends a line for each rule, in order of number. Tells whether a verdict is a breach.
fn push_rule_lines(
    out: &mut String,
    by: &Assessment<'_>,
    facts: &Facts<'_>,
    holdings: &Holdings<'_>,
) -> Result<bool, OutOfMemory>
    requires { holdings.now ≡ holdings_of by.now.lists facts.now.substances }
    ensures lines { OnOk result ((material : MaterialRow) → facts.now ≡ facts_of material
        → string_bytes out.new ≡ string_bytes out.old ++ flat_map (rule_line by.now.lists by.now.kind by.now.day material) restricting_rules) }
    ensures breach { IfOk result (λ breach. (material : MaterialRow) → facts.now ≡ facts_of material
        → breach ≡ has_breach by.now.lists by.now.kind by.now.day material) }
{
    let mut breach = false;
    for rule in Rule::RESTRICTING {
        breach = breach | push_rule_line(out, by, facts, holdings, rule)?;
    }
    Ok(breach)
}

/// Appends the line on a rule. Tells whether the verdict is a breach.
fn push_rule_line(
    out: &mut String,
    by: &Assessment<'_>,
    facts: &Facts<'_>,
    holdings: &Holdings<'_>,
    rule: Rule,
) -> Result<bool, OutOfMemory>
    requires { holdings.now ≡ holdings_of by.now.lists facts.now.substances }
    ensures line { OnOk result ((material : MaterialRow) → facts.now ≡ facts_of material
        → string_bytes out.new ≡ string_bytes out.old ++ rule_line by.now.lists by.now.kind by.now.day material rule) }
    ensures breach { IfOk result (λ breach. (material : MaterialRow) → facts.now ≡ facts_of material
        → breach ≡ is_breached by.now.lists by.now.kind by.now.day material rule) }
{
    let share = holdings.share(rule);
    let limit = u128::from(limit_ppm(rule)) * u128::from(facts.mass);
    let verdict = by.verdict(rule, share, facts);
    let rows = by.terms();
    push_judged_line(out, rule, share, limit, VerdictWords { verdict, rows })?;
    Ok(is_breach(verdict))
}

/// Appends a rule's line of these parts.
#[tactic(auto, unfolding(crate::specs::MaterialBlock::rule_line_with))]
fn push_judged_line(
    out: &mut String,
    rule: Rule,
    share: u128,
    limit: u128,
    verdict: VerdictWords<'_>,
) -> Result<(), AllocError>
    ensures { OnOk result (string_bytes out.new ≡ string_bytes out.old
        ++ rule_line_with rule share limit (verdict_words verdict.entry.rows.now verdict.entry.verdict)) }
{
    // Piece by piece, for these lines are most of what an answer takes, and `writeln!` takes longer.
    out.push_str(line_start(rule))?;
    push_number(out, share)?;
    out.push_str(" limit ")?;
    push_number(out, limit)?;
    push_verdict(out, verdict)
}

/// What a rule's line begins with. It is one text, since to write its three pieces takes longer.
#[tactic(auto, unfolding(desk_law::specs::Rule::rule_code))]
fn line_start(rule: Rule) -> &'static str
    ensures { result.now ≡ codes "rule " ++ rule_code rule ++ codes " share " }
{
    match rule {
        Rule::Lead => "rule lead share ",
        Rule::Mercury => "rule mercury share ",
        Rule::Cadmium => "rule cadmium share ",
        Rule::ChromiumVi => "rule chromium-vi share ",
        Rule::Pbb => "rule pbb share ",
        Rule::Pbde => "rule pbde share ",
        Rule::Dehp => "rule dehp share ",
        Rule::Bbp => "rule bbp share ",
        Rule::Dbp => "rule dbp share ",
        Rule::Dibp => "rule dibp share ",
    }
}

/// Appends a verdict in words as the end of a line, with the space before it.
#[tactic(auto, unfolding(crate::specs::MaterialBlock::verdict_words))]
fn push_verdict(out: &mut String, verdict: VerdictWords<'_>) -> Result<(), AllocError>
    ensures { OnOk result (string_bytes out.new ≡ string_bytes out.old
        ++ codes " " ++ verdict_words verdict.entry.rows.now verdict.entry.verdict ++ codes "\n") }
{
    match verdict.verdict {
        Verdict::Within => out.push_str(" within\n"),
        Verdict::NotInForce => out.push_str(" not-in-force\n"),
        Verdict::Breach => out.push_str(" breach\n"),
        Verdict::Exempt { .. } => writeln!(out, " {verdict}"),
    }
}

/// Whether the verdict is a breach.
pub(crate) fn is_breach(verdict: Verdict) -> bool
    ensures { result ≡ is_breach verdict }
{
    matches!(verdict, Verdict::Breach)
}
