ghost use Rattle.std.specs.Prelude.{◌≡◌, ◌+◌, ◌++◌, ◌≤◌, [], codes, decimal, length, true, string_bytes, sum_by, if◌then◌else◌, IfOk, OnOk};
ghost use Rattle.std.specs.List.{AllByRecursion, flat_map, list_any};
ghost use Rattle.desk_text.specs.Day.{date_text, is_askable};
ghost use Rattle.desk_law.specs.Kind.{kind_code};
ghost use Rattle.desk_model.specs.declared.limits.TheConstants.{CONTENT_LIMIT};
ghost use Rattle.desk_model.specs.Lists.{is_part};
ghost use Rattle.desk_findings.specs.Chain.{chain};
ghost use Rattle.desk_findings.specs.Findings.{findings, is_in};
ghost use Rattle.desk_scratch.specs.Judgement.{is_breached};
ghost use Rattle.desk_scratch.specs.LookUps.{IsFound, finding_of, holder_of, is_finding_breached, lines_on};
ghost use Rattle.desk_scratch.specs.MaterialBlock.{judged_words_with, verdict_words};
ghost use Rattle.desk_scratch.specs.Rohs.{over_line, rohs_text};
ghost use Rattle.desk_scratch.specs.SharedLines.{chain_line};
ghost use Rattle.desk_scratch.specs.Steps.{chain_line_count, printed_lines, rohs_steps};

use crate::answer_source::AnswerSource;
use crate::assessment::{Assessment, terms_of};
use crate::blank_text::BlankText;
use crate::facts::Facts;
use crate::finding::Finding;
use crate::material_block::is_breach;
use crate::shared_lines::{push_chain_line, push_compliance_line, push_version_line};
use crate::verdict_words::VerdictWords;
use desk_graph::Steps;
use desk_law::{KindOnDay, Rule, limit_ppm};
use desk_model::{MaterialRow, ProductRow};
use desk_text::{Bytes, Code, OutOfMemory};
use std::alloc::{AllocError, Global};
use std::fmt::Write;
use std::sync::ledger::Ledger;

/// The answer on a product's compliance, for the kind and the day that are asked for: each reached material with each
/// rule whose limit it is over, and whether none of these is a breach.
///
/// It takes the product's findings, for each of them on a material a binary search for each substance and one more, and
/// for each breach its chain. The text has at most two lines for each finding, and three more.
pub(crate) fn rohs_text<S: AnswerSource, L: Ledger>(
    alloc: Global,
    source: &S,
    asked: &KindOnDay,
    product: &ProductRow,
    steps: &mut Steps<L>,
    blank: BlankText,
) -> Result<Bytes, OutOfMemory>
    requires askable { is_askable asked.now.day ≡ true }
    requires kept { is_part (S.lists source.now) product.now.part ≡ true }
    requires kind { asked.now.kind ≡ product.now.kind }
    ensures text { IfOk result (λ text. text ≡ rohs_text (S.lists source.now) product.now asked.now.day) }
    ensures steps { OnOk result (steps.new ≡ steps.old + rohs_steps (S.lists source.now) product.now asked.now.day) }
{
    let tables = source.tables();
    let terms = terms_of(alloc, tables)?;
    let by = Assessment::new(tables, terms.as_slice(), *asked);
    let list = source.findings(alloc, &product.part, steps)?;
    let findings = list.as_slice();
    let mass = source.mass(&product.part);
    let mut text = blank.into_string();
    push_version_line(&mut text, tables)?;
    push_asked_product_line(&mut text, asked, product, mass)?;
    let breach = push_findings(alloc, &mut text, &by, source, product, findings, steps)?;
    push_compliance_line(&mut text, !breach)?;
    Ok(Bytes::from(text.into_bytes()))
}

/// Appends what was asked, and what the product weighs.
fn push_asked_product_line(
    out: &mut String,
    asked: &KindOnDay,
    product: &ProductRow,
    mass: u128,
) -> Result<(), AllocError>
    ensures { OnOk result (string_bytes out.new ≡ string_bytes out.old
        ++ (codes "product " ++ product.now.part ++ codes " kind " ++ kind_code product.now.kind
        ++ codes " day " ++ date_text asked.now.day ++ codes " mass " ++ decimal mass ++ codes "\n")) }
{
    let (part, kind) = (product.part, product.kind);
    let day = asked.day;
    writeln!(out, "product {part} kind {kind} day {day} mass {mass}")
}

/// Appends the lines on each of these findings of the product. Tells whether some verdict is a breach.
fn push_findings<S: AnswerSource, L: Ledger>(
    alloc: Global,
    out: &mut String,
    by: &Assessment<'_>,
    source: &S,
    product: &ProductRow,
    findings: &[Finding],
    steps: &mut Steps<L>,
) -> Result<bool, OutOfMemory>
    requires lists { by.now.lists ≡ S.lists source.now }
    requires kind { by.now.kind ≡ product.now.kind }
    requires kept { is_part (S.lists source.now) product.now.part ≡ true }
    requires found { AllByRecursion (λ finding. IsFound (S.lists source.now) product.now.part (finding_of finding)) findings.now }
    ensures lines { OnOk result (string_bytes out.new ≡ string_bytes out.old
        ++ flat_map (λ finding. lines_on (S.lists source.now) product.now by.now.day (finding_of finding)) findings.now) }
    ensures breach { IfOk result (λ breach. breach
        ≡ list_any (λ finding. is_finding_breached (S.lists source.now) product.now.kind by.now.day (finding_of finding)) findings.now) }
    ensures steps { OnOk result (steps.new ≡ steps.old
        + sum_by (λ finding. printed_lines (S.lists source.now) product.now by.now.day (finding_of finding)) findings.now) }
{
    let mut breach = false;
    for finding in findings {
        breach = breach | push_finding(alloc, out, by, source, product, finding, steps)?;
    }
    Ok(breach)
}

/// Appends the lines on a finding of the product, where it is on a material. Tells whether its verdict is a breach.
#[tactic(auto, unfolding(crate::specs::LookUps::lines_on, crate::specs::LookUps::is_finding_breached, crate::specs::Steps::printed_lines))]
fn push_finding<S: AnswerSource, L: Ledger>(
    alloc: Global,
    out: &mut String,
    by: &Assessment<'_>,
    source: &S,
    product: &ProductRow,
    finding: &Finding,
    steps: &mut Steps<L>,
) -> Result<bool, OutOfMemory>
    requires lists { by.now.lists ≡ S.lists source.now }
    requires kind { by.now.kind ≡ product.now.kind }
    requires kept { is_part (S.lists source.now) product.now.part ≡ true }
    requires found { IsFound (S.lists source.now) product.now.part (finding_of finding.now) }
    ensures lines { OnOk result (string_bytes out.new ≡ string_bytes out.old
        ++ lines_on (S.lists source.now) product.now by.now.day (finding_of finding.now)) }
    ensures breach { IfOk result (λ breach. breach ≡ is_finding_breached (S.lists source.now) product.now.kind by.now.day (finding_of finding.now)) }
    ensures steps { OnOk result (steps.new ≡ steps.old + printed_lines (S.lists source.now) product.now by.now.day (finding_of finding.now)) }
{
    match *finding {
        Finding::Over { material, rule } => match by.material(&material) {
            Some(row) => {
                let breach = push_over(out, by, row, rule)?;
                push_chain_of(alloc, out, source, &product.part, finding, breach, steps)?;
                Ok(breach)
            }
            // A finding on a material is on a kept one.
            None => Ok(false),
        },
        Finding::Above { .. } => Ok(false),
    }
}

/// Appends the line on a rule whose limit a material is over. Tells whether the verdict is a breach.
#[tactic(auto, unfolding(crate::specs::Rohs::over_line))]
fn push_over(
    out: &mut String,
    by: &Assessment<'_>,
    material: &MaterialRow,
    rule: Rule,
) -> Result<bool, AllocError>
    requires { length material.now.substances ≤ CONTENT_LIMIT }
    ensures line { OnOk result (string_bytes out.new ≡ string_bytes out.old ++ over_line by.now.lists by.now.kind by.now.day material.now rule) }
    ensures breach { IfOk result (λ breach. breach ≡ is_breached by.now.lists by.now.kind by.now.day material.now rule) }
{
    let share = by.share(rule, material);
    let verdict = by.verdict(rule, share, &Facts::from(material));
    let limit = u128::from(limit_ppm(rule)) * u128::from(material.mass);
    let rows = by.terms();
    push_over_line(
        out,
        &material.code,
        rule,
        share,
        limit,
        VerdictWords { verdict, rows },
    )?;
    Ok(is_breach(verdict))
}

/// Appends the line on a rule whose limit a material is over.
fn push_over_line(
    out: &mut String,
    material: &Code,
    rule: Rule,
    share: u128,
    limit: u128,
    verdict: VerdictWords<'_>,
) -> Result<(), AllocError>
    ensures { OnOk result (string_bytes out.new ≡ string_bytes out.old
        ++ (codes "over " ++ material.now ++ codes " "
        ++ judged_words_with rule share limit (verdict_words verdict.entry.rows.now verdict.entry.verdict) ++ codes "\n")) }
{
    write!(out, "over {material} ")?;
    push_judged_words(out, rule, share, limit, verdict)
}

/// Appends the words on a rule of a material, and the end of the line.
fn push_judged_words(
    out: &mut String,
    rule: Rule,
    share: u128,
    limit: u128,
    verdict: VerdictWords<'_>,
) -> Result<(), AllocError>
    ensures { OnOk result (string_bytes out.new ≡ string_bytes out.old
        ++ (judged_words_with rule share limit (verdict_words verdict.entry.rows.now verdict.entry.verdict) ++ codes "\n")) }
{
    writeln!(out, "{rule} share {share} limit {limit} {verdict}")
}

/// Appends the chain that leads to a breach.
fn push_chain_of<S: AnswerSource, L: Ledger>(
    alloc: Global,
    out: &mut String,
    source: &S,
    part: &Code,
    finding: &Finding,
    is_breach: bool,
    steps: &mut Steps<L>,
) -> Result<(), OutOfMemory>
    requires kept { is_part (S.lists source.now) part.now ≡ true }
    requires found { is_in (finding_of finding.now) (findings (S.lists source.now) part.now) ≡ true }
    ensures line { OnOk result (string_bytes out.new ≡ string_bytes out.old
        ++ (if is_breach then chain_line (chain (S.lists source.now) part.now (holder_of (finding_of finding.now))) else [])) }
    ensures steps { OnOk result (steps.new ≡ steps.old
        + (if is_breach then chain_line_count (chain (S.lists source.now) part.now (holder_of (finding_of finding.now))) else 0)) }
{
    if !is_breach {
        return Ok(());
    }
    let chain = source.chain(alloc, part, finding, steps)?;
    push_chain_line(out, chain.as_slice())?;
    Ok(())
}
