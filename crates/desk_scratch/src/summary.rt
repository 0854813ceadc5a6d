ghost use Rattle.std.specs.Prelude.{◌≡◌, ◌++◌, ◌≤◌, ◌==◌, codes, count_by, decimal, length, true};
ghost use Rattle.std.specs.Prelude.{string_bytes, IfOk, OnOk};
ghost use Rattle.std.specs.List.{flat_map};
ghost use Rattle.desk_text.specs.Day.{is_askable};
ghost use Rattle.desk_model.specs.declared.limits.TheConstants.{CONTENT_LIMIT};
ghost use Rattle.desk_model.specs.Lists.{is_part};
ghost use Rattle.desk_findings.specs.Verdicts.{terms_of};
ghost use Rattle.desk_law.specs.Kind.{kind_code};
ghost use Rattle.desk_scratch.specs.Judgement.{is_breached};
ghost use Rattle.desk_scratch.specs.LookUps.{finding_of, is_finding_breached, is_finding_due};
ghost use Rattle.desk_scratch.specs.SharedLines.{compliance_word};
ghost use Rattle.desk_scratch.specs.Summary.{asked_day_line, count_line, count_lines, standing_line, summary_text};

use crate::answer_source::AnswerSource;
use crate::assessment::{Assessment, terms_of};
use crate::blank_text::BlankText;
use crate::facts::Facts;
use crate::finding::Finding;
use crate::material_block::is_breach;
use crate::reach33::is_due;
use crate::shared_lines::push_version_line;
use desk_graph::Steps;
use desk_law::{KindOnDay, Rule, Terms};
use desk_model::{MaterialRow, ProductRow};
use desk_tables::Tables;
use desk_text::{Bytes, Day, OutOfMemory};
use std::alloc::{AllocError, Global};
use std::fmt::Write;
use std::sync::ledger::Ledger;

/// The answer on the whole desk: how much is kept, and how each product stands on a day, which is askable.
///
/// It takes the findings of each product, for each of them on a material a binary search for each substance and one more, and
/// for each on an article one. The text has a line for each product, and eleven more.
pub(crate) fn summary_text<S: AnswerSource, L: Ledger>(
    alloc: Global,
    source: &S,
    day: Day,
    steps: &mut Steps<L>,
    blank: BlankText,
) -> Result<Bytes, OutOfMemory>
    requires { is_askable day ≡ true }
    ensures { IfOk result (λ text. text ≡ summary_text (S.lists source.now) day) }
{
    let tables = source.tables();
    let terms = terms_of(alloc, tables)?;
    let mut text = blank.into_string();
    push_version_line(&mut text, tables)?;
    push_asked_day_line(&mut text, day)?;
    push_count_lines(&mut text, tables)?;
    push_standings(alloc, &mut text, source, terms.as_slice(), day, steps)?;
    Ok(Bytes::from(text.into_bytes()))
}

/// Appends what was asked.
#[tactic(auto, unfolding(crate::specs::Summary::asked_day_line))]
fn push_asked_day_line(out: &mut String, day: Day) -> Result<(), AllocError>
    ensures { OnOk result (string_bytes out.new ≡ string_bytes out.old ++ asked_day_line day) }
{
    writeln!(out, "day {day}")
}

/// Appends how many rows each table has, but for the tickets.
fn push_count_lines(out: &mut String, tables: &Tables) -> Result<(), AllocError>
    ensures { OnOk result (string_bytes out.new ≡ string_bytes out.old ++ count_lines tables.now.lists) }
{
    push_count_line(out, "substances", tables.substances().len())?;
    push_count_line(out, "members", tables.members().len())?;
    push_count_line(out, "materials", tables.materials().len())?;
    push_count_line(out, "parts", tables.parts().len())?;
    push_count_line(out, "lines", tables.lines().len())?;
    push_count_line(out, "products", tables.products().len())?;
    push_count_line(out, "exemptions", tables.exemptions().len())?;
    push_count_line(out, "candidates", tables.candidates().len())?;
    push_count_line(out, "shipments", tables.shipments().len())?;
    Ok(())
}

/// Appends how many rows a table has.
#[tactic(auto, unfolding(crate::specs::Summary::count_line))]
fn push_count_line(out: &mut String, table: &str, count: usize) -> Result<(), AllocError>
    ensures { OnOk result (string_bytes out.new ≡ string_bytes out.old ++ count_line table.now count) }
{
    writeln!(out, "{table} {count}")
}

/// Appends how each product stands, in order of code.
fn push_standings<S: AnswerSource, L: Ledger>(
    alloc: Global,
    out: &mut String,
    source: &S,
    terms: &[Terms],
    day: Day,
    steps: &mut Steps<L>,
) -> Result<(), OutOfMemory>
    requires terms { terms.now ≡ terms_of (S.lists source.now) }
    requires askable { is_askable day ≡ true }
    ensures { OnOk result (string_bytes out.new ≡ string_bytes out.old
        ++ flat_map (standing_line (S.lists source.now) day) (S.lists source.now).products) }
{
    for product in source.tables().products() {
        push_standing(alloc, out, source, terms, day, product, steps)?;
    }
    Ok(())
}

/// Appends how a product stands.
fn push_standing<S: AnswerSource, L: Ledger>(
    alloc: Global,
    out: &mut String,
    source: &S,
    terms: &[Terms],
    day: Day,
    product: &ProductRow,
    steps: &mut Steps<L>,
) -> Result<(), OutOfMemory>
    requires terms { terms.now ≡ terms_of (S.lists source.now) }
    requires askable { is_askable day ≡ true }
    requires kept { is_part (S.lists source.now) product.now.part ≡ true }
    ensures { OnOk result (string_bytes out.new ≡ string_bytes out.old ++ standing_line (S.lists source.now) day product.now) }
{
    let asked = KindOnDay {
        kind: product.kind,
        day,
    };
    let tables = source.tables();
    let by = Assessment::new(tables, terms, asked);
    let list = source.findings(alloc, &product.part, steps)?;
    let findings = list.as_slice();
    let breaches = breach_count(&by, findings);
    push_standing_line(out, product, breaches, duty_count(tables, findings, day))?;
    Ok(())
}

/// Appends the line on a product with so many breaches and duties.
fn push_standing_line(
    out: &mut String,
    product: &ProductRow,
    breaches: usize,
    duties: usize,
) -> Result<(), AllocError>
    ensures { OnOk result (string_bytes out.new ≡ string_bytes out.old
        ++ (codes "product " ++ product.now.part ++ codes " kind " ++ kind_code product.now.kind ++ codes " " ++ compliance_word (breaches == 0)
        ++ codes " breaches " ++ decimal breaches ++ codes " duties " ++ decimal duties ++ codes "\n")) }
{
    push_product_words(out, product, compliance_word(breaches == 0))?;
    push_numbers(out, breaches, duties)?;
    Ok(())
}

/// Appends the words on what the product is, and the one on how it stands.
fn push_product_words(out: &mut String, product: &ProductRow, word: &str) -> Result<(), AllocError>
    ensures { OnOk result (string_bytes out.new ≡ string_bytes out.old
        ++ (codes "product " ++ product.now.part ++ codes " kind " ++ kind_code product.now.kind ++ codes " " ++ word.now)) }
{
    let (part, kind) = (product.part, product.kind);
    write!(out, "product {part} kind {kind} {word}")
}

/// Appends how many breaches and duties there are, and the end of the line.
fn push_numbers(out: &mut String, breaches: usize, duties: usize) -> Result<(), AllocError>
    ensures { OnOk result (string_bytes out.new ≡ string_bytes out.old
        ++ (codes " breaches " ++ decimal breaches ++ codes " duties " ++ decimal duties ++ codes "\n")) }
{
    writeln!(out, " breaches {breaches} duties {duties}")
}

/// The word for whether nothing is breached.
fn compliance_word(is_compliant: bool) -> &'static str
    ensures { result.now ≡ compliance_word is_compliant }
{
    if is_compliant {
        "compliant"
    } else {
        "not-compliant"
    }
}

/// How many of these findings are breaches.
fn breach_count(by: &Assessment<'_>, findings: &[Finding]) -> usize
    ensures { result ≡ count_by (λ finding. is_finding_breached by.now.lists by.now.kind by.now.day (finding_of finding)) findings.now }
{
    let mut count: usize = 0;
    for finding in findings {
        count += usize::from(is_breached(by, finding));
    }
    count
}

/// Whether the finding is on a material that breaches the rule.
#[tactic(auto, unfolding(crate::specs::LookUps::is_finding_breached))]
fn is_breached(by: &Assessment<'_>, finding: &Finding) -> bool
    ensures { result ≡ is_finding_breached by.now.lists by.now.kind by.now.day (finding_of finding.now) }
{
    match *finding {
        Finding::Over { material, rule } => match by.material(&material) {
            Some(row) => breaches(by, row, rule),
            // A finding on a material is on a kept one.
            None => false,
        },
        Finding::Above { .. } => false,
    }
}

/// Whether a material breaches the rule.
fn breaches(by: &Assessment<'_>, material: &MaterialRow, rule: Rule) -> bool
    requires { length material.now.substances ≤ CONTENT_LIMIT }
    ensures { result ≡ is_breached by.now.lists by.now.kind by.now.day material.now rule }
{
    let share = by.share(rule, material);
    is_breach(by.verdict(rule, share, &Facts::from(material)))
}

/// Of how many of these findings one has to inform on the day.
fn duty_count(tables: &Tables, findings: &[Finding], day: Day) -> usize
    ensures { result ≡ count_by (λ finding. is_finding_due tables.now.lists day (finding_of finding)) findings.now }
{
    let mut count: usize = 0;
    for finding in findings {
        count += usize::from(is_due(tables, finding, day));
    }
    count
}
