ghost use Rattle.std.specs.Prelude.{◌≡◌, ◌++◌, [], codes, count_by, decimal, option_copied, true, string_bytes, if◌then◌else◌, IfOk, OnOk};
ghost use Rattle.std.specs.List.{AllByRecursion, flat_map};
ghost use Rattle.std.specs.Option.{option_map_or};
ghost use Rattle.desk_text.specs.Day.{Date, date_text};
ghost use Rattle.desk_model.specs.Lists.{is_part};
ghost use Rattle.desk_scratch.specs.LookUps.{IsFound, IsHeldAbove, duty_of, finding_of, is_finding_due};
ghost use Rattle.desk_scratch.specs.Reach33.{asked_part_line, duty_count_line, duty_line, duty_lines, reach33_text};
ghost use Rattle.desk_scratch.specs.SharedLines.{name_line};

use crate::answer_source::AnswerSource;
use crate::blank_text::BlankText;
use crate::finding::Finding;
use crate::shared_lines::{push_chain_line, push_version_line};
use desk_graph::Steps;
use desk_model::{CandidateRow, SubstanceRow};
use desk_tables::Tables;
use desk_text::{Bytes, Code, Day, OutOfMemory};
use std::alloc::{AllocError, Global};
use std::fmt::Write;
use std::sync::ledger::Ledger;

/// The answer on duties to inform: the part's duties on the day.
///
/// It takes the part's findings, for each of them on an article a binary search, and for each duty two more and its chain.
/// The text has three lines for each duty, and three more.
pub(crate) fn reach33_text<S: AnswerSource, L: Ledger>(
    alloc: Global,
    source: &S,
    part: &Code,
    day: Day,
    steps: &mut Steps<L>,
    blank: BlankText,
) -> Result<Bytes, OutOfMemory>
    requires { is_part (S.lists source.now) part.now ≡ true }
    ensures { IfOk result (λ text. text ≡ reach33_text (S.lists source.now) part.now day) }
{
    let list = source.findings(alloc, part, steps)?;
    let findings = list.as_slice();
    let mut text = blank.into_string();
    push_version_line(&mut text, source.tables())?;
    push_asked_part_line(&mut text, part, day)?;
    let count = push_duties(alloc, &mut text, source, part, findings, day, steps)?;
    push_duty_count_line(&mut text, count)?;
    Ok(Bytes::from(text.into_bytes()))
}

/// Appends what was asked.
#[tactic(auto, unfolding(crate::specs::Reach33::asked_part_line))]
fn push_asked_part_line(out: &mut String, part: &Code, day: Day) -> Result<(), AllocError>
    ensures { OnOk result (string_bytes out.new ≡ string_bytes out.old ++ asked_part_line part.now day) }
{
    writeln!(out, "part {part} day {day}")
}

/// Appends how many duties there are.
#[tactic(auto, unfolding(crate::specs::Reach33::duty_count_line))]
fn push_duty_count_line(out: &mut String, count: usize) -> Result<(), AllocError>
    ensures { OnOk result (string_bytes out.new ≡ string_bytes out.old ++ duty_count_line count) }
{
    writeln!(out, "duties {count}")
}

/// Appends the lines on each of these findings of the part of which one has to inform. Tells how many these are.
fn push_duties<S: AnswerSource, L: Ledger>(
    alloc: Global,
    out: &mut String,
    source: &S,
    part: &Code,
    findings: &[Finding],
    day: Day,
    steps: &mut Steps<L>,
) -> Result<usize, OutOfMemory>
    requires kept { is_part (S.lists source.now) part.now ≡ true }
    requires found { AllByRecursion (λ finding. IsFound (S.lists source.now) part.now (finding_of finding)) findings.now }
    ensures lines { OnOk result (string_bytes out.new ≡ string_bytes out.old
        ++ flat_map (λ finding. if is_finding_due (S.lists source.now) day (finding_of finding)
        then duty_lines (S.lists source.now) part.now (duty_of (finding_of finding)) else []) findings.now) }
    ensures count { IfOk result (λ count. count ≡ count_by (λ finding. is_finding_due (S.lists source.now) day (finding_of finding)) findings.now) }
{
    let mut count: usize = 0;
    for finding in findings {
        count += usize::from(push_if_due(alloc, out, source, part, finding, day, steps)?);
    }
    Ok(count)
}

/// Appends the lines on a finding of the part, where one has to inform of it. Tells whether one has.
#[tactic(auto, unfolding(crate::specs::LookUps::is_finding_due))]
fn push_if_due<S: AnswerSource, L: Ledger>(
    alloc: Global,
    out: &mut String,
    source: &S,
    part: &Code,
    finding: &Finding,
    day: Day,
    steps: &mut Steps<L>,
) -> Result<bool, OutOfMemory>
    requires kept { is_part (S.lists source.now) part.now ≡ true }
    requires found { IsFound (S.lists source.now) part.now (finding_of finding.now) }
    ensures lines { OnOk result (string_bytes out.new ≡ string_bytes out.old
        ++ (if is_finding_due (S.lists source.now) day (finding_of finding.now)
        then duty_lines (S.lists source.now) part.now (duty_of (finding_of finding.now)) else [])) }
    ensures due { IfOk result (λ due. due ≡ is_finding_due (S.lists source.now) day (finding_of finding.now)) }
{
    if !is_due(source.tables(), finding, day) {
        return Ok(false);
    }
    push_duty_lines(alloc, out, source, part, finding, steps)?;
    Ok(true)
}

/// Whether one has to inform of the finding on the day: it is on an article, and the candidate was included by then.
#[tactic(auto, unfolding(crate::specs::LookUps::is_finding_due))]
pub(crate) fn is_due(tables: &Tables, finding: &Finding, day: Day) -> bool
    ensures { result ≡ is_finding_due tables.now.lists day (finding_of finding.now) }
{
    match *finding {
        Finding::Over { .. } => false,
        Finding::Above { substance, .. } => match tables.candidate(&substance) {
            Some(candidate) => candidate.day <= day,
            None => false,
        },
    }
}

/// Appends the three lines on a duty, where the finding is on an article.
fn push_duty_lines<S: AnswerSource, L: Ledger>(
    alloc: Global,
    out: &mut String,
    source: &S,
    part: &Code,
    finding: &Finding,
    steps: &mut Steps<L>,
) -> Result<(), OutOfMemory>
    requires kept { is_part (S.lists source.now) part.now ≡ true }
    requires found { IsFound (S.lists source.now) part.now (finding_of finding.now) }
    requires due { (day : Date) × (is_finding_due (S.lists source.now) day (finding_of finding.now) ≡ true) }
    ensures { OnOk result (string_bytes out.new ≡ string_bytes out.old ++ duty_lines (S.lists source.now) part.now (duty_of (finding_of finding.now))) }
{
    match *finding {
        Finding::Above { article, substance } => {
            push_duty_line(out, source, &article, &substance)?;
            push_substance_line(out, source.tables().substance(&substance))?;
            let chain = source.chain(alloc, part, finding, steps)?;
            push_chain_line(out, chain.as_slice())?;
            Ok(())
        }
        // No duty is on a material.
        Finding::Over { .. } => unreachable!(),
    }
}

/// Appends the line on what the article holds of the substance.
fn push_duty_line<S: AnswerSource>(
    out: &mut String,
    source: &S,
    article: &Code,
    substance: &Code,
) -> Result<(), AllocError>
    requires { IsHeldAbove (S.lists source.now) article.now substance.now }
    ensures { OnOk result (string_bytes out.new ≡ string_bytes out.old
        ++ duty_line (S.lists source.now) (record { article = article.now; substance = substance.now })) }
{
    push_duty_words(
        out,
        article,
        substance,
        source.content(article, substance),
        source.mass(article),
    )?;
    push_inclusion(out, source.tables().candidate(substance))?;
    out.push_str("\n")?;
    Ok(())
}

/// Appends the words on what an article of a mass holds of a substance.
fn push_duty_words(
    out: &mut String,
    article: &Code,
    substance: &Code,
    held: u128,
    mass: u128,
) -> Result<(), AllocError>
    ensures { OnOk result (string_bytes out.new ≡ string_bytes out.old
        ++ (codes "duty " ++ article.now ++ codes " " ++ substance.now
        ++ codes " mass " ++ decimal held ++ codes " of " ++ decimal mass ++ codes " included ")) }
{
    write!(
        out,
        "duty {article} {substance} mass {held} of {mass} included "
    )
}

/// Appends the day on which a candidate was included.
fn push_inclusion(out: &mut String, candidate: Option<&CandidateRow>) -> Result<(), AllocError>
    ensures { OnOk result (string_bytes out.new ≡ string_bytes out.old
        ++ option_map_or (λ row. date_text row.day) (option_copied candidate.entry) []) }
{
    match candidate {
        Some(candidate) => {
            let day = candidate.day;
            write!(out, "{day}")
        }
        // A substance of which there is a duty is a candidate.
        None => Ok(()),
    }
}

/// Appends the line with the name of a substance.
#[tactic(auto, unfolding(crate::specs::SharedLines::name_line))]
fn push_substance_line(out: &mut String, substance: Option<&SubstanceRow>) -> Result<(), AllocError>
    ensures { OnOk result (string_bytes out.new ≡ string_bytes out.old
        ++ name_line (option_map_or (λ row. row.name) (option_copied substance.entry) [])) }
{
    match substance {
        Some(substance) => {
            let name = &substance.name;
            writeln!(out, "name {name}")
        }
        // A candidate is a kept substance.
        None => out.push_str("name \n"),
    }
}
