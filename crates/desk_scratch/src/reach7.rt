ghost use Rattle.std.specs.Prelude.{◌≡◌, ◌++◌, ◌&&◌, ℕ, [], length, map, nat_lt, string_bytes, if◌then◌else◌, IfOk, OnOk};
ghost use Rattle.std.specs.List.{flat_map};
ghost use Rattle.desk_text.specs.Day.{is_not_after};
ghost use Rattle.desk_model.specs.declared.limits.TheConstants.{TONNE};
ghost use Rattle.desk_model.specs.Lists.{Lists};
ghost use Rattle.desk_findings.specs.Tonnage.{due_day, first_due, notices, tonnage};
ghost use Rattle.desk_scratch.specs.Reach7.{asked_year_line, due_text, notice_count_line, notice_line, reach7_text};

use crate::answer_source::AnswerSource;
use crate::blank_text::BlankText;
use crate::shared_lines::push_version_line;
use desk_model::CandidateRow;
use desk_model::limits::TONNE;
use desk_tables::Tables;
use desk_text::{Bytes, Day, OutOfMemory};
use std::alloc::{AllocError, Global};
use std::fmt::Write;

/// The answer on notifications: the notices of the year on the day.
///
/// It takes the tonnages of the year. The text has at most a line for each candidate, and three more.
pub(crate) fn reach7_text<S: AnswerSource>(
    alloc: Global,
    source: &S,
    year: u16,
    day: Day,
    blank: BlankText,
) -> Result<Bytes, OutOfMemory>
    ensures { IfOk result (λ text. text ≡ reach7_text (S.lists source.now) year day) }
{
    let tables = source.tables();
    let sums = source.tonnages(alloc, year)?;
    let mut text = blank.into_string();
    push_version_line(&mut text, tables)?;
    push_asked_year_line(&mut text, year, day)?;
    let count = push_notices(&mut text, tables, sums.as_slice(), year, day)?;
    push_notice_count_line(&mut text, count)?;
    Ok(Bytes::from(text.into_bytes()))
}

/// Appends what was asked.
#[tactic(auto, unfolding(crate::specs::Reach7::asked_year_line))]
fn push_asked_year_line(out: &mut String, year: u16, day: Day) -> Result<(), AllocError>
    ensures { OnOk result (string_bytes out.new ≡ string_bytes out.old ++ asked_year_line year day) }
{
    writeln!(out, "year {year} day {day}")
}

/// Appends how many notices there are.
#[tactic(auto, unfolding(crate::specs::Reach7::notice_count_line))]
fn push_notice_count_line(out: &mut String, count: usize) -> Result<(), AllocError>
    ensures { OnOk result (string_bytes out.new ≡ string_bytes out.old ++ notice_count_line count) }
{
    writeln!(out, "notices {count}")
}

/// Appends a line for each notice of the year, in order of substance, by the tonnage of each candidate in the year. Tells
/// how many there are.
fn push_notices(
    out: &mut String,
    tables: &Tables,
    sums: &[u128],
    year: u16,
    day: Day,
) -> Result<usize, AllocError>
    requires { sums.now ≡ map (λ candidate. tonnage tables.now.lists year candidate.substance) tables.now.lists.candidates }
    ensures lines { OnOk result (string_bytes out.new ≡ string_bytes out.old
        ++ flat_map (notice_line tables.now.lists year) (notices tables.now.lists year day)) }
    ensures count { IfOk result (λ count. count ≡ length (notices tables.now.lists year day)) }
{
    let mut count: usize = 0;
    let mut place: usize = 0;
    for candidate in tables.candidates() {
        count += usize::from(push_if_due(out, day, candidate, sums[place])?);
        place += 1;
    }
    Ok(count)
}

/// Appends the line on a candidate of this tonnage in a year, where a notice is due of it. Tells whether one is.
fn push_if_due(
    out: &mut String,
    day: Day,
    candidate: &CandidateRow,
    sum: u128,
) -> Result<bool, AllocError>
    ensures line { OnOk result ((t : Lists) (year : ℕ) → sum ≡ tonnage t year candidate.now.substance
        → string_bytes out.new ≡ string_bytes out.old
        ++ (if is_not_after candidate.now.day day && nat_lt TONNE sum then notice_line t year candidate.now else [])) }
    ensures due { IfOk result (λ due. due ≡ (is_not_after candidate.now.day day && nat_lt TONNE sum)) }
{
    if !(candidate.day <= day) {
        return Ok(false);
    }
    if sum <= TONNE as u128 {
        return Ok(false);
    }
    push_notice_line(out, candidate, sum)?;
    Ok(true)
}

/// Appends the line on a notice.
#[tactic(auto, unfolding(crate::specs::Reach7::notice_line))]
fn push_notice_line(out: &mut String, candidate: &CandidateRow, sum: u128) -> Result<(), AllocError>
    ensures { OnOk result ((t : Lists) (year : ℕ) → sum ≡ tonnage t year candidate.now.substance
        → string_bytes out.new ≡ string_bytes out.old ++ notice_line t year candidate.now) }
{
    let (substance, day) = (candidate.substance, candidate.day);
    write!(out, "notice {substance} tonnage {sum} included {day} due ")?;
    push_due(out, due_day(day))?;
    out.push_str("\n")
}

/// The day on which a notice is due: six months after inclusion, or 2011-06-01 where that is later. None: past
/// 2099-12-31.
#[tactic(auto, unfolding(desk_findings::specs::Tonnage::due_day))]
fn due_day(included: Day) -> Option<Day>
    ensures { result ≡ due_day included }
{
    match included.six_months() {
        Some(due) => Some(later_of(due)),
        None => None,
    }
}

/// The day, or 2011-06-01 where that is later.
fn later_of(due: Day) -> Day
    ensures { result ≡ (if is_not_after due first_due then first_due else due) }
{
    let first = first_due();
    if due <= first { first } else { due }
}

/// The first day on which a notice can be due: Article 7(7).
fn first_due() -> Day
    ensures { result ≡ first_due }
{
    Day::new(2011, 6, 1)
}

/// Appends the day on which a notice is due, or `none`.
fn push_due(out: &mut String, due: Option<Day>) -> Result<(), AllocError>
    ensures { OnOk result (string_bytes out.new ≡ string_bytes out.old ++ due_text due) }
{
    match due {
        Some(day) => write!(out, "{day}"),
        None => out.push_str("none"),
    }
}
