ghost use Rattle.std.specs.Prelude.{◌≡◌, ◌++◌, [], codes, decimal, true, option_copied, string_bytes, IfOk, OnOk};
ghost use Rattle.std.specs.List.{flat_map};
ghost use Rattle.std.specs.Option.{option_map_or};
ghost use Rattle.desk_history.specs.Sound.{Sound};
ghost use Rattle.desk_model.specs.EditText.{sort_word};
ghost use Rattle.desk_model.specs.Lists.{is_part};
ghost use Rattle.desk_findings.specs.Mass.{mass};
ghost use Rattle.desk_scratch.specs.LookUps.{load_line, loads_of};
ghost use Rattle.desk_scratch.specs.Part.{child_line, kind_line, part_text};

use crate::answer_source::AnswerSource;
use crate::blank_text::BlankText;
use crate::load::Load;
use crate::shared_lines::{push_name_line, push_version_line};
use crate::sub_bill::SubBill;
use desk_model::{LineRow, PartRow, ProductRow};
use desk_rows::run_of;
use desk_tables::Tables;
use desk_text::{Bytes, OutOfMemory};
use std::alloc::{AllocError, Global};
use std::fmt::Write;

/// The answer on a part: what is kept of it, what it weighs and what it carries.
///
/// It takes a few binary searches, and what the part carries. The text has a line for each of the part's lines and each
/// candidate that it carries, and at most four more.
pub(crate) fn part_text<S: AnswerSource>(
    alloc: Global,
    source: &S,
    part: &PartRow,
    blank: BlankText,
) -> Result<Bytes, OutOfMemory>
    requires { is_part (S.lists source.now) part.now.code ≡ true }
    ensures { IfOk result (λ text. text ≡ part_text (S.lists source.now) part.now) }
{
    let loads = source.loads(alloc, &part.code)?;
    let mass = source.mass(&part.code);
    text_of(source.tables(), part, mass, loads.as_slice(), blank)
}

/// The same answer, by the tables alone.
///
/// It takes what lies at and below the part once and, for each candidate, a few binary searches for each part and line
/// there, however large the bill is.
pub(crate) fn part_text_plain(
    alloc: Global,
    tables: &Tables,
    part: &PartRow,
    blank: BlankText,
) -> Result<Bytes, OutOfMemory>
    requires sound { Sound tables.now.lists }
    requires kept { is_part tables.now.lists part.now.code ≡ true }
    ensures { IfOk result (λ text. text ≡ part_text tables.now.lists part.now) }
{
    let sub_bill = SubBill::new(alloc, tables, &part.code)?;
    let loads = sub_bill.loads_of(alloc, &part.code)?;
    let mass = sub_bill.mass(alloc, &part.code)?;
    text_of(tables, part, mass, loads.as_slice(), blank)
}

/// The answer on a part of this mass that carries these loads.
fn text_of(
    tables: &Tables,
    part: &PartRow,
    its_mass: u128,
    loads: &[Load],
    blank: BlankText,
) -> Result<Bytes, OutOfMemory>
    requires sound { Sound tables.now.lists }
    requires mass { its_mass ≡ mass tables.now.lists part.now.code }
    requires loads { loads.now ≡ loads_of tables.now.lists part.now.code }
    ensures { IfOk result (λ text. text ≡ part_text tables.now.lists part.now) }
{
    let mut text = blank.into_string();
    push_version_line(&mut text, tables)?;
    push_part_line(&mut text, part, its_mass)?;
    push_name_line(&mut text, &part.name)?;
    push_kind_line(&mut text, tables.product(&part.code))?;
    push_child_lines(&mut text, run_of(tables.lines(), &part.code))?;
    push_carried_lines(&mut text, loads)?;
    Ok(Bytes::from(text.into_bytes()))
}

/// Appends the line on what the part is and weighs.
fn push_part_line(out: &mut String, part: &PartRow, mass: u128) -> Result<(), AllocError>
    ensures { OnOk result (string_bytes out.new ≡ string_bytes out.old
        ++ (codes "part " ++ part.now.code ++ codes " " ++ sort_word part.now.sort ++ codes " mass " ++ decimal mass ++ codes "\n")) }
{
    let (code, sort) = (part.code, part.sort);
    writeln!(out, "part {code} {sort} mass {mass}")
}

/// Appends the line on the kind of equipment of a product, if there is one.
#[tactic(auto, unfolding(crate::specs::Part::kind_line))]
fn push_kind_line(out: &mut String, product: Option<&ProductRow>) -> Result<(), AllocError>
    ensures { OnOk result (string_bytes out.new ≡ string_bytes out.old ++ option_map_or kind_line (option_copied product.entry) []) }
{
    match product {
        Some(product) => {
            let kind = product.kind;
            writeln!(out, "product kind {kind}")
        }
        None => Ok(()),
    }
}

/// Appends a line for each of these lines.
fn push_child_lines(out: &mut String, lines: &[LineRow]) -> Result<(), AllocError>
    ensures { OnOk result (string_bytes out.new ≡ string_bytes out.old ++ flat_map child_line lines.now) }
{
    for line in lines {
        push_child_line(out, line)?;
    }
    Ok(())
}

/// Appends the line on a child.
#[tactic(auto, unfolding(crate::specs::Part::child_line))]
fn push_child_line(out: &mut String, line: &LineRow) -> Result<(), AllocError>
    ensures { OnOk result (string_bytes out.new ≡ string_bytes out.old ++ child_line line.now) }
{
    let (child, count) = (line.child, line.count);
    writeln!(out, "line {child} {count}")
}

/// Appends a line for each of these loads.
fn push_carried_lines(out: &mut String, loads: &[Load]) -> Result<(), AllocError>
    ensures { OnOk result (string_bytes out.new ≡ string_bytes out.old ++ flat_map load_line loads.now) }
{
    for load in loads {
        push_carried_line(out, load)?;
    }
    Ok(())
}

/// Appends the line on what is carried of a substance.
#[tactic(auto, unfolding(crate::specs::LookUps::load_line))]
fn push_carried_line(out: &mut String, load: &Load) -> Result<(), AllocError>
    ensures { OnOk result (string_bytes out.new ≡ string_bytes out.old ++ load_line load.now) }
{
    let (substance, amount) = (load.substance, load.amount);
    writeln!(out, "carried {substance} {amount}")
}
