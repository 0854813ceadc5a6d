ghost use Rattle.std.specs.Prelude.{◌≡◌, IfOk, option_map};
ghost use Rattle.desk_rows.specs.Rows.{IsByKey, with_row, without_row};
ghost use Rattle.desk_model.specs.Lists.{IsOrdered, line_key, line_key_cmp};
ghost use Rattle.desk_findings.specs.Reaches.{lines_of};
ghost use Rattle.desk_tables.specs.Change.{with_change_made};
ghost use Rattle.desk_bridge.specs.TablesAfter.{changed_if};

use desk_model::LineRow;
use desk_rows::{place_of_key, place_of_row, run_of};
use desk_tables::{RowChange, Tables};
use desk_text::{Code, OutOfMemory};
use std::alloc::Global;

/// The lines of a part after the change, in order of child.
pub(crate) fn lines_of(
    alloc: Global,
    tables: &Tables,
    change: Option<&RowChange>,
    code: &Code,
) -> Result<Vec<LineRow>, OutOfMemory>
    ensures { IfOk result (λ lines. lines.items ≡ lines_of (changed_if tables.now.lists (option_map (λ change. change.now) change.entry)).lines code.now) }
{
    // The call does nothing but say that the rows stand in order.
    tables.in_order();
    match change {
        Some(change) => changed_lines(alloc, tables, change, code),
        None => kept_lines(alloc, tables.lines(), code),
    }
}

/// The lines of a part after the change.
#[tactic(auto, unfolding(desk_tables::specs::Change::with_change_made))]
fn changed_lines(
    alloc: Global,
    tables: &Tables,
    change: &RowChange,
    code: &Code,
) -> Result<Vec<LineRow>, OutOfMemory>
    requires { IsOrdered tables.now.lists }
    ensures { IfOk result (λ lines. lines.items ≡ lines_of (with_change_made tables.now.lists change.now).lines code.now) }
{
    match change {
        RowChange::PutLine { row, .. } => lines_with(alloc, tables.lines(), row, code),
        RowChange::DropLine { parent, child } => {
            lines_without(alloc, tables.lines(), parent, child, code)
        }
        _ => kept_lines(alloc, tables.lines(), code),
    }
}

/// The lines of a part among these.
fn kept_lines(alloc: Global, lines: &[LineRow], code: &Code) -> Result<Vec<LineRow>, OutOfMemory>
    requires { IsByKey line_key line_key_cmp lines.now }
    ensures { IfOk result (λ kept. kept.items ≡ lines_of lines.now code.now) }
{
    let run = lines_among(lines, code);
    Ok(run.to_vec(alloc)?)
}

/// The lines of a part among these. It takes a binary search.
fn lines_among<'a>(lines: &'a [LineRow], code: &Code) -> &'a [LineRow]
    requires { IsByKey line_key line_key_cmp lines.now }
    ensures { result.now ≡ lines_of lines.now code.now }
{
    run_of(lines, code)
}

/// The lines of a part once a line is put in.
fn lines_with(
    alloc: Global,
    lines: &[LineRow],
    new: &LineRow,
    code: &Code,
) -> Result<Vec<LineRow>, OutOfMemory>
    requires { IsByKey line_key line_key_cmp lines.now }
    ensures { IfOk result (λ kept. kept.items ≡ lines_of (with_row line_key line_key_cmp new.now lines.now) code.now) }
{
    if new.parent == *code {
        put_among(alloc, lines_among(lines, code), new)
    } else {
        kept_lines(alloc, lines, code)
    }
}

/// The lines of a part once a line is taken out.
fn lines_without(
    alloc: Global,
    lines: &[LineRow],
    parent: &Code,
    child: &Code,
    code: &Code,
) -> Result<Vec<LineRow>, OutOfMemory>
    requires { IsByKey line_key line_key_cmp lines.now }
    ensures { IfOk result (λ kept. kept.items ≡ lines_of (without_row line_key line_key_cmp (parent.now, child.now) lines.now) code.now) }
{
    if parent == code {
        drop_among(alloc, lines_among(lines, code), &(*parent, *child))
    } else {
        kept_lines(alloc, lines, code)
    }
}

/// A copy of the lines with one put in.
fn put_among(alloc: Global, lines: &[LineRow], new: &LineRow) -> Result<Vec<LineRow>, OutOfMemory>
    requires { IsByKey line_key line_key_cmp lines.now }
    ensures { IfOk result (λ kept. kept.items ≡ with_row line_key line_key_cmp new.now lines.now) }
{
    let mut kept = lines.to_vec(alloc)?;
    match place_of_row(lines, new) {
        Ok(place) => kept[place] = *new,
        Err(place) => kept.insert(place, *new)?,
    }
    Ok(kept)
}

/// A copy of the lines without the one of this key.
fn drop_among(
    alloc: Global,
    lines: &[LineRow],
    key: &(Code, Code),
) -> Result<Vec<LineRow>, OutOfMemory>
    requires { IsByKey line_key line_key_cmp lines.now }
    ensures { IfOk result (λ kept. kept.items ≡ without_row line_key line_key_cmp key.now lines.now) }
{
    let mut kept = lines.to_vec(alloc)?;
    if let Ok(place) = place_of_key(lines, key) {
        kept.remove(place);
    }
    Ok(kept)
}
