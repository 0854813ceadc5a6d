ghost use Rattle.std.specs.Prelude.{◌≡◌, ◌≤◌, OnOk};
ghost use Rattle.desk_sample.specs.Codes.{assembly_code};
ghost use Rattle.desk_sample.specs.Sample.{article, article_lines, assembly};
ghost use Rattle.desk_sample.specs.Ticketed.{HasGainedAll};

use crate::codes::numbered;
use crate::declared::name;
use crate::pushes::{push_line, push_part};
use desk_model::{Edit, PartSort};
use desk_text::{Code, OutOfMemory};
use std::alloc::Global;

/// The article of this number, with its lines.
pub(crate) fn push_article(
    alloc: Global,
    edits: &mut Vec<Edit>,
    n: u64,
    number: u64,
) -> Result<(), OutOfMemory>
    requires least { 1 ≤ number }
    requires greatest { number ≤ n }
    requires most { n ≤ 2000 }
    ensures { OnOk result (HasGainedAll (article n number) edits.old.items edits.new.items) }
{
    let code = numbered(b'A', number);
    push_part(
        alloc,
        edits,
        code,
        PartSort::Article,
        name(alloc, "Article")?,
    )?;
    push_line(alloc, edits, code, numbered(b'M', number), 1 + number % 3)?;
    if n >= 2 {
        push_line(alloc, edits, code, numbered(b'M', number % n + 1), 1)?;
    }
    Ok(())
}

/// The assembly of this number, with its lines: to the eight articles that are its own, as far as there are any, and to the assembly
/// of half its number.
pub(crate) fn push_assembly(
    alloc: Global,
    edits: &mut Vec<Edit>,
    n: u64,
    number: u64,
) -> Result<(), OutOfMemory>
    requires least { 1 ≤ number }
    requires greatest { number ≤ 250 }
    requires most { n ≤ 2000 }
    ensures { OnOk result (HasGainedAll (assembly n number) edits.old.items edits.new.items) }
{
    let code = numbered(b'B', number);
    push_part(
        alloc,
        edits,
        code,
        PartSort::Assembly,
        name(alloc, "Assembly")?,
    )?;
    push_lines(alloc, edits, code, n, number)?;
    if number >= 2 {
        push_line(alloc, edits, code, numbered(b'B', number / 2), 2)?;
    }
    Ok(())
}

/// The lines of the assembly of this number to its articles.
fn push_lines(
    alloc: Global,
    edits: &mut Vec<Edit>,
    code: Code,
    n: u64,
    number: u64,
) -> Result<(), OutOfMemory>
    requires least { 1 ≤ number }
    requires greatest { number ≤ 250 }
    requires code { code ≡ assembly_code number }
    ensures { OnOk result (HasGainedAll (article_lines n number) edits.old.items edits.new.items) }
{
    let before = 8 * number - 8;
    let mut count = 0;
    'lines: while count < 8 && before + count < n {
        count += 1;
        let article = before + count;
        push_line(alloc, edits, code, numbered(b'A', article), 1 + article % 4)?;
    }
    Ok(())
}
