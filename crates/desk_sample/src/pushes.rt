ghost use Rattle.std.specs.Prelude.{OnOk, true, ◌≡◌};
ghost use Rattle.desk_model.specs.declared.edit.Edit.TheVariants.{Candidate, Line, Part, Product, Ship};
ghost use Rattle.desk_model.specs.Forms.{are_units, is_count, is_year};
ghost use Rattle.desk_sample.specs.Ticketed.{HasGained};

use crate::codes::ticket;
use desk_law::Kind;
use desk_model::{Edit, PartSort, count_of, units_of, year_of};
use desk_text::{Code, Day, Name, OutOfMemory};
use std::alloc::Global;

/// A part goes in.
pub(crate) fn push_part(
    alloc: Global,
    edits: &mut Vec<Edit>,
    code: Code,
    sort: PartSort,
    name: Name,
) -> Result<(), OutOfMemory>
    ensures { OnOk result (HasGained (λ ticket. Part ticket code sort name) edits.old.items edits.new.items) }
{
    let ticket = ticket(alloc, edits.len() as u64 + 1)?;
    edits.push(Edit::Part {
        ticket,
        code,
        sort,
        name,
    })?;
    Ok(())
}

/// A line goes in.
pub(crate) fn push_line(
    alloc: Global,
    edits: &mut Vec<Edit>,
    parent: Code,
    child: Code,
    count: u64,
) -> Result<(), OutOfMemory>
    requires { is_count count ≡ true }
    ensures { OnOk result (HasGained (λ ticket. Line ticket parent child count) edits.old.items edits.new.items) }
{
    let ticket = ticket(alloc, edits.len() as u64 + 1)?;
    let count = count_of(count).unwrap();
    edits.push(Edit::Line {
        ticket,
        parent,
        child,
        count,
    })?;
    Ok(())
}

/// A product goes in.
pub(crate) fn push_product(
    alloc: Global,
    edits: &mut Vec<Edit>,
    part: Code,
    kind: Kind,
) -> Result<(), OutOfMemory>
    ensures { OnOk result (HasGained (λ ticket. Product ticket part kind) edits.old.items edits.new.items) }
{
    let ticket = ticket(alloc, edits.len() as u64 + 1)?;
    edits.push(Edit::Product { ticket, part, kind })?;
    Ok(())
}

/// A candidate goes in.
pub(crate) fn push_candidate(
    alloc: Global,
    edits: &mut Vec<Edit>,
    substance: Code,
    day: Day,
) -> Result<(), OutOfMemory>
    ensures { OnOk result (HasGained (λ ticket. Candidate ticket substance day) edits.old.items edits.new.items) }
{
    let ticket = ticket(alloc, edits.len() as u64 + 1)?;
    edits.push(Edit::Candidate {
        ticket,
        substance,
        day,
    })?;
    Ok(())
}

/// Units of a product are shipped.
pub(crate) fn push_ship(
    alloc: Global,
    edits: &mut Vec<Edit>,
    product: Code,
    year: u64,
    units: u64,
) -> Result<(), OutOfMemory>
    requires year { is_year year ≡ true }
    requires units { are_units units ≡ true }
    ensures { OnOk result (HasGained (λ ticket. Ship ticket product year units) edits.old.items edits.new.items) }
{
    let ticket = ticket(alloc, edits.len() as u64 + 1)?;
    let (year, units) = (year_of(year).unwrap(), units_of(units).unwrap());
    edits.push(Edit::Ship {
        ticket,
        product,
        year,
        units,
    })?;
    Ok(())
}
