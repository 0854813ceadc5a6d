ghost use Rattle.std.specs.Prelude.{◌≡◌, ◌&&◌, [], ◌∷◌, IfOk, filter, map, if◌then◌else◌};
ghost use Rattle.std.specs.List.{list_any};
ghost use Rattle.desk_text.specs.Code.{same_code};
ghost use Rattle.desk_model.specs.Lists.{is_part};
ghost use Rattle.desk_findings.specs.Above.{is_candidate};
ghost use Rattle.desk_findings.specs.Articles.{is_article_sort};
ghost use Rattle.desk_history.specs.Affected.{articles_listing, leads_to_some, lists_substance, materials_listing, seeds_of_new};

use crate::pushing::push_if;
use desk_model::{Edit, LineRow, MaterialDecl, MaterialRow, PartRow, PartSort};
use desk_rows::run_of;
use desk_tables::Tables;
use desk_text::{Code, OutOfMemory};
use std::alloc::Global;

/// The codes at which the change of a new edit begins.
#[tactic(auto, unfolding(desk_history::specs::Affected::seeds_of_new))]
pub(crate) fn seed_codes(
    alloc: Global,
    tables: &Tables,
    edit: &Edit,
) -> Result<Vec<Code>, OutOfMemory>
    ensures { IfOk result (λ codes. codes.items ≡ seeds_of_new tables.now.lists edit.now) }
{
    match edit {
        Edit::Member { substance, .. } => codes_listing(alloc, tables.materials(), substance),
        Edit::Declare { declaration } => codes_declared(alloc, declaration.materials()),
        Edit::Part { code, .. } => new_part(alloc, tables, code),
        Edit::Line { parent, .. } => alone(alloc, parent),
        Edit::Unline { parent, .. } => alone(alloc, parent),
        Edit::Candidate { substance, .. } => articles_of_new(alloc, tables, substance),
        _ => Ok(Vec::new(alloc)),
    }
}

/// The code of a part, where it is new.
fn new_part(alloc: Global, tables: &Tables, code: &Code) -> Result<Vec<Code>, OutOfMemory>
    ensures { IfOk result (λ codes. codes.items ≡ (if is_part tables.now.lists code.now then [] else code.now ∷ [])) }
{
    if tables.is_part(code) {
        return Ok(Vec::new(alloc));
    }
    alone(alloc, code)
}

/// The code alone.
fn alone(alloc: Global, code: &Code) -> Result<Vec<Code>, OutOfMemory>
    ensures { IfOk result (λ codes. codes.items ≡ code.now ∷ []) }
{
    let mut codes = Vec::new(alloc);
    codes.push(*code)?;
    Ok(codes)
}

/// The codes of a declaration's materials.
fn codes_declared(alloc: Global, materials: &[MaterialDecl]) -> Result<Vec<Code>, OutOfMemory>
    ensures { IfOk result (λ codes. codes.items ≡ map (λ material. material.code) materials.now) }
{
    let mut codes = Vec::new(alloc);
    for material in materials {
        codes.push(material.code)?;
    }
    Ok(codes)
}

/// The codes of those of the materials that list the substance.
fn codes_listing(
    alloc: Global,
    materials: &[MaterialRow],
    substance: &Code,
) -> Result<Vec<Code>, OutOfMemory>
    ensures { IfOk result (λ codes. codes.items ≡ map (λ material. material.code) (filter (lists_substance substance.now) materials.now)) }
{
    let mut codes = Vec::new(alloc);
    for material in materials {
        let is_listing = lists_substance(material, substance);
        push_if(&mut codes, is_listing, material.code)?;
    }
    Ok(codes)
}

/// Whether the material lists the substance.
fn lists_substance(material: &MaterialRow, substance: &Code) -> bool
    ensures { result ≡ lists_substance substance.now material.now }
{
    let held = material.substances.as_slice();
    held.iter().any(|one| one.substance.cmp(substance).is_eq())
}

/// The articles with a line to a material that lists the substance, where it is no candidate yet.
fn articles_of_new(
    alloc: Global,
    tables: &Tables,
    substance: &Code,
) -> Result<Vec<Code>, OutOfMemory>
    ensures { IfOk result (λ codes. codes.items ≡ (if is_candidate tables.now.lists substance.now then [] else articles_listing tables.now.lists substance.now)) }
{
    if is_candidate(tables, substance) {
        return Ok(Vec::new(alloc));
    }
    articles_listing(alloc, tables, substance, tables.parts())
}

/// Whether the substance is a candidate.
fn is_candidate(tables: &Tables, substance: &Code) -> bool
    ensures { result ≡ is_candidate tables.now.lists substance.now }
{
    tables.candidate(substance).is_some()
}

/// The codes of those of the parts that are articles with a line to a material that lists the substance.
fn articles_listing(
    alloc: Global,
    tables: &Tables,
    substance: &Code,
    parts: &[PartRow],
) -> Result<Vec<Code>, OutOfMemory>
    ensures { IfOk result (λ codes. codes.items ≡ map (λ part. part.code) (filter (λ part. is_article_sort part.sort && leads_to_some tables.now.lists part.code (materials_listing tables.now.lists substance.now)) parts.now)) }
{
    let mut codes = Vec::new(alloc);
    for part in parts {
        let is_listing = is_article_listing(tables, substance, part);
        push_if(&mut codes, is_listing, part.code)?;
    }
    Ok(codes)
}

/// Whether the part is an article with a line to a material that lists the substance.
fn is_article_listing(tables: &Tables, substance: &Code, part: &PartRow) -> bool
    ensures { result ≡ (is_article_sort part.now.sort && leads_to_some tables.now.lists part.now.code (materials_listing tables.now.lists substance.now)) }
{
    match part.sort {
        PartSort::Article => leads_to_listing(tables, substance, &part.code),
        PartSort::Assembly => false,
    }
}

/// Whether a line of the part leads to a material that lists the substance.
fn leads_to_listing(tables: &Tables, substance: &Code, part: &Code) -> bool
    ensures { result ≡ leads_to_some tables.now.lists part.now (materials_listing tables.now.lists substance.now) }
{
    // The call does nothing but say that lines of one parent stand together.
    tables.in_order();
    lead_to_listing(tables, substance, run_of(tables.lines(), part))
}

/// Whether one of the lines leads to a material that lists the substance.
fn lead_to_listing(tables: &Tables, substance: &Code, lines: &[LineRow]) -> bool
    ensures { result ≡ list_any (λ line. list_any (same_code line.child) (materials_listing tables.now.lists substance.now)) lines.now }
{
    lines
        .iter()
        .any(|line| is_code_listing(tables, substance, &line.child))
}

/// Whether the code is that of a material that lists the substance. It takes a binary search.
fn is_code_listing(tables: &Tables, substance: &Code, code: &Code) -> bool
    ensures { result ≡ list_any (same_code code.now) (materials_listing tables.now.lists substance.now) }
{
    // The call does nothing but say that a code has one material.
    tables.in_order();
    match tables.material(code) {
        Some(material) => lists_substance(material, substance),
        None => false,
    }
}
