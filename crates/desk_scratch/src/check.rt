ghost use Rattle.std.specs.Prelude.{◌≡◌, ◌↔◌, ◌++◌, codes, false, true, IfOk, OnOk, string_bytes};
ghost use Rattle.std.specs.List.{flat_map};
ghost use Rattle.desk_text.specs.Day.{is_askable};
ghost use Rattle.desk_history.specs.Sound.{Sound};
ghost use Rattle.desk_model.specs.Effect.{declared_row};
ghost use Rattle.desk_scratch.specs.Assessment.{facts_of};
ghost use Rattle.desk_scratch.specs.CheckText.{EndsIn, check_line, check_text, some_breach};
ghost use Rattle.desk_scratch.specs.MaterialBlock.{material_block};

use crate::assessment::{Assessment, terms_of};
use crate::facts::Facts;
use crate::material_block::push_material_block;
use crate::shared_lines::push_compliance_line;
use desk_law::KindOnDay;
use desk_model::{Declaration, MaterialDecl};
use desk_tables::Tables;
use desk_text::{Bytes, Code, OutOfMemory};
use std::alloc::{AllocError, Global};
use std::fmt::Write;

/// The whole answer to `check` for a declaration, over these tables: what was asked, what was declared of each material
/// and its verdict for each rule, and whether no verdict is a breach.
///
/// It takes, for each material and substance, a binary search, and for each rule whose limit a material is over, a
/// look at each exemption row.
pub fn check_text(
    alloc: Global,
    tables: &Tables,
    asked: &KindOnDay,
    declaration: &Declaration,
) -> Result<Bytes, OutOfMemory>
    requires sound { Sound tables.now.lists }
    requires askable { is_askable asked.now.day ≡ true }
    ensures value { IfOk result (λ text. text ≡ check_text tables.now.lists asked.now.kind asked.now.day declaration.now) }
    // "compliant" means that no verdict on any material for any rule is a breach.
    ensures compliant { IfOk result (λ text.
        EndsIn text (codes "\ncompliant\n") ↔ (some_breach tables.now.lists asked.now.kind asked.now.day declaration.now ≡ false)) }
{
    let terms = terms_of(alloc, tables)?;
    let by = Assessment::new(tables, terms.as_slice(), *asked);
    let mut text = String::new(alloc);
    push_check_line(
        &mut text,
        asked,
        declaration.supplier(),
        declaration.number(),
    )?;
    let breach = push_blocks(alloc, &mut text, &by, declaration)?;
    push_compliance_line(&mut text, !breach)?;
    Ok(Bytes::from(text.into_bytes()))
}

/// Appends what was asked, and which declaration is judged.
#[tactic(auto, unfolding(crate::specs::CheckText::check_line))]
fn push_check_line(
    out: &mut String,
    asked: &KindOnDay,
    supplier: &Code,
    number: u64,
) -> Result<(), AllocError>
    ensures { OnOk result (string_bytes out.new ≡ string_bytes out.old ++ check_line asked.now.kind asked.now.day supplier.now number) }
{
    let (day, kind) = (asked.day, asked.kind);
    writeln!(
        out,
        "check {day} kind {kind} supplier {supplier} declaration {number}"
    )
}

/// Appends the block of each material, in order of code. Tells whether some verdict is a breach.
fn push_blocks(
    alloc: Global,
    out: &mut String,
    by: &Assessment<'_>,
    declaration: &Declaration,
) -> Result<bool, OutOfMemory>
    ensures blocks { OnOk result (string_bytes out.new ≡ string_bytes out.old
        ++ flat_map (λ m. material_block by.now.lists by.now.kind by.now.day (declared_row declaration.now m)) declaration.now.materials) }
    ensures breach { IfOk result (λ breach. breach ≡ some_breach by.now.lists by.now.kind by.now.day declaration.now) }
{
    let mut breach = false;
    for material in declaration.materials() {
        let facts = facts_in(declaration, material);
        breach = breach | push_material_block(alloc, out, by, &facts)?;
    }
    Ok(breach)
}

/// What the declaration says of one of its materials.
fn facts_in<'a>(declaration: &Declaration, material: &'a MaterialDecl) -> Facts<'a>
    ensures { result ≡ facts_of (declared_row declaration.now material.now) }
{
    Facts {
        code: material.code,
        supplier: *declaration.supplier(),
        number: declaration.number(),
        mass: material.mass,
        substances: material.substances.as_slice(),
        claims: material.claims.as_slice(),
    }
}
