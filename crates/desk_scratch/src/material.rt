ghost use Rattle.std.specs.Prelude.{◌≡◌, ◌≤◌, length, true, IfOk};
ghost use Rattle.desk_text.specs.Day.{is_askable};
ghost use Rattle.desk_history.specs.Sound.{Sound};
ghost use Rattle.desk_model.specs.declared.limits.TheConstants.{CONTENT_LIMIT};
ghost use Rattle.desk_scratch.specs.Material.{material_text};

use crate::assessment::{Assessment, terms_of};
use crate::blank_text::BlankText;
use crate::facts::Facts;
use crate::material_block::push_material_block;
use crate::shared_lines::{push_compliance_line, push_version_line};
use desk_law::KindOnDay;
use desk_model::MaterialRow;
use desk_tables::Tables;
use desk_text::{Bytes, OutOfMemory};
use std::alloc::Global;

/// The answer on a material: what was declared of it, and its verdict for each rule.
///
/// It takes, for each substance of the material, a binary search, and for each rule whose limit it is over, a look
/// at each exemption row. The text has thirteen lines.
pub(crate) fn material_text(
    alloc: Global,
    tables: &Tables,
    asked: &KindOnDay,
    material: &MaterialRow,
    blank: BlankText,
) -> Result<Bytes, OutOfMemory>
    requires sound { Sound tables.now.lists }
    requires askable { is_askable asked.now.day ≡ true }
    requires few { length material.now.substances ≤ CONTENT_LIMIT }
    ensures { IfOk result (λ text. text ≡ material_text tables.now.lists asked.now.kind asked.now.day material.now) }
{
    let terms = terms_of(alloc, tables)?;
    let by = Assessment::new(tables, terms.as_slice(), *asked);
    let mut text = blank.into_string();
    push_version_line(&mut text, tables)?;
    let breach = push_material_block(alloc, &mut text, &by, &Facts::from(material))?;
    push_compliance_line(&mut text, !breach)?;
    Ok(Bytes::from(text.into_bytes()))
}
