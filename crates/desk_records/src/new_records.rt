ghost use Rattle.std.specs.Prelude.{◌≡◌, IfOk, map};
ghost use Rattle.desk_edge.specs.declared.change.Change.TheVariants.{Put};

use desk_edge::{Change, Record};
use desk_text::OutOfMemory;
use std::alloc::Global;

/// The changes that put each of the records.
///
/// `OutOfMemory`: none was left for the changes.
pub fn puts(alloc: Global, records: Vec<Record>) -> Result<Vec<Change>, OutOfMemory>
    ensures { IfOk result (λ changes. changes.items ≡ map (λ kept. Put kept) records.items) }
{
    let mut changes = Vec::new(alloc);
    for kept in records {
        changes.push(Change::Put(kept))?;
    }
    Ok(changes)
}
