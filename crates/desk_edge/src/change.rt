ghost use Rattle.std.specs.Prelude.{◌≡◌, IfOk};

use crate::key::Key;
use crate::record::Record;
use desk_rows::Keyed;
use desk_text::OutOfMemory;
use std::alloc::Global;

/// One change of what a store keeps.
#[derive(Debug, Drop)]
pub enum Change {
    /// The record is kept, in place of the one of its key, if there is one.
    Put(Record),
    /// Nothing is kept under the key.
    Drop(Key),
}

impl Change {
    /// The same change once more.
    pub fn copied(&self, alloc: Global) -> Result<Change, OutOfMemory>
        ensures { IfOk result (λ change. change ≡ self.now) }
    {
        match self {
            Change::Put(record) => Ok(Change::Put(record.copied(alloc)?)),
            Change::Drop(key) => Ok(Change::Drop(key.copied(alloc)?)),
        }
    }
}
