ghost use Rattle.std.specs.Prelude.{◌≡◌, IfOk};

use desk_text::{Bytes, OutOfMemory};
use std::alloc::Global;

/// What tells a record from the others of its store. Keys are ordered by kind, and then by the bytes of the code.
#[derive(Debug, PartialEq, Eq, PartialOrd, Ord, Drop)]
pub struct Key {
    /// The kind of the record.
    pub kind: u8,
    /// The code that names it among those of its kind.
    pub code: Bytes,
}

impl Key {
    /// The same key once more.
    pub fn copied(&self, alloc: Global) -> Result<Key, OutOfMemory>
        ensures { IfOk result (λ key. key ≡ self.now) }
    {
        Ok(Key {
            kind: self.kind,
            code: self.code.copied(alloc)?,
        })
    }
}
