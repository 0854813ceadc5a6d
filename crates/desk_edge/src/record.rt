use crate::key::Key;
use desk_rows::Keyed;
use desk_text::{Bytes, OutOfMemory};
use std::alloc::Global;
use std::cmp::Ordering;

/// A body that a store keeps under a key, which is the kind and the code.
#[derive(Debug, PartialEq, Eq, Drop)]
pub struct Record {
    /// The kind of the record.
    pub kind: u8,
    /// The code that names it among those of its kind.
    pub code: Bytes,
    /// What is kept under them.
    pub body: Bytes,
}

impl Keyed for Record {
    type Key = Key;

    ghost use Rattle.desk_edge.specs.Content.{key_of};

    ghost key = { key_of };

    fn compare(&self, sought: &Key) -> Ordering {
        (self.kind, &self.code).cmp(&(sought.kind, &sought.code))
    }

    fn compare_row(&self, other: &Record) -> Ordering {
        (self.kind, &self.code).cmp(&(other.kind, &other.code))
    }

    fn copied(&self, alloc: Global) -> Result<Record, OutOfMemory> {
        Ok(Record {
            kind: self.kind,
            code: self.code.copied(alloc)?,
            body: self.body.copied(alloc)?,
        })
    }
}
