ghost use Rattle.std.specs.Prelude.{Some};

use crate::EditKey;
use std::error::Error;
use std::fmt;

/// Why bytes weren't read as an edit: the first of these faults that they have, in this order.
#[derive(Clone, Copy, Debug, PartialEq, Eq)]
pub enum JsonFault {
    /// The bytes are no JSON value.
    NotJson,
    /// The value is no object whose key `edit` has the word of an edit.
    NotAnEdit,
    /// A key that the edit can't do without is absent.
    MissingKey {
        /// The first such key, of the ticket and then the word's keys in their order.
        key: EditKey,
    },
    /// There is a key that the edit doesn't have.
    ExtraKey,
    /// A value isn't of its form or not in its range.
    BadValue {
        /// The key of the first such value, in the same order.
        key: EditKey,
    },
    /// There was no memory to read the bytes.
    OutOfMemory,
}

/// The fault's words, as the reply to a bad edit tells them.
impl fmt::Display for JsonFault {
    ghost use Rattle.desk_edits.specs.Faults.{json_fault_words};

    ghost output = { λ fault. Some (json_fault_words fault) };

    fn fmt<W: fmt::Write>(&self, f: &mut fmt::Formatter<W>) -> fmt::Result {
        match self {
            JsonFault::NotJson => f.write_str("not-json"),
            JsonFault::NotAnEdit => f.write_str("not-an-edit"),
            JsonFault::MissingKey { key } => write!(f, "missing-key {key}"),
            JsonFault::ExtraKey => f.write_str("extra-key"),
            JsonFault::BadValue { key } => write!(f, "bad-value {key}"),
            JsonFault::OutOfMemory => f.write_str("out of memory"),
        }
    }
}

impl Error for JsonFault {}
