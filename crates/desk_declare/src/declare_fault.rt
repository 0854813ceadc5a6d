ghost use Rattle.std.specs.Prelude.{◌≡◌, Some};
ghost use Rattle.desk_declare.specs.Faults.{declare_fault_words, unfit};

use desk_model::DeclError;
use desk_text::OutOfMemory;
use std::error::Error;
use std::fmt;

/// Why bytes weren't read as a declaration: the fault of the first record that has one, and of its faults the first in
/// this order. Records are numbered from 1 as the reader of comma-separated values gives them, and columns from 1.
#[derive(Clone, Copy, Debug, PartialEq, Eq)]
pub enum DeclareFault {
    /// A field of the record isn't UTF-8.
    NotText {
        /// The number of the record.
        place: u64,
    },
    /// There is no record, or the first doesn't begin with the fields `D` and `1`.
    NoHead,
    /// A field isn't of its form or not in its range, or is missing, or is one too many.
    BadField {
        /// The number of the record.
        place: u64,
        /// The column of the first such field.
        column: u64,
    },
    /// The record lists a material again.
    RepeatedMaterial {
        /// The number of the record.
        place: u64,
    },
    /// The record is of a material that no earlier record lists.
    OrphanRow {
        /// The number of the record.
        place: u64,
    },
    /// The record lists a substance, or a claim, of a material again.
    RepeatedRow {
        /// The number of the record.
        place: u64,
    },
    /// The record lists the 257th material, or the 65th substance or the 17th claim of one material.
    TooManyRows {
        /// The number of the record.
        place: u64,
    },
    /// There was no memory to read the bytes.
    OutOfMemory,
}

impl DeclareFault {
    /// The fault of a record whose row doesn't fit into the declaration so far. `repeated` tells what it may repeat.
    pub(crate) fn unfit(error: DeclError, place: u64, repeated: DeclareFault) -> DeclareFault
        ensures { result ≡ unfit repeated place error }
    {
        match error {
            DeclError::Repeated => repeated,
            DeclError::Orphan => DeclareFault::OrphanRow { place },
            DeclError::TooMany => DeclareFault::TooManyRows { place },
            DeclError::OutOfMemory => DeclareFault::OutOfMemory,
        }
    }
}

/// The fault's words, as the console and the reply to a bad declaration tell them.
impl fmt::Display for DeclareFault {
    ghost output = { λ fault. Some (declare_fault_words fault) };

    #[tactic(auto, unfolding(crate::specs::Faults::declare_fault_words))]
    fn fmt<W: fmt::Write>(&self, f: &mut fmt::Formatter<W>) -> fmt::Result {
        match self {
            DeclareFault::NotText { place } => write!(f, "not-text record {place}"),
            DeclareFault::NoHead => f.write_str("no-head"),
            DeclareFault::BadField { place, column } => {
                write!(f, "bad-field record {place} column {column}")
            }
            DeclareFault::RepeatedMaterial { place } => {
                write!(f, "repeated-material record {place}")
            }
            DeclareFault::OrphanRow { place } => write!(f, "orphan-row record {place}"),
            DeclareFault::RepeatedRow { place } => write!(f, "repeated-row record {place}"),
            DeclareFault::TooManyRows { place } => write!(f, "too-many-rows record {place}"),
            DeclareFault::OutOfMemory => f.write_str("out of memory"),
        }
    }
}

impl Error for DeclareFault {}

impl From<OutOfMemory> for DeclareFault {
    ghost use Rattle.std.specs.Prelude.{◌≡◌};
    ghost use Rattle.desk_declare.specs.declared.declare_fault.DeclareFault.TheVariants as fault;

    ghost from_gives = { λ _ e. e ≡ fault.OutOfMemory };

    fn from(_error: OutOfMemory) -> DeclareFault {
        DeclareFault::OutOfMemory
    }
}
