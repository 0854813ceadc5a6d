ghost use Rattle.std.specs.Prelude.{Some};

use crate::field_fault::FieldFault;
use std::error::Error;
use std::fmt;

/// Why a text wasn't read as a row.
#[derive(Clone, Copy, Debug, PartialEq, Eq)]
pub enum RowFault {
    /// The first field isn't the version, `1`.
    Version,
    /// It is, and no row of the table has this code and this text.
    Shape,
    /// There was no memory to read it.
    OutOfMemory,
}

/// The fault's words.
impl fmt::Display for RowFault {
    ghost use Rattle.desk_fields.specs.Faults.{row_fault_words};

    ghost output = { λ fault. Some (row_fault_words fault) };

    fn fmt<W: fmt::Write>(&self, f: &mut fmt::Formatter<W>) -> fmt::Result {
        f.write_str(match self {
            RowFault::Version => "another version",
            RowFault::Shape => "not the text of a row",
            RowFault::OutOfMemory => "out of memory",
        })
    }
}

impl Error for RowFault {}

impl From<FieldFault> for RowFault {
    ghost use Rattle.std.specs.Prelude.{◌≡◌};
    ghost use Rattle.desk_fields.specs.Faults.{row_fault_of};

    ghost from_gives = { λ fault e. e ≡ row_fault_of fault };

    fn from(fault: FieldFault) -> RowFault {
        match fault {
            FieldFault::Shape => RowFault::Shape,
            FieldFault::OutOfMemory => RowFault::OutOfMemory,
        }
    }
}
