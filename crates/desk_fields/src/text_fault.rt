ghost use Rattle.std.specs.Prelude.{Some};

use crate::field_fault::FieldFault;
use desk_text::OutOfMemory;
use std::error::Error;
use std::fmt;

/// Why a text wasn't read as an edit.
#[derive(Clone, Copy, Debug, PartialEq, Eq)]
pub enum TextFault {
    /// No edit has this text under this ticket's code.
    NotAnEdit,
    /// There was no memory to read it.
    OutOfMemory,
}

/// The fault's words.
impl fmt::Display for TextFault {
    ghost use Rattle.desk_fields.specs.Faults.{text_fault_words};

    ghost output = { λ fault. Some (text_fault_words fault) };

    fn fmt<W: fmt::Write>(&self, f: &mut fmt::Formatter<W>) -> fmt::Result {
        f.write_str(match self {
            TextFault::NotAnEdit => "not the text of an edit",
            TextFault::OutOfMemory => "out of memory",
        })
    }
}

impl Error for TextFault {}

impl From<FieldFault> for TextFault {
    ghost use Rattle.std.specs.Prelude.{◌≡◌};
    ghost use Rattle.desk_fields.specs.Faults.{text_fault_of};

    ghost from_gives = { λ fault e. e ≡ text_fault_of fault };

    fn from(fault: FieldFault) -> TextFault {
        match fault {
            FieldFault::Shape => TextFault::NotAnEdit,
            FieldFault::OutOfMemory => TextFault::OutOfMemory,
        }
    }
}

impl From<OutOfMemory> for TextFault {
    ghost use Rattle.std.specs.Prelude.{◌≡◌};
    ghost use Rattle.desk_fields.specs.declared.text_fault.TextFault.TheVariants as fault;

    ghost from_gives = { λ _ e. e ≡ fault.OutOfMemory };

    fn from(_error: OutOfMemory) -> TextFault {
        TextFault::OutOfMemory
    }
}
