ghost use Rattle.std.specs.Prelude.{Some};

use desk_model::RuleFault;
use desk_text::OutOfMemory;
use std::alloc::AllocError;
use std::error::Error;
use std::fmt;

/// Why an edit isn't taken. The tables are as they were.
#[derive(Debug, Drop)]
pub enum EditFault {
    /// It is refused: the first refusal that it meets.
    Rule(RuleFault),
    /// There was no memory to judge it or to take it.
    OutOfMemory,
}

/// There was no memory.
impl From<OutOfMemory> for EditFault {
    ghost use Rattle.std.specs.Prelude.{◌≡◌};
    ghost use Rattle.desk_tables.specs.declared.edit_fault.EditFault.TheVariants.{OutOfMemory};

    ghost from_gives = { λ _ fault. fault ≡ OutOfMemory };

    fn from(_error: OutOfMemory) -> EditFault {
        EditFault::OutOfMemory
    }
}

/// There was no memory.
impl From<AllocError> for EditFault {
    ghost use Rattle.std.specs.Prelude.{◌≡◌};
    ghost use Rattle.desk_tables.specs.declared.edit_fault.EditFault.TheVariants.{OutOfMemory};

    ghost from_gives = { λ _ fault. fault ≡ OutOfMemory };

    fn from(_error: AllocError) -> EditFault {
        EditFault::OutOfMemory
    }
}

/// The refusal's words, or those for want of memory.
impl fmt::Display for EditFault {
    ghost use Rattle.desk_tables.specs.Faults.{edit_fault_words};

    ghost output = { λ fault. Some (edit_fault_words fault) };

    fn fmt<W: fmt::Write>(&self, f: &mut fmt::Formatter<W>) -> fmt::Result {
        match self {
            EditFault::Rule(fault) => fault.fmt(f),
            EditFault::OutOfMemory => f.write_str("out of memory"),
        }
    }
}

impl Error for EditFault {}
