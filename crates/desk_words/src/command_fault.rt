use desk_text::OutOfMemory;
use std::alloc::AllocError;
use std::error::Error;
use std::fmt;

/// Why words give no command.
#[derive(Clone, Copy, Debug, PartialEq, Eq)]
pub enum CommandFault {
    /// The words are no command line.
    NoCommand,
    /// No memory was left to read them.
    OutOfMemory,
}

impl fmt::Display for CommandFault {
    ghost use Rattle.std.specs.Prelude.{Some};
    ghost use Rattle.desk_words.specs.Faults.{command_fault_words};

    ghost output = { λ fault. Some (command_fault_words fault) };

    fn fmt<W: fmt::Write>(&self, f: &mut fmt::Formatter<W>) -> fmt::Result {
        f.write_str(match self {
            CommandFault::NoCommand => "not a command line",
            CommandFault::OutOfMemory => "out of memory",
        })
    }
}

impl Error for CommandFault {}

impl From<OutOfMemory> for CommandFault {
    ghost use Rattle.std.specs.Prelude.{◌≡◌};
    ghost use Rattle.desk_words.specs.declared.command_fault.CommandFault.TheVariants as command_fault;

    ghost from_gives = { λ _ fault. fault ≡ command_fault.OutOfMemory };

    fn from(_error: OutOfMemory) -> CommandFault {
        CommandFault::OutOfMemory
    }
}

impl From<AllocError> for CommandFault {
    ghost use Rattle.std.specs.Prelude.{◌≡◌};
    ghost use Rattle.desk_words.specs.declared.command_fault.CommandFault.TheVariants as command_fault;

    ghost from_gives = { λ _ fault. fault ≡ command_fault.OutOfMemory };

    fn from(_error: AllocError) -> CommandFault {
        CommandFault::OutOfMemory
    }
}
