ghost use Rattle.std.specs.Prelude.{Some};

use desk_text::{Code, OutOfMemory};
use std::alloc::AllocError;
use std::error::Error;
use std::fmt;

/// Why a question has no answer.
#[derive(Clone, Copy, Debug, PartialEq, Eq)]
pub enum AskFault {
    /// The tables keep nothing of the code that the question is about: no material, no part, or neither of them.
    NoSuchCode {
        /// The code.
        code: Code,
    },
    /// The part that a RoHS question is about is no product.
    NotAProduct {
        /// The code of the part.
        code: Code,
    },
    /// There was no memory for the answer.
    OutOfMemory,
}

/// The fault's words, as the reply to the question tells them.
impl fmt::Display for AskFault {
    ghost use Rattle.desk_scratch.specs.Faults.{ask_fault_words};

    ghost output = { λ fault. Some (ask_fault_words fault) };

    fn fmt<W: fmt::Write>(&self, f: &mut fmt::Formatter<W>) -> fmt::Result {
        match self {
            AskFault::NoSuchCode { code } => write!(f, "no-such-code {code}"),
            AskFault::NotAProduct { code } => write!(f, "not-a-product {code}"),
            AskFault::OutOfMemory => f.write_str("out of memory"),
        }
    }
}

impl Error for AskFault {}

impl From<OutOfMemory> for AskFault {
    ghost use Rattle.std.specs.Prelude.{◌≡◌};
    ghost use Rattle.desk_scratch.specs.declared.ask_fault.AskFault.TheVariants as fault;

    ghost from_gives = { λ _ e. e ≡ fault.OutOfMemory };

    fn from(_error: OutOfMemory) -> AskFault {
        AskFault::OutOfMemory
    }
}

impl From<AllocError> for AskFault {
    ghost use Rattle.std.specs.Prelude.{◌≡◌};
    ghost use Rattle.desk_scratch.specs.declared.ask_fault.AskFault.TheVariants as fault;

    ghost from_gives = { λ _ e. e ≡ fault.OutOfMemory };

    fn from(_error: AllocError) -> AskFault {
        AskFault::OutOfMemory
    }
}
