use desk_text::OutOfMemory;
use std::alloc::{AllocError, AllocFailed};
use std::error::Error;
use std::fmt;

/// Why a declaration doesn't take one more material, substance or claim. Nothing changed then.
#[derive(Clone, Copy, Debug, PartialEq, Eq)]
pub enum DeclError {
    /// The declaration has it already.
    Repeated,
    /// The declaration, or its material, has as many as it may have.
    TooMany,
    /// The declaration doesn't list the material.
    Orphan,
    /// There was no memory.
    OutOfMemory,
}

impl fmt::Display for DeclError {
    ghost use Rattle.std.specs.Prelude.{Some};
    ghost use Rattle.desk_model.specs.DeclError.{error_text};

    ghost output = { λ error. Some (error_text error) };

    fn fmt<W: fmt::Write>(&self, f: &mut fmt::Formatter<W>) -> fmt::Result {
        f.write_str(match self {
            DeclError::Repeated => "listed already",
            DeclError::TooMany => "too many",
            DeclError::Orphan => "of a material that isn't listed",
            DeclError::OutOfMemory => "out of memory",
        })
    }
}

impl Error for DeclError {}

impl From<OutOfMemory> for DeclError {
    ghost use Rattle.std.specs.Prelude.{◌≡◌};
    ghost use Rattle.desk_model.specs.declared.decl_error.DeclError.TheVariants as error;

    ghost from_gives = { λ _ e. e ≡ error.OutOfMemory };

    fn from(_error: OutOfMemory) -> DeclError {
        DeclError::OutOfMemory
    }
}

impl From<AllocError> for DeclError {
    ghost use Rattle.std.specs.Prelude.{◌≡◌};
    ghost use Rattle.desk_model.specs.declared.decl_error.DeclError.TheVariants as error;

    ghost from_gives = { λ _ e. e ≡ error.OutOfMemory };

    fn from(_error: AllocError) -> DeclError {
        DeclError::OutOfMemory
    }
}

impl<T: Drop> From<AllocFailed<T>> for DeclError {
    ghost use Rattle.std.specs.Prelude.{◌≡◌};
    ghost use Rattle.desk_model.specs.declared.decl_error.DeclError.TheVariants as error;

    ghost from_gives = { λ _ e. e ≡ error.OutOfMemory };

    fn from(_error: AllocFailed<T>) -> DeclError {
        DeclError::OutOfMemory
    }
}
