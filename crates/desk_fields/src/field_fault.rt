use desk_model::DeclError;
use desk_text::OutOfMemory;
use std::alloc::{AllocError, AllocFailed};

/// Why fields weren't read as a value.
#[derive(Clone, Copy, Debug, PartialEq, Eq)]
pub(crate) enum FieldFault {
    /// They aren't the fields of one.
    Shape,
    /// There was no memory to read them.
    OutOfMemory,
}

impl From<OutOfMemory> for FieldFault {
    ghost use Rattle.std.specs.Prelude.{◌≡◌};
    ghost use Rattle.desk_fields.specs.declared.field_fault.FieldFault.TheVariants as fault;

    ghost from_gives = { λ _ e. e ≡ fault.OutOfMemory };

    fn from(_error: OutOfMemory) -> FieldFault {
        FieldFault::OutOfMemory
    }
}

impl From<AllocError> for FieldFault {
    ghost use Rattle.std.specs.Prelude.{◌≡◌};
    ghost use Rattle.desk_fields.specs.declared.field_fault.FieldFault.TheVariants as fault;

    ghost from_gives = { λ _ e. e ≡ fault.OutOfMemory };

    fn from(_error: AllocError) -> FieldFault {
        FieldFault::OutOfMemory
    }
}

impl<T: Drop> From<AllocFailed<T>> for FieldFault {
    ghost use Rattle.std.specs.Prelude.{◌≡◌};
    ghost use Rattle.desk_fields.specs.declared.field_fault.FieldFault.TheVariants as fault;

    ghost from_gives = { λ _ e. e ≡ fault.OutOfMemory };

    fn from(_error: AllocFailed<T>) -> FieldFault {
        FieldFault::OutOfMemory
    }
}

impl From<DeclError> for FieldFault {
    ghost use Rattle.std.specs.Prelude.{◌≡◌};
    ghost use Rattle.desk_fields.specs.Declaring.{declaring_fault};

    ghost from_gives = { λ error e. e ≡ declaring_fault error };

    fn from(error: DeclError) -> FieldFault {
        match error {
            DeclError::OutOfMemory => FieldFault::OutOfMemory,
            _ => FieldFault::Shape,
        }
    }
}
