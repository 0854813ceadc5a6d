use crate::failed::Failed;
use desk_text::OutOfMemory;
use std::alloc::AllocError;

/// Why a call of a store wasn't done.
#[derive(Clone, Copy, Debug, PartialEq, Eq)]
pub enum KeepFault {
    /// The store refused the call; it counted a fault.
    Failed,
    /// There was no memory for it.
    OutOfMemory,
}

impl From<Failed> for KeepFault {
    ghost use Rattle.std.specs.Prelude.{◌≡◌};
    ghost use Rattle.desk_edge.specs.declared.keep_fault.KeepFault.TheVariants as fault;

    ghost from_gives = { λ _ e. e ≡ fault.Failed };

    fn from(_error: Failed) -> KeepFault {
        KeepFault::Failed
    }
}

impl From<OutOfMemory> for KeepFault {
    ghost use Rattle.std.specs.Prelude.{◌≡◌};
    ghost use Rattle.desk_edge.specs.declared.keep_fault.KeepFault.TheVariants as fault;

    ghost from_gives = { λ _ e. e ≡ fault.OutOfMemory };

    fn from(_error: OutOfMemory) -> KeepFault {
        KeepFault::OutOfMemory
    }
}

impl From<AllocError> for KeepFault {
    ghost use Rattle.std.specs.Prelude.{◌≡◌};
    ghost use Rattle.desk_edge.specs.declared.keep_fault.KeepFault.TheVariants as fault;

    ghost from_gives = { λ _ e. e ≡ fault.OutOfMemory };

    fn from(_error: AllocError) -> KeepFault {
        KeepFault::OutOfMemory
    }
}
