ghost use Rattle.std.specs.Prelude.{◌≡◌};

use desk_edge::{KeepFault, Key};
use desk_records::GatherFault;
use desk_text::{Bytes, OutOfMemory};
use std::alloc::AllocError;

/// Why a store isn't opened.
#[derive(Debug, Drop)]
pub enum OpenFault {
    /// The keeper refused a call; it counted a fault.
    KeeperFault,
    /// The records aren't those of sound tables.
    Damaged {
        /// The kind of a record that no row has, or the number of the table of a row that breaks a clause of soundness.
        kind: u8,
        /// The code of that record or row.
        code: Bytes,
    },
    /// There was no memory to open it.
    OutOfMemory,
}

impl From<KeepFault> for OpenFault {
    ghost use Rattle.std.specs.Prelude.{◌≡◌};
    ghost use Rattle.desk_clerk.specs.Faults.{kept_as_open};

    ghost from_gives = { λ fault e. e ≡ kept_as_open fault };

    fn from(fault: KeepFault) -> OpenFault {
        match fault {
            KeepFault::Failed => OpenFault::KeeperFault,
            KeepFault::OutOfMemory => OpenFault::OutOfMemory,
        }
    }
}

/// By whatever cause the records aren't those of sound tables, the key alone is told.
impl From<GatherFault> for OpenFault {
    ghost use Rattle.std.specs.Prelude.{◌≡◌};
    ghost use Rattle.desk_clerk.specs.Faults.{gathered_as_open};

    ghost from_gives = { λ fault e. e ≡ gathered_as_open fault };

    fn from(fault: GatherFault) -> OpenFault {
        match fault {
            GatherFault::OtherVersion(key) => damaged(key),
            GatherFault::NoRow(key) => damaged(key),
            GatherFault::Unsound(key) => damaged(key),
            GatherFault::OutOfMemory => OpenFault::OutOfMemory,
        }
    }
}

/// There was no memory.
impl From<OutOfMemory> for OpenFault {
    ghost use Rattle.std.specs.Prelude.{◌≡◌};
    ghost use Rattle.desk_clerk.specs.declared.open_fault.OpenFault.TheVariants as fault;

    ghost from_gives = { λ _ e. e ≡ fault.OutOfMemory };

    fn from(_error: OutOfMemory) -> OpenFault {
        OpenFault::OutOfMemory
    }
}

/// There was no memory.
impl From<AllocError> for OpenFault {
    ghost use Rattle.std.specs.Prelude.{◌≡◌};
    ghost use Rattle.desk_clerk.specs.declared.open_fault.OpenFault.TheVariants as fault;

    ghost from_gives = { λ _ e. e ≡ fault.OutOfMemory };

    fn from(_error: AllocError) -> OpenFault {
        OpenFault::OutOfMemory
    }
}

/// The records are damaged under this key.
fn damaged(key: Key) -> OpenFault
    ensures { result ≡ OpenFault.Damaged key.kind key.code }
{
    OpenFault::Damaged {
        kind: key.kind,
        code: key.code,
    }
}
