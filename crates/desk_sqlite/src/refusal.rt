ghost use Rattle.std.specs.Prelude.{◌≡◌};
ghost use Rattle.desk_sqlite.specs.Refusals.{keep_fault_of};

use desk_edge::KeepFault;
use sqlite::{Error, ErrorCode};

/// What a refusal of the library is to a keeper.
pub(crate) fn keep_fault_of(error: Error) -> KeepFault
    ensures { result ≡ keep_fault_of error }
{
    match error {
        Error::SqliteFailure(ErrorCode::OutOfMemory) => KeepFault::OutOfMemory,
        _ => KeepFault::Failed,
    }
}
