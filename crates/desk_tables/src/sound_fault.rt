use desk_text::{Bytes, OutOfMemory};
use std::alloc::AllocError;

/// Why tables aren't taken as sound.
#[derive(Debug, Drop)]
pub enum SoundFault {
    /// A row breaks a clause of soundness.
    Unsound {
        /// The number of the row's table, from 1 to 10.
        table: u8,
        /// The code that names the row there.
        key: Bytes,
    },
    /// There was no memory to find out.
    OutOfMemory,
}

/// There was no memory.
impl From<OutOfMemory> for SoundFault {
    ghost use Rattle.std.specs.Prelude.{◌≡◌};
    ghost use Rattle.desk_tables.specs.declared.sound_fault.SoundFault.TheVariants.{OutOfMemory};

    ghost from_gives = { λ _ fault. fault ≡ OutOfMemory };

    fn from(_error: OutOfMemory) -> SoundFault {
        SoundFault::OutOfMemory
    }
}

/// There was no memory.
impl From<AllocError> for SoundFault {
    ghost use Rattle.std.specs.Prelude.{◌≡◌};
    ghost use Rattle.desk_tables.specs.declared.sound_fault.SoundFault.TheVariants.{OutOfMemory};

    ghost from_gives = { λ _ fault. fault ≡ OutOfMemory };

    fn from(_error: AllocError) -> SoundFault {
        SoundFault::OutOfMemory
    }
}
