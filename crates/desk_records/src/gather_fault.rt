use desk_edge::Key;
use desk_tables::SoundFault;

/// Why records aren't taken as those of sound tables.
#[derive(Debug, Drop)]
pub enum GatherFault {
    /// The record under this key is of another version than those of rows.
    OtherVersion(Key),
    /// The record under this key is of their version, and no row has it.
    NoRow(Key),
    /// The row whose record has this key breaks a clause of soundness.
    Unsound(Key),
    /// There was no memory to find out.
    OutOfMemory,
}

impl From<SoundFault> for GatherFault {
    ghost use Rattle.std.specs.Prelude.{◌≡◌};
    ghost use Rattle.desk_records.specs.Faults.{sound_as_gather};

    ghost from_gives = { λ fault e. e ≡ sound_as_gather fault };

    fn from(fault: SoundFault) -> GatherFault {
        match fault {
            SoundFault::Unsound { table, key } => GatherFault::Unsound(Key {
                kind: table,
                code: key,
            }),
            SoundFault::OutOfMemory => GatherFault::OutOfMemory,
        }
    }
}
