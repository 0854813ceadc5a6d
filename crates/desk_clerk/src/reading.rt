ghost use Rattle.std.specs.Prelude.{◌≡◌, List, length, IfOk, IsErrOf};
ghost use Rattle.desk_edge.specs.Content.{IsSame};
ghost use Rattle.desk_edge.specs.Faults.{CountsFaults};
ghost use Rattle.desk_edge.specs.declared.record.Record.{Record as Kept};
ghost use Rattle.desk_clerk.specs.Reading.{WereRead};
ghost use Rattle.desk_records.specs.Gathered.{IsGatheredOf};

use desk_edge::{KeepFault, Keeper};
use desk_records::{GatheredRecords, copied_key};
use std::alloc::Global;

/// Reads the first records of the keeper, in order of their keys: all that it keeps, or as many as `most`. It answers how many they
/// are, and what was made of them. One record at a time is held.
pub(crate) fn read_stored<K: Keeper>(
    alloc: Global,
    keeper: &mut K,
    most: usize,
) -> Result<(usize, GatheredRecords), KeepFault>
    ensures read { IfOk result (λ read. (records : List Kept) × (read.0 ≡ length records) × IsGatheredOf records read.1
        × WereRead most (K.Tells keeper.new) (K.content keeper.new) records) }
    ensures told { K.Tells keeper.new → K.Tells keeper.old }
    ensures stays { K.Tells keeper.new → IsSame (K.content keeper.old) (K.content keeper.new) }
    ensures faults { CountsFaults (IsErrOf result KeepFault.Failed) (K.faults keeper.old) (K.faults keeper.new) }
{
    let mut gathered = GatheredRecords::start(alloc);
    let mut number = 0;
    let mut after = None;
    'reading: while number < most {
        let Some(kept) = keeper.next_record(alloc, after.as_ref())? else {
            return Ok((number, gathered));
        };
        after = Some(copied_key(alloc, &kept)?);
        gathered = gathered.with_record(alloc, kept)?;
        number += 1;
    }
    Ok((number, gathered))
}
