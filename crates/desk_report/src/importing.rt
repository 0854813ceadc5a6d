ghost use Rattle.std.specs.Prelude.{◌≡◌, ◌≢◌, ℕ, ◌+◌, ◌≤◌, List, length, true, false, Err, IfOk, IsErrOf, OnErr};
ghost use Rattle.std.specs.Io.KnownBytes.{Consumes, IsAtEnd};
ghost use Rattle.desk_edge.specs.Content.{IsEmpty, IsSame};
ghost use Rattle.desk_edge.specs.Faults.{CountsFaults};
ghost use Rattle.desk_history.specs.Sound.{Sound};
ghost use Rattle.desk_model.specs.Lists.{Lists};
ghost use Rattle.desk_records.specs.Records.{tables_content};
ghost use Rattle.desk_report.specs.File.{IsFileOf};
ghost use Rattle.desk_report.specs.Imported.{IsDamagedLine, import_limit};

use crate::reading::read_file;
use crate::report_fault::ReportFault;
use desk_edge::{KeepFault, Keeper, Link};
use desk_records::puts;
use std::alloc::Global;

/// Reads the link to its end as an export file, puts its records into the store, which has none before, in one commit, and answers
/// how many there are. An input without bytes puts nothing in. Held are the records, the tables that have them, and the line that is
/// being read.
///
/// The faults of the input are tried in this order. `NotEmpty`: the store has a record already, and nothing was read. `TooLong`: more
/// than 268,435,456 bytes came; nothing past the first of them too many was read. `Damaged`: the bytes aren't the export file of any
/// sound tables. Further, `KeeperFault`: the store refused a call. `LinkFault`: the link refused one. `OutOfMemory`: none was left
/// for the records. After a refusal the store is as it was.
pub fn import<K: Keeper, L: Link>(
    alloc: Global,
    keeper: &mut K,
    link: &mut L,
) -> Result<u64, ReportFault>
    ensures file { IfOk result (λ number. (bytes : List ℕ) × Consumes (L.unread link.old) (L.unread link.new) bytes
        × IsAtEnd (L.unread link.new) × (length bytes ≤ import_limit)
        × (t : Lists) × Sound t × IsFileOf t number bytes × (K.Tells keeper.new → IsSame (tables_content t) (K.content keeper.new))) }

    // A store that tells what it keeps is refused exactly where it keeps something, unless it fails itself or memory does.
    ensures not_empty { result ≡ Err ReportFault.NotEmpty → K.Tells keeper.new → IsEmpty (K.content keeper.old) → ⊥ }
    ensures empty { result ≢ Err ReportFault.NotEmpty → result ≢ Err ReportFault.KeeperFault → result ≢ Err ReportFault.OutOfMemory
        → K.Tells keeper.new → IsEmpty (K.content keeper.old) }
    ensures not_read { result ≡ Err ReportFault.NotEmpty → link.new ≡ link.old }
    ensures too_long { result ≡ Err ReportFault.TooLong → (bytes : List ℕ) × Consumes (L.unread link.old) (L.unread link.new) bytes
        × (length bytes ≡ import_limit + 1) }
    ensures damaged { (line : ℕ) → result ≡ Err (ReportFault.Damaged line)
        → (bytes : List ℕ) × Consumes (L.unread link.old) (L.unread link.new) bytes
        × IsAtEnd (L.unread link.new) × (length bytes ≤ import_limit) × IsDamagedLine bytes line }
    ensures taken { (bytes : List ℕ) × Consumes (L.unread link.old) (L.unread link.new) bytes × (length bytes ≤ import_limit + 1) }
    ensures err { OnErr result (K.Tells keeper.new → IsSame (K.content keeper.old) (K.content keeper.new)) }
    ensures told { K.Tells keeper.new → K.Tells keeper.old }
    ensures output_stays { L.written link.new ≡ L.written link.old }
    ensures keeper_faults { CountsFaults (IsErrOf result ReportFault.KeeperFault) (K.faults keeper.old) (K.faults keeper.new) }
    ensures link_faults { CountsFaults (IsErrOf result ReportFault.LinkFault) (L.faults link.old) (L.faults link.new) }
{
    if !is_empty(alloc, keeper)? {
        return Err(ReportFault::NotEmpty);
    }
    let records = match read_file(alloc, link) {
        Ok(records) => records,
        Err(fault) => return Err(fault),
    };
    let number = records.len() as u64;
    let changes = puts(alloc, records)?;
    keeper.commit(alloc, changes.as_slice())?;
    Ok(number)
}

/// Whether the store has no record.
fn is_empty<K: Keeper>(alloc: Global, keeper: &mut K) -> Result<bool, KeepFault>
    ensures yes { IfOk result (λ is. is ≡ true → K.Tells keeper.new → IsEmpty (K.content keeper.new)) }
    ensures no { IfOk result (λ is. is ≡ false → K.Tells keeper.new → IsEmpty (K.content keeper.new) → ⊥) }
    ensures told { K.Tells keeper.new → K.Tells keeper.old }
    ensures stays { K.Tells keeper.new → IsSame (K.content keeper.old) (K.content keeper.new) }
    ensures faults { CountsFaults (IsErrOf result KeepFault.Failed) (K.faults keeper.old) (K.faults keeper.new) }
{
    match keeper.next_record(alloc, None)? {
        Some(_) => Ok(false),
        None => Ok(true),
    }
}
