ghost use Rattle.std.specs.Prelude.{◌≡◌, [], ◌∷◌, ◌++◌, ℕ, List, Err, IfOk, OnErr, OnOk};
ghost use Rattle.desk_edge.specs.Content.{IsSame, key_cmp, key_of};
ghost use Rattle.desk_edge.specs.declared.record.Record.{Record};
ghost use Rattle.desk_history.specs.Sound.{Sound};
ghost use Rattle.desk_records.specs.Damage.{AreOfNoTables, AreTablesOf, IsUnsoundAt};
ghost use Rattle.desk_records.specs.Records.{HasNoRow, IsOfOtherVersion, TakesMemory, content_in, tables_content};
ghost use Rattle.desk_rows.specs.Rows.{IsByKey};

use crate::RecordFault;
use crate::row_record::read_record;
use desk_edge::Record;
use desk_tables::{Gathering, SoundFault, Tables};
use std::alloc::Global;

/// Puts the row that has this record into the tables.
///
/// `Version`: the record is of another version than those of rows. `Shape`: it is of theirs, and no row has it. `OutOfMemory`: there was
/// no memory to read it or to put its row in; it comes only behind the version, and where rows of its kind hold no texts or lists only
/// for a row that is there. After a refusal the tables are as they were.
#[tactic(auto, using(crate::proofs::Gatherings::one_table_more))]
pub fn put_record(alloc: Global, tables: &mut Gathering, kept: &Record) -> Result<(), RecordFault>
    ensures ok { OnOk result ((records : List Record) → AreTablesOf records tables.old → AreTablesOf (records ++ kept.now ∷ []) tables.new) }
    ensures err { OnErr result (tables.new ≡ tables.old) }
    ensures version { result ≡ Err RecordFault.Version → IsOfOtherVersion kept.now }
    ensures shape { result ≡ Err RecordFault.Shape → HasNoRow kept.now }
    ensures memory { result ≡ Err RecordFault.OutOfMemory → TakesMemory kept.now }
{
    let row = match read_record(alloc, kept) {
        Ok(row) => row,
        Err(fault) => return Err(fault),
    };
    match tables.put(row) {
        Ok(()) => Ok(()),
        Err(_) => Err(RecordFault::OutOfMemory),
    }
}

/// The tables that were gathered of records, if they are sound.
///
/// `Unsound`: they aren't, and no sound tables have the records; it names a row that breaks a clause of soundness. `OutOfMemory`: none
/// was left to find out.
pub fn sound_tables(alloc: Global, gathering: Gathering) -> Result<Tables, SoundFault>
    ensures sound { IfOk result (λ tables. Sound tables.lists) }
    ensures same { IfOk result (λ tables. (records : List Record) → IsByKey key_of key_cmp records → AreTablesOf records gathering
        → IsSame (content_in records) (tables_content tables.lists)) }
    ensures told { (kind : ℕ) (code : List ℕ) → result ≡ Err (SoundFault.Unsound kind code)
        → (records : List Record) → IsByKey key_of key_cmp records → AreTablesOf records gathering → IsUnsoundAt records kind code }
    ensures not_sound { (kind : ℕ) (code : List ℕ) → result ≡ Err (SoundFault.Unsound kind code)
        → (records : List Record) → IsByKey key_of key_cmp records → AreTablesOf records gathering → AreOfNoTables records }
{
    let tables = gathering.into_tables();
    // The call does nothing but say that the lists stand in order.
    tables.in_order();
    match tables.is_sound(alloc) {
        Ok(()) => Ok(tables),
        Err(fault) => Err(fault),
    }
}
