ghost use Rattle.std.specs.Prelude.{◌≡◌, ◌≢◌, ◌+◌, ℕ, List, Err, IfOk, IsErrOf, OnErr};
ghost use Rattle.desk_clerk.specs.Opening.{IsDamagedAt, IsOpenedAs};
ghost use Rattle.desk_edge.specs.Content.{IsEmpty, IsSame, key_cmp, key_of};
ghost use Rattle.desk_edge.specs.Faults.{CountsFaults};
ghost use Rattle.desk_edge.specs.declared.record.Record.{Record};
ghost use Rattle.desk_engine.specs.Engine.{lists_of};
ghost use Rattle.desk_history.specs.Sound.{Sound};
ghost use Rattle.desk_model.specs.Lists.{Lists};
ghost use Rattle.desk_model.specs.Start.{start};
ghost use Rattle.desk_records.specs.Damage.{AreOfNoTables, IsDamage};
ghost use Rattle.desk_records.specs.Gathered.{IsGatheredOf};
ghost use Rattle.desk_records.specs.Records.{content_in, tables_content};
ghost use Rattle.desk_rows.specs.Rows.{IsByKey};

use crate::open_fault::OpenFault;
use crate::reading::read_stored;
use desk_edge::Keeper;
use desk_engine::Engine;
use desk_records::{GatheredRecords, RECORD_LIMIT, puts, records_of};
use desk_tables::Tables;
use desk_text::OutOfMemory;
use std::alloc::Global;

/// An engine of the tables that the keeper is opened as: those of its records, or the start tables, which an empty one is given.
pub(crate) fn open_engine<K: Keeper>(alloc: Global, keeper: &mut K) -> Result<Engine, OpenFault>
    ensures told { K.Tells keeper.new → K.Tells keeper.old }
    ensures sound { IfOk result (λ engine. Sound (lists_of engine)) }
    ensures opened { IfOk result (λ engine. K.Tells keeper.new → IsOpenedAs (K.content keeper.old) (lists_of engine)) }
    ensures kept { IfOk result (λ engine. K.Tells keeper.new → IsSame (tables_content (lists_of engine)) (K.content keeper.new)) }
    ensures err { OnErr result (K.Tells keeper.new → IsSame (K.content keeper.old) (K.content keeper.new)) }
    ensures damaged { (kind : ℕ) (code : List ℕ) → result ≡ Err (OpenFault.Damaged kind code)
        → IsDamagedAt (K.Tells keeper.new) (K.content keeper.old) kind code }
    ensures not_sound { (kind : ℕ) (code : List ℕ) → result ≡ Err (OpenFault.Damaged kind code)
        → K.Tells keeper.new → (t : Lists) → Sound t → IsOpenedAs (K.content keeper.old) t → ⊥ }
    ensures faults { CountsFaults (IsErrOf result OpenFault.KeeperFault) (K.faults keeper.old) (K.faults keeper.new) }
{
    let (number, gathered) = read_stored(alloc, keeper, RECORD_LIMIT + 1)?;
    if number == 0 {
        put_start(alloc, keeper)
    } else {
        engine_of(alloc, gathered)
    }
}

/// An engine of the sound tables that have the records.
///
/// `Damaged`: no sound tables have them; it names a record that no row has, or a row that breaks a clause of soundness. `OutOfMemory`:
/// none was left to find out, or for the engine.
fn engine_of(alloc: Global, gathered: GatheredRecords) -> Result<Engine, OpenFault>
    ensures sound { IfOk result (λ engine. Sound (lists_of engine)) }
    ensures same { IfOk result (λ engine. (records : List Record) → IsByKey key_of key_cmp records → IsGatheredOf records gathered
        → IsSame (content_in records) (tables_content (lists_of engine))) }
    ensures damage { (kind : ℕ) (code : List ℕ) → result ≡ Err (OpenFault.Damaged kind code)
        → (records : List Record) → IsByKey key_of key_cmp records → IsGatheredOf records gathered → IsDamage records kind code }
    ensures not_sound { (kind : ℕ) (code : List ℕ) → result ≡ Err (OpenFault.Damaged kind code)
        → (records : List Record) → IsByKey key_of key_cmp records → IsGatheredOf records gathered → AreOfNoTables records }
    ensures no_fault { result ≢ Err OpenFault.KeeperFault }

    // That no row has a record is told without memory.
    ensures memory { result ≡ Err OpenFault.OutOfMemory → (tables : Lists) × (gathered ≡ GatheredRecords.Tables tables) }
{
    match gathered.into_tables(alloc) {
        Ok(tables) => Ok(Engine::from_sound_tables(alloc, tables)?),
        Err(fault) => Err(fault.into()),
    }
}

/// An engine of the start tables, whose records the keeper is given in one commit.
fn put_start<K: Keeper>(alloc: Global, keeper: &mut K) -> Result<Engine, OpenFault>
    ensures start { IfOk result (λ engine. lists_of engine ≡ start) }
    ensures sound { IfOk result (λ engine. Sound (lists_of engine)) }
    ensures told { K.Tells keeper.new → K.Tells keeper.old }
    ensures kept { IfOk result (λ engine. K.Tells keeper.new → IsEmpty (K.content keeper.old)
        → IsSame (tables_content (lists_of engine)) (K.content keeper.new)) }
    ensures err { OnErr result (K.Tells keeper.new → IsSame (K.content keeper.old) (K.content keeper.new)) }
    ensures undamaged { (kind : ℕ) (code : List ℕ) → result ≢ Err (OpenFault.Damaged kind code) }
    ensures faults { CountsFaults (IsErrOf result OpenFault.KeeperFault) (K.faults keeper.old) (K.faults keeper.new) }
{
    let engine = start_engine(alloc)?;
    let changes = puts(alloc, records_of(alloc, engine.tables())?)?;
    keeper.commit(alloc, changes.as_slice())?;
    Ok(engine)
}

/// An engine of the start tables, which are sound.
pub fn start_engine(alloc: Global) -> Result<Engine, OutOfMemory>
    ensures start { IfOk result (λ engine. lists_of engine ≡ start) }
    ensures sound { IfOk result (λ engine. Sound (lists_of engine)) }
{
    let tables = Tables::start(alloc)?;
    Engine::from_sound_tables(alloc, tables)
}
