ghost use Rattle.std.specs.Prelude.{◌≡◌, ◌≢◌, [], ◌∷◌, ◌++◌, List, Err, IfErr, IfOk};
ghost use Rattle.desk_edge.specs.Content.{IsSame, key_cmp, key_of};
ghost use Rattle.desk_edge.specs.declared.record.Record.{Record};
ghost use Rattle.desk_history.specs.Sound.{Sound};
ghost use Rattle.desk_model.specs.Lists.{Lists};
ghost use Rattle.desk_records.specs.Damage.{AreOfNoTables, AreTablesOf};
ghost use Rattle.desk_records.specs.Gathered.{IsGatheredOf, NamesDamage};
ghost use Rattle.desk_records.specs.Records.{TakesMemory, content_in, tables_content};
ghost use Rattle.desk_rows.specs.Rows.{IsByKey};

use crate::RecordFault;
use crate::gather_fault::GatherFault;
use crate::gathering::{put_record, sound_tables};
use crate::record_key::into_key;
use desk_edge::{Key, Record};
use desk_tables::{Gathering, Tables};
use desk_text::OutOfMemory;
use std::alloc::Global;

/// What is made of records one after the other, so that none of them is held.
#[derive(Drop)]
pub enum GatheredRecords {
    /// Each record is a row's, and these are the tables of the rows.
    Tables(Gathering),
    /// The record under this key is of another version than those of rows. What follows it isn't looked at.
    OtherVersion(Key),
    /// The record under this key is of their version, and no row has it. What follows it isn't looked at.
    NoRow(Key),
}

impl GatheredRecords {
    /// What is made of no records. It takes no memory.
    #[tactic(auto, using(crate::proofs::Gatherings::no_tables), unfolding(crate::specs::Gathered::IsGatheredOf))]
    pub fn start(alloc: Global) -> GatheredRecords
        ensures { IsGatheredOf [] result }
    {
        GatheredRecords::Tables(Gathering::new(alloc))
    }

    /// With one record more behind.
    ///
    /// `OutOfMemory`: there was no memory to read the record or to put its row in. Where no row has a record that came before none is
    /// taken.
    #[tactic(auto, using(crate::proofs::Gatherings::other_version_later, crate::proofs::Gatherings::no_row_later), unfolding(crate::specs::Gathered::IsGatheredOf))]
    pub fn with_record(self, alloc: Global, kept: Record) -> Result<GatheredRecords, OutOfMemory>
        ensures gathered { IfOk result (λ gathered. (records : List Record) → IsGatheredOf records self → IsGatheredOf (records ++ kept ∷ []) gathered) }
        ensures memory { IfErr result (λ _. TakesMemory kept × ((tables : Lists) × (self ≡ GatheredRecords.Tables tables))) }
    {
        match self {
            GatheredRecords::Tables(tables) => with_row(alloc, tables, kept),
            GatheredRecords::OtherVersion(key) => Ok(GatheredRecords::OtherVersion(key)),
            GatheredRecords::NoRow(key) => Ok(GatheredRecords::NoRow(key)),
        }
    }

    /// The sound tables that have the records.
    ///
    /// `OtherVersion`, `NoRow`, `Unsound`: no sound tables have them; it names the first record that no row has, or a row that breaks a
    /// clause of soundness. `OutOfMemory`: none was left to find out whether the tables are sound.
    pub fn into_tables(self, alloc: Global) -> Result<Tables, GatherFault>
        ensures sound { IfOk result (λ tables. Sound tables.lists) }
        ensures same { IfOk result (λ tables. (records : List Record) → IsByKey key_of key_cmp records → IsGatheredOf records self
            → IsSame (content_in records) (tables_content tables.lists)) }
        ensures told { IfErr result (λ fault. (records : List Record) → IsByKey key_of key_cmp records → IsGatheredOf records self
            → NamesDamage records fault) }
        ensures not_sound { IfErr result (λ fault. fault ≢ GatherFault.OutOfMemory
            → (records : List Record) → IsByKey key_of key_cmp records → IsGatheredOf records self → AreOfNoTables records) }

        // That no row has a record is always told, and without memory.
        ensures of_tables { IfOk result (λ _. (tables : Lists) × (self ≡ GatheredRecords.Tables tables)) }
        ensures memory { result ≡ Err GatherFault.OutOfMemory → (tables : Lists) × (self ≡ GatheredRecords.Tables tables) }
    {
        match self {
            GatheredRecords::Tables(gathering) => match sound_tables(alloc, gathering) {
                Ok(tables) => Ok(tables),
                Err(fault) => Err(fault.into()),
            },
            GatheredRecords::OtherVersion(key) => Err(GatherFault::OtherVersion(key)),
            GatheredRecords::NoRow(key) => Err(GatherFault::NoRow(key)),
        }
    }
}

/// With the row that has this record, if one does.
#[tactic(auto, using(crate::proofs::Gatherings::other_version_last, crate::proofs::Gatherings::no_row_last), unfolding(crate::specs::Gathered::IsGatheredOf))]
fn with_row(alloc: Global, tables: Gathering, kept: Record) -> Result<GatheredRecords, OutOfMemory>
    ensures gathered { IfOk result (λ gathered. (records : List Record) → AreTablesOf records tables → IsGatheredOf (records ++ kept ∷ []) gathered) }
    ensures memory { IfErr result (λ _. TakesMemory kept) }
{
    let mut tables = tables;
    match put_record(alloc, &mut tables, &kept) {
        Ok(()) => Ok(GatheredRecords::Tables(tables)),
        Err(RecordFault::Version) => Ok(GatheredRecords::OtherVersion(into_key(kept))),
        Err(RecordFault::Shape) => Ok(GatheredRecords::NoRow(into_key(kept))),
        Err(RecordFault::OutOfMemory) => Err(OutOfMemory),
    }
}
