ghost use Rattle.std.specs.Prelude.{◌≡◌, ◌≢◌, ℕ, ◌+◌, [], ◌∷◌, ◌++◌, Err, IfNone, IfOk, IfSome, List, length};
ghost use Rattle.desk_edge.specs.Content.{IsSame, key_cmp, key_of};
ghost use Rattle.desk_history.specs.Sound.{Sound};
ghost use Rattle.desk_model.specs.Lists.{Lists};
ghost use Rattle.desk_records.specs.Records.{content_in, tables_content};
ghost use Rattle.desk_report.specs.Imported.{IsDamagedLine};
ghost use Rattle.desk_report.specs.Reading.{HasBadLine, HasNoLineEnd, IsReadTo};
ghost use Rattle.desk_rows.specs.Rows.{IsByKey};

use crate::next_record::next_record;
use crate::report_fault::ReportFault;
use desk_edge::Record;
use desk_records::{RecordFault, put_record, sound_tables};
use desk_tables::{Gathering, SoundFault};
use desk_text::{Bytes, OutOfMemory};
use std::alloc::Global;
use std::marker::Model;

/// Lines of rows' records, whose keys rise, the tables that have these records, and the beginning of one more line.
pub(crate) struct GoodLines {
    records: Vec<Record>,
    tables: Gathering,
    held: Bytes,
}

// Written out, so that a function that owns one does not prove anew how each part is dropped.
impl Drop for GoodLines {
    fn drop(self) {
        let GoodLines {
            records: _,
            tables: _,
            held: _,
        } = self;
    }
}

impl Model for GoodLines {
    ghost use Rattle.desk_edge.specs.Content.{key_cmp, key_of};
    ghost use Rattle.desk_records.specs.Damage.{AreTablesOf};
    ghost use Rattle.desk_report.specs.Reading.{GoodRead, HasNoLineEnd};
    ghost use Rattle.desk_rows.specs.Rows.{IsByKey};

    ghost Value = { GoodRead };

    ghost view = { λ good. record { records = good.records.items; tables = good.tables; held = good.held } };

    ghost invariant = { λ good. IsByKey key_of key_cmp good.records.items
        × AreTablesOf good.records.items good.tables
        × HasNoLineEnd good.held };
}

impl GoodLines {
    /// No lines.
    pub(crate) fn start(alloc: Global) -> GoodLines
        ensures { IsReadTo [] result }
    {
        GoodLines {
            records: Vec::new(alloc),
            tables: Gathering::new(alloc),
            held: Bytes::start(alloc),
        }
    }

    /// With more bytes of the line that isn't whole.
    pub(crate) fn with_held(self, bytes: &[u8]) -> Result<GoodLines, OutOfMemory>
        requires { HasNoLineEnd bytes.now }
        ensures { IfOk result (λ good. (read : List ℕ) → IsReadTo read self → IsReadTo (read ++ bytes.now) good) }
    {
        let mut good = self;
        good.held.push_all(bytes)?;
        Ok(good)
    }

    /// The number of the line that isn't whole, counted from 1.
    pub(crate) fn next_number(&self) -> u64
        ensures { result ≡ length self.now.records + 1 }
    {
        self.records.len() as u64 + 1
    }

    /// With LF behind the line that is held, if that is a good line then.
    pub(crate) fn with_line(self, alloc: Global) -> Result<Option<GoodLines>, OutOfMemory>
        ensures some { IfOk result (λ found. IfSome found (λ good. (read : List ℕ) → IsReadTo read self → IsReadTo (read ++ 10 ∷ []) good)) }
        ensures none { IfOk result (λ found. IfNone found ((read : List ℕ) → IsReadTo read self
            → HasBadLine (read ++ 10 ∷ []) (length self.records + 1))) }
    {
        let GoodLines {
            records,
            tables,
            held,
        } = self;
        let (mut records, mut tables) = (records, tables);
        let Some(kept) = next_record(alloc, records.as_slice(), held.as_slice())? else {
            return Ok(None);
        };
        match put_record(alloc, &mut tables, &kept) {
            Ok(()) => {
                records.push(kept)?;
                Ok(Some(GoodLines {
                    records,
                    tables,
                    held: Bytes::start(alloc),
                }))
            }
            Err(RecordFault::Version) => Ok(None),
            Err(RecordFault::Shape) => Ok(None),
            Err(RecordFault::OutOfMemory) => Err(OutOfMemory),
        }
    }

    /// The records of the lines, at the end of the input: no line is begun, and the records are those of sound tables.
    ///
    /// `Damaged`: by the number of the line that is begun, or by 0 where none is and no sound tables have the records.
    /// `OutOfMemory`: none was left to find out.
    pub(crate) fn into_records(self, alloc: Global) -> Result<Vec<Record>, ReportFault>
        ensures records { IfOk result (λ records. (records.items ≡ self.records) × (self.held ≡ [])
            × IsByKey key_of key_cmp records.items) }
        ensures sound { IfOk result (λ records. (t : Lists) × Sound t × IsSame (tables_content t) (content_in records.items)) }
        ensures damaged { (line : ℕ) → result ≡ Err (ReportFault.Damaged line)
            → (bytes : List ℕ) → IsReadTo bytes self → IsDamagedLine bytes line }
        ensures causes { (result ≢ Err ReportFault.KeeperFault) × (result ≢ Err ReportFault.LinkFault)
            × (result ≢ Err ReportFault.NotEmpty) × (result ≢ Err ReportFault.TooLong) }

        // That a line is begun is told without memory.
        ensures memory { result ≡ Err ReportFault.OutOfMemory → self.held ≡ [] }
    {
        let GoodLines {
            records,
            tables,
            held,
        } = self;
        if !held.is_empty() {
            return Err(ReportFault::Damaged {
                line: records.len() as u64 + 1,
            });
        }
        match sound_tables(alloc, tables) {
            Ok(_) => Ok(records),
            Err(SoundFault::Unsound { .. }) => Err(ReportFault::Damaged { line: 0 }),
            Err(SoundFault::OutOfMemory) => Err(ReportFault::OutOfMemory),
        }
    }
}
