ghost use Rattle.std.specs.Prelude.{◌≡◌, ◌≢◌, ℕ, ◌+◌, ◌≤◌, List, length, Err, IfOk, IsErrOf};
ghost use Rattle.std.specs.Io.KnownBytes.{Consumes, IsAtEnd};
ghost use Rattle.desk_edge.specs.Content.{IsSame};
ghost use Rattle.desk_edge.specs.Faults.{CountsFaults};
ghost use Rattle.desk_history.specs.Sound.{Sound};
ghost use Rattle.desk_model.specs.Lists.{Lists};
ghost use Rattle.desk_records.specs.Records.{content_in, tables_content};
ghost use Rattle.desk_report.specs.Imported.{IsDamagedLine, IsRead, import_limit};
ghost use Rattle.desk_report.specs.ReadLines.{AreLinesOf};

use crate::good_lines::GoodLines;
use crate::lines::Lines;
use crate::report_fault::ReportFault;
use desk_edge::{Link, Record};
use std::alloc::Global;

/// The most bytes of an export file that is read.
const IMPORT_LIMIT: usize = 268_435_456;

/// How many bytes one call asks a link for.
const CHUNK: usize = 8192;

/// The records of the export file that the link gives, which are those of sound tables.
///
/// `TooLong`, `Damaged`: of the input, tried in this order. `LinkFault`: the link refused a call. `OutOfMemory`: none was left for the
/// records.
pub(crate) fn read_file<L: Link>(alloc: Global, link: &mut L) -> Result<Vec<Record>, ReportFault>
    ensures file { IfOk result (λ records. IsRead (L.unread link.old) (L.unread link.new) records.items) }
    ensures sound { IfOk result (λ records. (t : Lists) × Sound t × IsSame (tables_content t) (content_in records.items)) }
    ensures too_long { result ≡ Err ReportFault.TooLong → (bytes : List ℕ) × Consumes (L.unread link.old) (L.unread link.new) bytes
        × (length bytes ≡ import_limit + 1) }
    ensures damaged { (line : ℕ) → result ≡ Err (ReportFault.Damaged line)
        → (bytes : List ℕ) × Consumes (L.unread link.old) (L.unread link.new) bytes
        × IsAtEnd (L.unread link.new) × (length bytes ≤ import_limit) × IsDamagedLine bytes line }
    ensures taken { (bytes : List ℕ) × Consumes (L.unread link.old) (L.unread link.new) bytes × (length bytes ≤ import_limit + 1) }
    ensures causes { (result ≢ Err ReportFault.KeeperFault) × (result ≢ Err ReportFault.NotEmpty) }
    ensures output_stays { L.written link.new ≡ L.written link.old }
    ensures faults { CountsFaults (IsErrOf result ReportFault.LinkFault) (L.faults link.old) (L.faults link.new) }
{
    match read_lines(alloc, link) {
        Ok(Lines::Good(good)) => good.into_records(alloc),
        Ok(Lines::Bad(line)) => Err(ReportFault::Damaged { line }),
        Err(fault) => Err(fault),
    }
}

/// Reads the link to its end, or until one byte too many has come, and takes the lines as they come.
///
/// `TooLong`: more bytes came than are read. `LinkFault`: the link refused a call. `OutOfMemory`: none was left for the lines.
fn read_lines<L: Link>(alloc: Global, link: &mut L) -> Result<Lines, ReportFault>
    ensures lines { IfOk result (λ lines. (bytes : List ℕ) × Consumes (L.unread link.old) (L.unread link.new) bytes
        × IsAtEnd (L.unread link.new) × (length bytes ≤ import_limit) × AreLinesOf bytes lines) }
    ensures too_long { result ≡ Err ReportFault.TooLong → (bytes : List ℕ) × Consumes (L.unread link.old) (L.unread link.new) bytes
        × (length bytes ≡ import_limit + 1) }
    ensures taken { (bytes : List ℕ) × Consumes (L.unread link.old) (L.unread link.new) bytes × (length bytes ≤ import_limit + 1) }
    ensures causes { (result ≢ Err ReportFault.KeeperFault) × (result ≢ Err ReportFault.NotEmpty) }
    ensures undamaged { (n : ℕ) → result ≢ Err (ReportFault.Damaged n) }
    ensures output_stays { L.written link.new ≡ L.written link.old }
    ensures faults { CountsFaults (IsErrOf result ReportFault.LinkFault) (L.faults link.old) (L.faults link.new) }
{
    let mut lines = Lines::Good(GoodLines::start(alloc));
    let mut chunk = [0; CHUNK];
    let mut left = IMPORT_LIMIT + 1;
    'reading: while left > 0 {
        let wanted = left.min(CHUNK);
        let given = link.read(&mut chunk[..wanted])?;
        if given == 0 {
            return Ok(lines);
        }
        lines = lines.with_bytes(alloc, &chunk[..given])?;
        left -= given;
    }
    Err(ReportFault::TooLong)
}
