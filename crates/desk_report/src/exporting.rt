ghost use Rattle.std.specs.Prelude.{◌≡◌, ◌≢◌, ℕ, List, length, Err, IfOk, IsErrOf, OnErr, OnOk};
ghost use Rattle.std.specs.Io.KnownBytes.{Appends};
ghost use Rattle.desk_edge.specs.Content.{HaveDistinctKeys};
ghost use Rattle.desk_edge.specs.Faults.{CountsFaults};
ghost use Rattle.desk_edge.specs.Transfer.{AppendsBeginning};
ghost use Rattle.desk_history.specs.Sound.{Sound};
ghost use Rattle.desk_report.specs.File.{IsFileOf, table_at};
ghost use Rattle.desk_report.specs.Lines.{record_lines, sorted};

use crate::line::lines_of;
use crate::report_fault::ReportFault;
use crate::table_records::table_records;
use desk_edge::{Link, Record, write_all};
use desk_model::TableName;
use desk_rows::Keyed;
use desk_tables::Tables;
use std::alloc::Global;

/// How many tables a desk has.
const TABLES: usize = TableName::ALL.len();

/// How many lines are written at once, at most.
const LINES: usize = 64;

/// Writes the export file of the tables: a line for each record, in the order of kind and code bytes, and answers how many there are.
/// The records of one table at a time are held, and the lines of 64 of them, which are written at once.
///
/// `LinkFault`: the link refused a call. `OutOfMemory`: none was left for the records of a table or for a line. After a fault a
/// beginning of the file is written.
pub fn export<L: Link>(alloc: Global, tables: &Tables, link: &mut L) -> Result<u64, ReportFault>
    requires sound { Sound tables.now.lists }
    ensures file { IfOk result (λ number. (bytes : List ℕ) × IsFileOf tables.now.lists number bytes
        × Appends (L.written link.old) (L.written link.new) bytes) }
    ensures beginning { OnErr result ((number : ℕ) × (bytes : List ℕ) × IsFileOf tables.now.lists number bytes
        × AppendsBeginning (L.written link.old) (L.written link.new) bytes) }
    ensures causes { (result ≢ Err ReportFault.KeeperFault) × (result ≢ Err ReportFault.NotEmpty) × (result ≢ Err ReportFault.TooLong) }
    ensures undamaged { (n : ℕ) → result ≢ Err (ReportFault.Damaged n) }
    ensures input_stays { L.unread link.new ≡ L.unread link.old }
    ensures faults { CountsFaults (IsErrOf result ReportFault.LinkFault) (L.faults link.old) (L.faults link.new) }
{
    let mut number = 0;
    for place in 0..TABLES {
        number += write_table(alloc, tables, place, link)?;
    }
    Ok(number)
}

/// Writes the lines of the table at this place in the order of their keys, and answers how many there are. After a fault a beginning
/// of them is written.
fn write_table<L: Link>(
    alloc: Global,
    tables: &Tables,
    place: usize,
    link: &mut L,
) -> Result<u64, ReportFault>
    requires { HaveDistinctKeys (table_at tables.now.lists place) }
    ensures ok { OnOk result (Appends (L.written link.old) (L.written link.new) (record_lines (sorted (table_at tables.now.lists place)))) }
    ensures number { IfOk result (λ number. number ≡ length (sorted (table_at tables.now.lists place))) }
    ensures beginning { OnErr result (AppendsBeginning (L.written link.old) (L.written link.new) (record_lines (sorted (table_at tables.now.lists place)))) }
    ensures causes { (result ≢ Err ReportFault.KeeperFault) × (result ≢ Err ReportFault.NotEmpty) × (result ≢ Err ReportFault.TooLong) }
    ensures undamaged { (n : ℕ) → result ≢ Err (ReportFault.Damaged n) }
    ensures input_stays { L.unread link.new ≡ L.unread link.old }
    ensures faults { CountsFaults (IsErrOf result ReportFault.LinkFault) (L.faults link.old) (L.faults link.new) }
{
    let records = in_order(table_records(alloc, tables, place)?);
    write_lines(alloc, records.as_slice(), link)?;
    Ok(records.len() as u64)
}

/// The records in the order of their keys.
fn in_order(records: Vec<Record>) -> Vec<Record>
    requires { HaveDistinctKeys records.items }
    ensures { result.items ≡ sorted records.items }
{
    let mut records = records;
    records.sort_unstable_by(|a, b| a.compare_row(b));
    records
}

/// Writes the lines of the records. After a fault a beginning of them is written.
fn write_lines<L: Link>(alloc: Global, records: &[Record], link: &mut L) -> Result<(), ReportFault>
    ensures ok { OnOk result (Appends (L.written link.old) (L.written link.new) (record_lines records.now)) }
    ensures beginning { OnErr result (AppendsBeginning (L.written link.old) (L.written link.new) (record_lines records.now)) }
    ensures causes { (result ≢ Err ReportFault.KeeperFault) × (result ≢ Err ReportFault.NotEmpty) × (result ≢ Err ReportFault.TooLong) }
    ensures undamaged { (n : ℕ) → result ≢ Err (ReportFault.Damaged n) }
    ensures input_stays { L.unread link.new ≡ L.unread link.old }
    ensures faults { CountsFaults (IsErrOf result ReportFault.LinkFault) (L.faults link.old) (L.faults link.new) }
{
    for few in records.chunks(LINES) {
        write_few(alloc, few, link)?;
    }
    Ok(())
}

/// Writes the lines of a few records at once. After a fault a beginning of them is written.
fn write_few<L: Link>(alloc: Global, records: &[Record], link: &mut L) -> Result<(), ReportFault>
    ensures ok { OnOk result (Appends (L.written link.old) (L.written link.new) (record_lines records.now)) }
    ensures beginning { AppendsBeginning (L.written link.old) (L.written link.new) (record_lines records.now) }
    ensures causes { (result ≢ Err ReportFault.KeeperFault) × (result ≢ Err ReportFault.NotEmpty) × (result ≢ Err ReportFault.TooLong) }
    ensures undamaged { (n : ℕ) → result ≢ Err (ReportFault.Damaged n) }
    ensures input_stays { L.unread link.new ≡ L.unread link.old }
    ensures faults { CountsFaults (IsErrOf result ReportFault.LinkFault) (L.faults link.old) (L.faults link.new) }
{
    let lines = lines_of(alloc, records)?;
    write_all(link, lines.as_slice())?;
    Ok(())
}
