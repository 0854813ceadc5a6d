ghost use Rattle.std.specs.Prelude.{◌≡◌, ◌≢◌, ◌⊎◌, ℕ, List};
ghost use Rattle.desk_edge.specs.Faults.{Rose};
ghost use Rattle.desk_history.specs.Sound.{Sound};
ghost use Rattle.desk_top.specs.Answer.{status_code};
ghost use Rattle.desk_top.specs.Console.{TellsFaults, console_step};
ghost use Rattle.desk_top.specs.Reports.{EndsExport, WasExported};
ghost use Rattle.desk_top.specs.Store.{IsKept, OnStore, shelf_step};

use crate::status::Status;
use crate::store::open_desk;
use crate::tell::answer_no_memory;
use desk_edge::{Link, Shelf};
use desk_report::{ReportFault, export};
use desk_tables::Tables;
use desk_words::Export;
use std::alloc::Global;

/// Writes the records of a store's desk to the console, a line each, in the order of their keys. The records of one table at a time
/// are held. The store is given back as it was opened: an empty one keeps the start tables.
///
/// 3 the console counted a fault; a beginning is written. 4 the store refused a call, and 5 its records aren't those of sound tables:
/// then nothing but the line for that is written. 8 there was no memory; where that was wanting in the middle, the line for it stands
/// behind a beginning, so that no import takes it for a whole one.
pub fn answer_export<L: Link, S: Shelf>(
    alloc: Global,
    asked: &Export,
    console: &mut L,
    shelf: &mut S,
) -> Status
    ensures stored { OnStore (shelf_step S.Tells S.content S.count S.faults shelf.old shelf.new)
        EndsExport asked.now.store (status_code result)
        (console_step L.unread L.written L.faults console.old console.new) }
    ensures others { (other : List ℕ) → other ≢ asked.now.store → IsKept (shelf_step S.Tells S.content S.count S.faults shelf.old shelf.new) other }
    ensures words { result ≢ Status.BadWords }
    ensures faults { TellsFaults (result ≡ Status.Done) (result ≡ Status.ConsoleFault) (L.faults console.old) (L.faults console.new) }
{
    let name = asked.store.as_slice();
    let desk = match open_desk(alloc, name, console, shelf) {
        Ok(desk) => desk,
        Err(status) => return status,
    };
    let status = write_export(alloc, desk.tables(), console);
    shelf.close_store(name, desk.close());
    status
}

/// Writes the export file of the tables.
fn write_export<L: Link>(alloc: Global, tables: &Tables, console: &mut L) -> Status
    requires { Sound tables.now.lists }
    ensures written { WasExported tables.now.lists (status_code result) (L.written console.old) (L.written console.new) (Rose (L.faults console.old) (L.faults console.new)) }
    ensures status { (result ≡ Status.Done) ⊎ (result ≡ Status.ConsoleFault) ⊎ (result ≡ Status.OutOfMemory) }
    ensures input_stays { L.unread console.new ≡ L.unread console.old }
    ensures faults { TellsFaults (result ≡ Status.Done) (result ≡ Status.ConsoleFault) (L.faults console.old) (L.faults console.new) }
{
    match export(alloc, tables, console) {
        Ok(_) => Status::Done,
        Err(ReportFault::OutOfMemory) => answer_no_memory(console),
        Err(_) => Status::ConsoleFault,
    }
}
