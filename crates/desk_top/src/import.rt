ghost use Rattle.std.specs.Prelude.{◌≡◌, ◌≢◌, ◌⊎◌, ℕ, ◌≤◌, List};
ghost use Rattle.desk_edge.specs.Faults.{Rose};
ghost use Rattle.desk_top.specs.Answer.{Answers, answer_to_import, answer_to_damaged_line, status_code};
ghost use Rattle.desk_top.specs.Console.{TellsFaults, console_step};
ghost use Rattle.desk_top.specs.Import.{EndsImport};
ghost use Rattle.desk_top.specs.Store.{IsKept, OnStore, shelf_step};

use crate::status::Status;
use crate::store::open_store;
use crate::tell::{answer_no_memory, answer_store_fault, tell, write_numbered};
use desk_edge::{Keeper, Link, Shelf};
use desk_report::{ReportFault, import};
use desk_words::Import;
use std::alloc::Global;

/// Fills an empty store with the records that an export wrote, which are read from the console, in one commit. The store is given back.
///
/// 3 the console counted a fault. 4 the store refused a call. 6 the store keeps something, or the input is too long or no export file of
/// sound tables; the line tells which. 8 there was no memory. But for the status 0, and for 3 where the line for it failed, the store
/// is as it was.
pub fn answer_import<L: Link, S: Shelf>(
    alloc: Global,
    asked: &Import,
    console: &mut L,
    shelf: &mut S,
) -> Status
    ensures stored { OnStore (shelf_step S.Tells S.content S.count S.faults shelf.old shelf.new)
        EndsImport asked.now.store (status_code result)
        (console_step L.unread L.written L.faults console.old console.new) }
    ensures others { (other : List ℕ) → other ≢ asked.now.store → IsKept (shelf_step S.Tells S.content S.count S.faults shelf.old shelf.new) other }
    ensures words { result ≢ Status.BadWords }
    ensures faults { TellsFaults (result ≡ Status.Done) (result ≡ Status.ConsoleFault) (L.faults console.old) (L.faults console.new) }
{
    let name = asked.store.as_slice();
    let mut store = match open_store(alloc, name, console, shelf) {
        Ok(store) => store,
        Err(status) => return status,
    };
    let status = fill(alloc, &mut store, console);
    shelf.close_store(name, store);
    status
}

/// Fills an empty store from the console, and writes what became of it.
fn fill<K: Keeper, L: Link>(alloc: Global, keeper: &mut K, console: &mut L) -> Status
    requires { K.faults keeper.old ≡ 0 }
    ensures ends { EndsImport (K.Tells keeper.new) (K.content keeper.old) (K.content keeper.new) (K.faults keeper.new) (status_code result)
        (console_step L.unread L.written L.faults console.old console.new) }
    ensures told { K.Tells keeper.new → K.Tells keeper.old }
    ensures words { result ≢ Status.BadWords }
    ensures faults { TellsFaults (result ≡ Status.Done) (result ≡ Status.ConsoleFault) (L.faults console.old) (L.faults console.new) }
{
    match import(alloc, keeper, console) {
        Ok(number) => answer_imported(number, console),
        Err(ReportFault::NotEmpty) => tell(console, Status::Refused, b"refused not-empty\n"),
        Err(ReportFault::TooLong) => tell(console, Status::Refused, b"refused input-too-long\n"),
        Err(ReportFault::Damaged { line }) => answer_damaged_line(line, console),
        Err(ReportFault::KeeperFault) => answer_store_fault(console),
        Err(ReportFault::LinkFault) => Status::ConsoleFault,
        Err(ReportFault::OutOfMemory) => answer_no_memory(console),
    }
}

/// Writes how many records were put in. It takes no memory, so that what was done is told.
fn answer_imported<L: Link>(number: u64, console: &mut L) -> Status
    ensures answer { Answers (answer_to_import number) (status_code result)
        (L.written console.old) (L.written console.new) (Rose (L.faults console.old) (L.faults console.new)) }
    ensures status { (result ≡ Status.Done) ⊎ (result ≡ Status.ConsoleFault) }
    ensures input_stays { L.unread console.new ≡ L.unread console.old }
    ensures faults { TellsFaults (result ≡ Status.Done) (result ≡ Status.ConsoleFault) (L.faults console.old) (L.faults console.new) }
{
    match write_numbered(console, b"imported ", number) {
        Ok(()) => Status::Done,
        Err(_) => Status::ConsoleFault,
    }
}

/// Writes the number of the first line that is damaged.
fn answer_damaged_line<L: Link>(line: u64, console: &mut L) -> Status
    ensures status { result ≡ Status.Refused }
    ensures answer { Answers (answer_to_damaged_line line) (status_code result)
        (L.written console.old) (L.written console.new) (Rose (L.faults console.old) (L.faults console.new)) }
    ensures input_stays { L.unread console.new ≡ L.unread console.old }
    ensures never_falls { L.faults console.old ≤ L.faults console.new }
{
    // Whoever reads the line may be gone: the status tells as much.
    let _ = write_numbered(console, b"refused damaged line ", line);
    Status::Refused
}
