ghost use Rattle.std.specs.Prelude.{◌≡◌, ◌≢◌, ℕ, List, true};
ghost use Rattle.desk_text.specs.Day.{is_askable};
ghost use Rattle.desk_top.specs.Answer.{status_code};
ghost use Rattle.desk_top.specs.Console.{TellsFaults, console_step};
ghost use Rattle.desk_top.specs.Reports.{EndsAudit};
ghost use Rattle.desk_top.specs.Store.{IsKept, OnStore, shelf_step};

use crate::status::Status;
use crate::store::open_desk;
use crate::summary::answer_summary;
use desk_edge::{Link, Shelf};
use desk_words::Audit;
use std::alloc::Global;

/// Writes the summary of a store's desk on a day to the console. The store is given back as it was opened: an empty one keeps the start
/// tables.
///
/// 3 the console counted a fault. 4 the store refused a call, and 5 its records aren't those of sound tables. 8 there was no memory.
pub fn answer_audit<L: Link, S: Shelf>(
    alloc: Global,
    asked: &Audit,
    console: &mut L,
    shelf: &mut S,
) -> Status
    requires { is_askable asked.now.day ≡ true }
    ensures stored { OnStore (shelf_step S.Tells S.content S.count S.faults shelf.old shelf.new)
        (EndsAudit asked.now.day) asked.now.store (status_code result)
        (console_step L.unread L.written L.faults console.old console.new) }
    ensures others { (other : List ℕ) → other ≢ asked.now.store → IsKept (shelf_step S.Tells S.content S.count S.faults shelf.old shelf.new) other }
    ensures words { result ≢ Status.BadWords }
    ensures faults { TellsFaults (result ≡ Status.Done) (result ≡ Status.ConsoleFault) (L.faults console.old) (L.faults console.new) }
{
    let name = asked.store.as_slice();
    let desk = match open_desk(alloc, name, console, shelf) {
        Ok(desk) => desk,
        Err(status) => return status,
    };
    let status = answer_summary(alloc, desk.engine(), asked.day, console);
    shelf.close_store(name, desk.close());
    status
}
