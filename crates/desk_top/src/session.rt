ghost use Rattle.std.specs.Prelude.{◌≡◌, ◌≢◌, ◌⊎◌, ℕ, List, None, Some};
ghost use Rattle.std.specs.Io.KnownBytes.{Keeps};
ghost use Rattle.desk_clerk.specs.Clerk.{tables_of};
ghost use Rattle.desk_engine.specs.Engine.{lists_of};
ghost use Rattle.desk_edge.specs.Content.{Content, IsSame};
ghost use Rattle.desk_edge.specs.Faults.{Rose};
ghost use Rattle.desk_records.specs.Records.{tables_content};
ghost use Rattle.desk_top.specs.Answer.{Answers, answer_without_memory, status_code};
ghost use Rattle.desk_top.specs.Console.{TellsFaults, console_step};
ghost use Rattle.desk_top.specs.Run.{IsSession, OtherStoresStay};
ghost use Rattle.desk_top.specs.Session.{EndsSession, WasServed, nothing_kept, exit_status_of};
ghost use Rattle.desk_top.specs.Store.{IsKept, OnStore, shelf_step};

use crate::status::Status;
use crate::store::{open_desk, open_keeper};
use crate::sure_keeper::SureKeeper;
use crate::tell::answer_no_memory;
use desk_clerk::{Clerk, DeskBoard, StoredDesk};
use desk_edge::{Keeper, Link, Shelf};
use desk_front::{Served, serve_alone};
use desk_publish::{BlankBook, Naming};
use desk_words::Session;
use std::alloc::Global;
use std::marker::Brand;
use std::sync::Wait;

/// Serves the console's stream of requests over the desk of a store, or over one that ends with the session.
///
/// 0 the input ended between two requests, or a reply has closed the connection. 3 the console counted a fault. 4 the store refused a
/// call before the first request was read, and 5 its records aren't those of sound tables: then nothing is read. 6 the input ended
/// inside a request, or was too long. 8 there was no memory to begin with. An opened store is given back in each case.
pub fn answer_session<R: Wait + Sync, L: Link, S: Shelf>(
    rt: &R,
    alloc: Global,
    session: &Session,
    link: &mut L,
    shelf: &mut S,
) -> Status
    ensures served { IsSession (shelf_step S.Tells S.content S.count S.faults shelf.old shelf.new)
        session.now.store (status_code result)
        (console_step L.unread L.written L.faults link.old link.new) }
    ensures shelf_stays { session.now.store ≡ None → shelf.new ≡ shelf.old }
    ensures others { OtherStoresStay session.now.store (shelf_step S.Tells S.content S.count S.faults shelf.old shelf.new) }
    ensures words { result ≢ Status.BadWords }
    ensures faults { TellsFaults (result ≡ Status.Done) (result ≡ Status.ConsoleFault) (L.faults link.old) (L.faults link.new) }
{
    match &session.store {
        Some(name) => serve_store(rt, alloc, name.as_slice(), link, shelf),
        None => serve_new(rt, alloc, link),
    }
}

/// Serves the stream over the desk of the store of this name, and gives the store back.
fn serve_store<R: Wait + Sync, L: Link, S: Shelf>(
    rt: &R,
    alloc: Global,
    name: &[u8],
    link: &mut L,
    shelf: &mut S,
) -> Status
    ensures stored { OnStore (shelf_step S.Tells S.content S.count S.faults shelf.old shelf.new)
        EndsSession name.now (status_code result)
        (console_step L.unread L.written L.faults link.old link.new) }
    ensures others { (other : List ℕ) → other ≢ name.now → IsKept (shelf_step S.Tells S.content S.count S.faults shelf.old shelf.new) other }
    ensures words { result ≢ Status.BadWords }
    ensures faults { TellsFaults (result ≡ Status.Done) (result ≡ Status.ConsoleFault) (L.faults link.old) (L.faults link.new) }
{
    let desk = match open_desk(alloc, name, link, shelf) {
        Ok(desk) => desk,
        Err(status) => return status,
    };
    let (status, store) = serve_desk(rt, alloc, desk, link);
    shelf.close_store(name, store);
    status
}

/// Serves the stream over a new desk, which ends with the session.
fn serve_new<R: Wait + Sync, L: Link>(rt: &R, alloc: Global, link: &mut L) -> Status
    ensures unstored { (keeps : Content) × EndsSession (Unit {0}) nothing_kept keeps 0 (status_code result)
        (console_step L.unread L.written L.faults link.old link.new) }
    ensures words { result ≢ Status.BadWords }
    ensures faults { TellsFaults (result ≡ Status.Done) (result ≡ Status.ConsoleFault) (L.faults link.old) (L.faults link.new) }
{
    match open_keeper(alloc, SureKeeper::new(alloc), link) {
        Ok(desk) => serve_desk(rt, alloc, desk, link).0,
        Err(refused) => refused.0,
    }
}

/// Serves the stream over the desk, and gives the keeper back.
fn serve_desk<R: Wait + Sync, L: Link, K: Keeper>(
    rt: &R,
    alloc: Global,
    desk: StoredDesk<K>,
    link: &mut L,
) -> (Status, K)
    requires { K.faults desk.keeper ≡ 0 }
    ensures served { ((served : Served) × (result.0 ≡ exit_status_of served)
        × WasServed (K.Tells result.1) (K.content result.1) (K.faults result.1) (tables_of desk) served
        (console_step L.unread L.written L.faults link.old link.new))
        ⊎ ((result.0 ≡ Status.OutOfMemory) × (K.Tells result.1 → IsSame (tables_content (tables_of desk)) (K.content result.1))
        × Keeps (L.unread link.old) (L.unread link.new)
        × Answers answer_without_memory (status_code result.0) (L.written link.old) (L.written link.new) (Rose (L.faults link.old) (L.faults link.new))) }
    ensures told { K.Tells result.1 → K.Tells desk.keeper }
    ensures words { result.0 ≢ Status.BadWords }
    ensures faults { TellsFaults (result.0 ≡ Status.Done) (result.0 ≡ Status.ConsoleFault) (L.faults link.old) (L.faults link.new) }
{
    serve_named::<R, L, K, Brand>(rt, alloc, BlankBook::new(), desk, link)
}

/// The same under a name that is picked for the desk's tables.
fn serve_named<R: Wait + Sync, L: Link, K: Keeper, J: Naming<DeskBoard>>(
    rt: &R,
    alloc: Global,
    blank: BlankBook<DeskBoard>,
    desk: StoredDesk<K>,
    link: &mut L,
) -> (Status, K)
    requires fresh { K.faults desk.keeper ≡ 0 }
    requires book { blank ≡ J.book }
    requires opening { lists_of J.opening.engine ≡ tables_of desk }
    ensures served { ((served : Served) × (result.0 ≡ exit_status_of served)
        × WasServed (K.Tells result.1) (K.content result.1) (K.faults result.1) (tables_of desk) served
        (console_step L.unread L.written L.faults link.old link.new))
        ⊎ ((result.0 ≡ Status.OutOfMemory) × (K.Tells result.1 → IsSame (tables_content (tables_of desk)) (K.content result.1))
        × Keeps (L.unread link.old) (L.unread link.new)
        × Answers answer_without_memory (status_code result.0) (L.written link.old) (L.written link.new) (Rose (L.faults link.old) (L.faults link.new))) }
    ensures told { K.Tells result.1 → K.Tells desk.keeper }
    ensures words { result.0 ≢ Status.BadWords }
    ensures faults { TellsFaults (result.0 ≡ Status.Done) (result.0 ≡ Status.ConsoleFault) (L.faults link.old) (L.faults link.new) }
{
    // The call says that the tables are sound.
    desk.tables();
    let mut clerk = Clerk::<K, J>::open_alone(blank, desk);
    let served = serve_alone(rt, alloc, &mut clerk, link);
    let keeper = clerk.close(rt);
    match served {
        Served::Ended => (Status::Done, keeper),
        Served::Cut => (Status::Refused, keeper),
        Served::TooLong => (Status::Refused, keeper),
        Served::LinkFault => (Status::ConsoleFault, keeper),
        Served::OutOfMemory => (answer_no_memory(link), keeper),
    }
}
