ghost use Rattle.std.specs.Prelude.{◌≡◌, ◌≢◌, ◌⊎◌, ℕ, ◌≤◌, List, length, None, Some};
ghost use Rattle.desk_clerk.specs.Clerk.{tables_of};
ghost use Rattle.desk_edge.specs.Content.{Content};
ghost use Rattle.desk_engine.specs.Engine.{lists_of};
ghost use Rattle.desk_top.specs.Answer.{status_code};
ghost use Rattle.desk_top.specs.Console.{TellsFaults, console_step};
ghost use Rattle.desk_top.specs.Run.{IsServing, OtherStoresStay};
ghost use Rattle.desk_top.specs.Serve.{EndsServing, WasUnserved, WereServed, doorway_step};
ghost use Rattle.desk_top.specs.Session.{nothing_kept};
ghost use Rattle.desk_top.specs.Store.{IsKept, OnStore, shelf_step};
ghost use Rattle.desk_words.specs.Commands.{HasServeBounds};

use crate::opened_store::{OpenedNaming, OpenedStore};
use crate::serving::{DoorsEnd, serve_doors};
use crate::status::Status;
use crate::store::{open_desk, open_keeper};
use crate::sure_keeper::SureKeeper;
use crate::tell::{answer_doors_fault, answer_no_memory};
use desk_clerk::{Clerk, DeskBoard, Opened, StoredDesk};
use desk_edge::{Doors, Keeper, Link, Shelf};
use desk_publish::{BlankBook, Naming};
use desk_words::Serve;
use std::alloc::Global;
use std::marker::Brand;
use std::sync::Wait;
use std::thread::Threads;

/// Serves the connections that come through the doors, over the desk of a store, or over one that ends with the command. The command's
/// numbers are within their bounds.
///
/// 0 the doors are closed, or as many connections as were asked for were served. 4 the store refused a call before the doors were opened,
/// and 5 its records aren't those of sound tables: then no connection is taken. 7 the doors counted a fault. 8 there was no memory to
/// begin with. An opened store is given back in each case.
pub fn answer_serve<R: Wait + Sync + Threads, L: Link, S: Shelf, D: Doors + Send>(
    rt: &R,
    alloc: Global,
    serve: &Serve,
    console: &mut L,
    shelf: &mut S,
    doors: &mut D,
) -> Status
    requires { HasServeBounds serve.now }
    ensures served { IsServing (shelf_step S.Tells S.content S.count S.faults shelf.old shelf.new)
        serve.now (doorway_step D.faults D.taken D.is_closed doors.old doors.new) (status_code result)
        (console_step L.unread L.written L.faults console.old console.new) }
    ensures shelf_stays { serve.now.store ≡ None → shelf.new ≡ shelf.old }
    ensures others { OtherStoresStay serve.now.store (shelf_step S.Tells S.content S.count S.faults shelf.old shelf.new) }
    ensures words { result ≢ Status.BadWords }
    ensures console_fault { result ≢ Status.ConsoleFault }
    ensures faults { TellsFaults (result ≡ Status.Done) ⊥ (L.faults console.old) (L.faults console.new) }
{
    match &serve.store {
        Some(name) => serve_store(rt, alloc, serve, name.as_slice(), console, shelf, doors),
        None => serve_new(rt, alloc, serve, console, doors),
    }
}

/// Serves connections over the desk of the store of this name, and gives the store back.
fn serve_store<R: Wait + Sync + Threads, L: Link, S: Shelf, D: Doors + Send>(
    rt: &R,
    alloc: Global,
    serve: &Serve,
    name: &[u8],
    console: &mut L,
    shelf: &mut S,
    doors: &mut D,
) -> Status
    requires { HasServeBounds serve.now }
    ensures stored { OnStore (shelf_step S.Tells S.content S.count S.faults shelf.old shelf.new)
        (EndsServing serve.now.connections (doorway_step D.faults D.taken D.is_closed doors.old doors.new)) name.now (status_code result)
        (console_step L.unread L.written L.faults console.old console.new) }
    ensures others { (other : List ℕ) → other ≢ name.now → IsKept (shelf_step S.Tells S.content S.count S.faults shelf.old shelf.new) other }
    ensures words { result ≢ Status.BadWords }
    ensures console_fault { result ≢ Status.ConsoleFault }
    ensures faults { TellsFaults (result ≡ Status.Done) ⊥ (L.faults console.old) (L.faults console.new) }
{
    let desk = match open_desk(alloc, name, console, shelf) {
        Ok(desk) => desk,
        Err(status) => return status,
    };
    let (status, store) = serve_desk(rt, alloc, serve, desk, console, doors);
    shelf.close_store(name, store);
    status
}

/// Serves connections over a new desk, which ends with the command.
fn serve_new<R: Wait + Sync + Threads, L: Link, D: Doors + Send>(
    rt: &R,
    alloc: Global,
    serve: &Serve,
    console: &mut L,
    doors: &mut D,
) -> Status
    requires { HasServeBounds serve.now }
    ensures unstored { (keeps : Content) × EndsServing serve.now.connections (doorway_step D.faults D.taken D.is_closed doors.old doors.new) (Unit {0}) nothing_kept keeps 0 (status_code result)
        (console_step L.unread L.written L.faults console.old console.new) }
    ensures words { result ≢ Status.BadWords }
    ensures console_fault { result ≢ Status.ConsoleFault }
    ensures faults { TellsFaults (result ≡ Status.Done) ⊥ (L.faults console.old) (L.faults console.new) }
{
    match open_keeper(alloc, SureKeeper::new(alloc), console) {
        Ok(desk) => serve_desk(rt, alloc, serve, desk, console, doors).0,
        Err(refused) => refused.0,
    }
}

/// Serves connections over the desk, and gives the keeper back.
fn serve_desk<R: Wait + Sync + Threads, L: Link, K: Keeper + Send, D: Doors + Send>(
    rt: &R,
    alloc: Global,
    serve: &Serve,
    desk: StoredDesk<K>,
    console: &mut L,
    doors: &mut D,
) -> (Status, K)
    requires { HasServeBounds serve.now }
    ensures served { WereServed serve.now.connections (K.Tells result.1) (K.content result.1) (tables_of desk) (status_code result.0) (doorway_step D.faults D.taken D.is_closed doors.old doors.new)
        (console_step L.unread L.written L.faults console.old console.new)
        ⊎ WasUnserved (K.Tells result.1) (K.content result.1) (tables_of desk) result.0 (doorway_step D.faults D.taken D.is_closed doors.old doors.new)
        (console_step L.unread L.written L.faults console.old console.new) }
    ensures told { K.Tells result.1 → K.Tells desk.keeper }
    ensures words { result.0 ≢ Status.BadWords }
    ensures console_fault { result.0 ≢ Status.ConsoleFault }
    ensures faults { TellsFaults (result.0 ≡ Status.Done) ⊥ (L.faults console.old) (L.faults console.new) }
{
    serve_named::<R, L, K, D, Brand, Brand>(
        rt,
        alloc,
        BlankBook::new(),
        serve,
        desk,
        console,
        doors,
    )
}

/// The same under names that are picked for the desk's tables and for its keeper.
fn serve_named<
    R: Wait + Sync + Threads,
    L: Link,
    K: Keeper + Send,
    D: Doors + Send,
    J: Naming<DeskBoard> + Send + Sync,
    N: OpenedNaming + Send,
>(
    rt: &R,
    alloc: Global,
    blank: BlankBook<DeskBoard>,
    serve: &Serve,
    desk: StoredDesk<K>,
    console: &mut L,
    doors: &mut D,
) -> (Status, K)
    requires bounds { HasServeBounds serve.now }
    requires book { blank ≡ J.book }
    requires opening { lists_of J.opening.engine ≡ tables_of desk }
    requires told { K.Tells desk.keeper → N.Told }
    ensures served { WereServed serve.now.connections (K.Tells result.1) (K.content result.1) (tables_of desk) (status_code result.0) (doorway_step D.faults D.taken D.is_closed doors.old doors.new)
        (console_step L.unread L.written L.faults console.old console.new)
        ⊎ WasUnserved (K.Tells result.1) (K.content result.1) (tables_of desk) result.0 (doorway_step D.faults D.taken D.is_closed doors.old doors.new)
        (console_step L.unread L.written L.faults console.old console.new) }
    ensures told { K.Tells result.1 → N.Told }
    ensures words { result.0 ≢ Status.BadWords }
    ensures console_fault { result.0 ≢ Status.ConsoleFault }
    ensures faults { TellsFaults (result.0 ≡ Status.Done) ⊥ (L.faults console.old) (L.faults console.new) }
{
    let (engine, keeper) = desk.into_parts();
    let store = OpenedStore::<K, N>::new(keeper);
    let desk = StoredDesk::from_parts(engine, store);
    match Clerk::<OpenedStore<K, N>, J>::open(rt, alloc, blank, desk, serve.seats as usize) {
        Ok(opened) => serve_opened(rt, alloc, serve, opened, console, doors),
        Err(refused) => (answer_no_memory(console), refused.keeper.into_keeper()),
    }
}

/// Serves connections from the seats of an opened desk, ends the desk and gives its keeper back.
fn serve_opened<
    R: Wait + Sync + Threads,
    L: Link,
    K: Keeper + Send,
    D: Doors + Send,
    J: Naming<DeskBoard> + Send + Sync,
    N: OpenedNaming + Send,
>(
    rt: &R,
    alloc: Global,
    serve: &Serve,
    opened: Opened<OpenedStore<K, N>, J>,
    console: &mut L,
    doors: &mut D,
) -> (Status, K)
    requires { 1 ≤ length opened.seats.items }
    ensures served { WereServed serve.now.connections (K.Tells result.1) (K.content result.1) (lists_of J.opening.engine) (status_code result.0) (doorway_step D.faults D.taken D.is_closed doors.old doors.new)
        (console_step L.unread L.written L.faults console.old console.new) }
    ensures told { K.Tells result.1 → N.Told }
    ensures words { result.0 ≢ Status.BadWords }
    ensures console_fault { result.0 ≢ Status.ConsoleFault }
    ensures faults { TellsFaults (result.0 ≡ Status.Done) ⊥ (L.faults console.old) (L.faults console.new) }
{
    let Opened {
        mut clerk,
        mut seats,
    } = opened;
    let end = serve_doors(
        rt,
        alloc,
        serve.port,
        serve.connections,
        &mut clerk,
        seats.as_mut_slice(),
        doors,
    );
    // The call says that the clerk's list is a history, from the opened tables on.
    clerk.engine();
    let keeper = clerk.close(rt).into_keeper();
    match end {
        DoorsEnd::ServedOut => (Status::Done, keeper),
        DoorsEnd::Fault => (answer_doors_fault(console), keeper),
    }
}
