ghost use Rattle.std.specs.Prelude.{◌≡◌, ◌≢◌, Ok, None, IsOk};
ghost use mathlib.Core.List.{IsPrefix};

use crate::link::serve_link;
use crate::locked_clerk::LockedClerk;
use desk_clerk::{Clerk, DeskBoard, DeskSeat};
use desk_edge::{Doors, Failed, Keeper, Link};
use desk_publish::Naming;
use std::alloc::Global;
use std::sync::{Mutex, Wait};

/// Why no more connections are taken.
#[derive(Clone, Copy, Debug, PartialEq, Eq)]
pub enum Worked {
    /// The doors are closed.
    Closed,
    /// The doors counted a fault.
    DoorsFault,
}

/// Takes one connection after the other and serves each from the seat, with edits by the clerk behind the lock. Neither lock is held while
/// a connection is served, but for the clerk's while an edit is answered.
///
/// `Closed`: the doors gave none; it doesn't come where doors of their type are never closed. `DoorsFault`: they counted a fault; it
/// doesn't come where none of their type ever fails. A connection that fails, or for which there is no memory, is dropped.
pub fn work<R: Wait + Sync, D: Doors, K: Keeper, J: Naming<DeskBoard>>(
    rt: &R,
    alloc: Global,
    doors: &Mutex<D>,
    clerk: &Mutex<&mut Clerk<K, J>>,
    seat: &mut DeskSeat<J>,
) -> Worked
    ensures closed { D.NeverCloses → result ≢ Worked.Closed }
    ensures doors_fault { D.NeverFails → result ≢ Worked.DoorsFault }
    ensures begins { IsPrefix seat.old.list seat.new.list }
{
    'lines: for _ in rt.forever() {
        match next_line(rt, doors) {
            Ok(Some(line)) => serve_line(rt, alloc, clerk, seat, line),
            Ok(None) => return Worked::Closed,
            Err(_) => return Worked::DoorsFault,
        }
    }
    unreachable!()
}

/// The next connection of the doors behind the lock, which is given up before the connection is served.
fn next_line<R: Wait + Sync, D: Doors>(rt: &R, doors: &Mutex<D>) -> Result<Option<D::Line>, Failed>
    ensures closed { D.NeverCloses → result ≢ Ok None }
    ensures fails { D.NeverFails → IsOk result }
{
    let mut doors = doors.lock(rt);
    doors.next()
}

/// Serves one connection, and closes it.
fn serve_line<R: Wait + Sync, L: Link + Drop, K: Keeper, J: Naming<DeskBoard>>(
    rt: &R,
    alloc: Global,
    clerk: &Mutex<&mut Clerk<K, J>>,
    seat: &mut DeskSeat<J>,
    line: L,
)
    ensures { IsPrefix seat.old.list seat.new.list }
{
    let mut line = line;
    let mut editor = LockedClerk::new(rt, clerk);
    serve_link(rt, alloc, &mut editor, seat, &mut line);
}
