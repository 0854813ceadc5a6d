//! The connections that come through doors, each served from one of several seats in threads of their own.
ghost use Rattle.std.specs.Prelude.{◌≡◌, ◌+◌, ◌≤◌, length, true, IfSome};
ghost use Rattle.desk_edge.specs.Faults.{Rose};
ghost use Rattle.desk_top.specs.Serve.{IsServedOut, doorway_step};

use crate::limited_doors::LimitedDoors;
use desk_clerk::{Clerk, DeskBoard, DeskSeat};
use desk_edge::{Doors, Keeper};
use desk_front::work;
use desk_publish::Naming;
use std::alloc::Global;
use std::sync::{Mutex, Wait};
use std::thread::{Threads, for_each_mut};

/// Why no more connections are served.
#[derive(Clone, Copy, Debug, PartialEq, Eq)]
pub(crate) enum DoorsEnd {
    /// The doors are closed, or have given as many lines as were asked for.
    ServedOut,
    /// The doors counted a fault.
    Fault,
}

/// Opens the doors at the port, and serves the connections that come through them, so many at once as there are seats, until the doors
/// are closed, have given as many lines as are wanted, or have counted a fault.
pub(crate) fn serve_doors<
    R: Wait + Sync + Threads,
    K: Keeper + Send,
    J: Naming<DeskBoard> + Send + Sync,
    D: Doors + Send,
>(
    rt: &R,
    alloc: Global,
    port: u16,
    wanted: Option<u32>,
    clerk: &mut Clerk<K, J>,
    seats: &mut [DeskSeat<J>],
    doors: &mut D,
) -> DoorsEnd
    requires { 1 ≤ length seats.old }
    ensures served_out { result ≡ DoorsEnd.ServedOut
        → IsServedOut wanted (doorway_step D.faults D.taken D.is_closed doors.old doors.new) }
    ensures fault { result ≡ DoorsEnd.Fault → Rose (D.faults doors.old) (D.faults doors.new) }
{
    let (faults, taken) = (doors.faults(), doors.taken());
    if doors.listen(port).is_err() {
        return DoorsEnd::Fault;
    }
    'rounds: for _ in rt.forever() {
        let left = still_wanted(wanted, taken, doors.taken());
        serve_round(rt, alloc, clerk, seats, doors, left);
        if let Some(end) = end_of(doors, faults, taken, wanted) {
            return end;
        }
    }
    unreachable!()
}

/// How many lines are still wanted, where so many were wanted in all and these were given before and are given now.
fn still_wanted(wanted: Option<u32>, before: u64, now: u64) -> Option<u64> {
    match wanted {
        Some(wanted) => Some(u64::from(wanted).saturating_sub(now.saturating_sub(before))),
        None => None,
    }
}

/// Serves connections from all seats at once, until each of the threads has met doors that are closed, have given as many lines as are
/// left to give, or have failed.
fn serve_round<
    R: Wait + Sync + Threads,
    K: Keeper + Send,
    J: Naming<DeskBoard> + Send + Sync,
    D: Doors + Send,
>(
    rt: &R,
    alloc: Global,
    clerk: &mut Clerk<K, J>,
    seats: &mut [DeskSeat<J>],
    doors: &mut D,
    left: Option<u64>,
)
    requires { 1 ≤ length seats.old }
    ensures { length seats.new ≡ length seats.old }
{
    let threads = seats.len();
    let doors = Mutex::new(LimitedDoors::new(doors, left));
    let clerk = Mutex::new(clerk);
    for_each_mut(
        rt,
        seats,
        threads,
        &|_, seat| {
            work(rt, alloc, &doors, &clerk, seat);
        },
    );
}

/// Whether there is an end to serve connections, and which: these doors had counted so many faults and given so many lines before.
fn end_of<D: Doors>(doors: &D, faults: u64, taken: u64, wanted: Option<u32>) -> Option<DoorsEnd>
    ensures served_out { IfSome result (λ end. end ≡ DoorsEnd.ServedOut
        → IsServedOut wanted (record { faults_before = faults; faults = D.faults doors.now; taken_before = taken; taken = D.taken doors.now; is_closed = D.is_closed doors.now })) }
    ensures fault { IfSome result (λ end. end ≡ DoorsEnd.Fault → Rose faults (D.faults doors.now)) }
{
    let counted = doors.faults();
    if counted > faults || counted == u64::MAX {
        return Some(DoorsEnd::Fault);
    }
    if doors.closed() {
        return Some(DoorsEnd::ServedOut);
    }
    match wanted {
        Some(wanted) if have_come(taken, u64::from(wanted), doors.taken()) => {
            Some(DoorsEnd::ServedOut)
        }
        _ => None,
    }
}

/// Whether so many lines as are wanted were given since these were given before.
fn have_come(before: u64, wanted: u64, now: u64) -> bool
    ensures { result ≡ true → before + wanted ≤ now }
{
    match before.checked_add(wanted) {
        Some(least) => now >= least,
        None => false,
    }
}
