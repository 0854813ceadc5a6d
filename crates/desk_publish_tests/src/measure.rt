ghost use Rattle.std.specs.Prelude.{◌≡◌, ◌≤◌};

use crate::counting::{Counting, empty};
use crate::race::SEATS;
use crate::watching::look_once;
use crate::writing::write_one;
use desk_publish::{BlankBook, Naming, Press, Seat, open_board};
use std::alloc::Global;
use std::io;
use std::sync::Wait;
use std::sync::atomic::{AtomicU64, Ordering};
use std::thread::{Threads, for_each_mut, join};
use std::time::{Clock, Instant};

/// How often each thread looks.
const LOOKS: u64 = 10_000_000;

/// How often a seat looks at most while the writer publishes.
const MOST_LOOKS: u64 = 1_000_000_000;

/// How often the writer puts an entry and publishes it.
const SETTLES: u64 = 20_000;

/// Tells how long looks take on one thread and on more, and how long a settle takes alone and beside seats that look without pause.
pub fn measure<J: Naming<Counting> + Send + Sync, R: Threads + Wait + Sync + Clock + Print>(
    rt: &R,
    alloc: Global,
    blank: BlankBook<Counting>,
) -> io::Result<()>
    requires book { blank ≡ J.book }
    requires opening { J.opening.count ≡ 0 }
{
    let opened = open_board::<Counting, J, R>(rt, alloc, blank, empty(), empty(), SEATS);
    let Ok((mut press, mut seats)) = opened else {
        return println!(rt; "no memory");
    };
    let told = tell_all(rt, &mut press, seats.as_mut_slice());
    press.close(rt);
    told
}

fn tell_all<J: Naming<Counting> + Send + Sync, R: Threads + Wait + Sync + Clock + Print>(
    rt: &R,
    press: &mut Press<Counting, J>,
    seats: &mut [Seat<Counting, J>],
) -> io::Result<()> {
    for threads in [1, 2, 4, 8] {
        let (looking, _) = seats.split_at_mut(seats.len().min(threads));
        let nanoseconds = time_looks(rt, looking)?;
        println!(rt; "{threads} threads: {nanoseconds} nanoseconds for a look on each")?;
    }
    for threads in [0, 1, 2, 3, 8] {
        let (looking, _) = seats.split_at_mut(seats.len().min(threads));
        let nanoseconds = time_settles(rt, press, looking)?;
        println!(rt; "{threads} threads look: {nanoseconds} nanoseconds for a settle")?;
    }
    Ok(())
}

/// The nanoseconds that a look on each of the seats takes, all in threads of their own.
fn time_looks<J: Naming<Counting> + Send + Sync, R: Threads + Sync + Clock>(
    rt: &R,
    seats: &mut [Seat<Counting, J>],
) -> io::Result<u128> {
    let threads = seats.len().max(1);
    let start = Instant::now(rt)?;
    for_each_mut(
        rt,
        seats,
        threads,
        &|_, seat| for _ in 0..LOOKS {
            look_once(seat);
        },
    );
    Ok(start.elapsed(rt)?.as_nanos() / LOOKS as u128)
}

/// The nanoseconds that an entry takes to be put and published, while the seats look without pause.
fn time_settles<J: Naming<Counting> + Send + Sync, R: Threads + Wait + Sync + Clock>(
    rt: &R,
    press: &mut Press<Counting, J>,
    seats: &mut [Seat<Counting, J>],
) -> io::Result<u128> {
    let ended = AtomicU64::new(0);
    let start = Instant::now(rt)?;
    join(
        rt,
        || write_on(rt, press, &ended),
        || look_on(rt, seats, &ended),
    );
    Ok(start.elapsed(rt)?.as_nanos() / SETTLES as u128)
}

/// Puts and publishes entries, and then tells that the writer has ended.
fn write_on<J: Naming<Counting>, R: Wait>(
    rt: &R,
    press: &mut Press<Counting, J>,
    ended: &AtomicU64,
) {
    for entry in 0..SETTLES {
        write_one(rt, press, entry);
    }
    ended.store(1, Ordering::SeqCst);
}

/// Lets the seats look, each in a thread of its own, until the writer has ended.
fn look_on<J: Naming<Counting> + Send + Sync, R: Threads + Sync>(
    rt: &R,
    seats: &mut [Seat<Counting, J>],
    ended: &AtomicU64,
) {
    let threads = seats.len().max(1);
    for_each_mut(
        rt,
        seats,
        threads,
        &|_, seat| for _ in 0..MOST_LOOKS {
            look_once(seat);
            if ended.load(Ordering::SeqCst) == 1 {
                break;
            }
        },
    );
}
