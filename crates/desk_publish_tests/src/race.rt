ghost use Rattle.std.specs.Prelude.{◌≡◌};

use crate::counting::{Counting, empty};
use crate::met::Met;
use crate::report::Report;
use crate::watching::{learn_and_look, look_once};
use crate::writing::write_one;
use desk_publish::{BlankBook, Naming, News, OutOfMemory, Press, Seat, open_board};
use std::alloc::Global;
use std::sync::atomic::{AtomicU64, Ordering};
use std::sync::{Mutex, Wait};
use std::thread::{Threads, for_each_mut, join};

/// As many seats as a board may have.
pub const SEATS: usize = 8;

const ENTRIES: u64 = 10_000;

/// So often each seat looks at most, so that the race ends also where no thread was left for the writer.
const LOOKS: u64 = 1_000_000;

/// The writer tells each time that it has published so many entries more. Between them it settles without pause.
const TOLD: u64 = 50;

/// More news than there are places for their readers.
const CROWD: usize = 20;

/// Where the writer leaves its newest news.
type Slot<J> = Mutex<Option<News<Counting, J>>>;

/// A writer puts entries and publishes each, while seats in threads of their own look without pause, and learn what they are told.
pub fn race<J: Naming<Counting> + Send + Sync, R: Threads + Wait + Sync>(
    rt: &R,
    alloc: Global,
    blank: BlankBook<Counting>,
) -> Result<Report, OutOfMemory>
    requires book { blank ≡ J.book }
    requires opening { J.opening.count ≡ 0 }
{
    let (mut press, mut seats) = open_board::<Counting, J, R>(
        rt,
        alloc,
        blank,
        empty(),
        empty(),
        SEATS,
    )?;
    let slot: Slot<J> = Mutex::new(None);
    let (met, ended) = (Met::new(), AtomicU64::new(0));
    join(
        rt,
        || write(rt, &mut press, &slot, &ended),
        || for_each_mut(
            rt,
            seats.as_mut_slice(),
            SEATS,
            &|_, seat| watch(rt, seat, &slot, &ended, &met),
        ),
    );
    let entries = look_last(rt, alloc, &mut press, seats.as_mut_slice(), &met);
    press.close(rt);
    Ok(Report {
        entries: entries?,
        not_entered: met.not_entered(),
        fell: met.fell(),
    })
}

fn write<J: Naming<Counting>, R: Wait>(
    rt: &R,
    press: &mut Press<Counting, J>,
    slot: &Slot<J>,
    ended: &AtomicU64,
) {
    for entry in 0..ENTRIES {
        if write_one(rt, press, entry) && entry % TOLD == 0 {
            *slot.lock(rt) = Some(press.tell());
        }
    }
    ended.store(1, Ordering::SeqCst);
}

fn watch<J: Naming<Counting>, R: Wait>(
    rt: &R,
    seat: &mut Seat<Counting, J>,
    slot: &Slot<J>,
    ended: &AtomicU64,
    met: &Met,
) {
    for _ in 0..LOOKS {
        let is_last = ended.load(Ordering::SeqCst) == 1;
        let known = seat.seen();
        met.note(known, look_once(seat));
        let news = slot.lock(rt).take();
        if let Some(news) = news {
            let told = news.number();
            met.note(told, learn_and_look(seat, news));
        }
        if is_last {
            return;
        }
    }
}

/// One more entry, which each seat learns and sees, though so many news are kept that none has a place for a reader. The answer is how
/// many entries each seat saw, at least.
fn look_last<J: Naming<Counting>, R: Wait>(
    rt: &R,
    alloc: Global,
    press: &mut Press<Counting, J>,
    seats: &mut [Seat<Counting, J>],
    met: &Met,
) -> Result<u64, OutOfMemory> {
    let mut kept = Vec::new(alloc);
    for _ in 0..CROWD {
        kept.push(press.tell())?;
    }
    write_one(rt, press, ENTRIES);
    let mut least = u64::MAX;
    for seat in seats.iter_mut() {
        let news = press.tell();
        let told = news.number();
        let seen = learn_and_look(seat, news);
        met.note(told, seen);
        least = least.min(seen.unwrap_or(0));
    }
    Ok(least)
}
