ghost use Rattle.std.specs.Prelude.{◌≡◌};

use crate::counting::{Counting, empty};
use crate::held::Held;
use crate::met::Met;
use crate::race::SEATS;
use crate::report::Report;
use crate::watching::{learn_and_look, look_once};
use desk_publish::{BlankBook, Naming, OutOfMemory, Seat, open_board};
use std::alloc::Global;
use std::sync::{Mutex, Wait};
use std::thread::{Threads, for_each_mut};

const EDITS: u64 = 250;

/// Each thread has a seat, and writes by the one press, which lies under a lock. A look takes no lock.
pub fn share<J: Naming<Counting> + Send + Sync, R: Threads + Wait + Sync>(
    rt: &R,
    alloc: Global,
    blank: BlankBook<Counting>,
) -> Result<Report, OutOfMemory>
    requires book { blank ≡ J.book }
    requires opening { J.opening.count ≡ 0 }
{
    let (press, mut seats) = open_board::<Counting, J, R>(
        rt,
        alloc,
        blank,
        empty(),
        empty(),
        SEATS,
    )?;
    let (desk, met) = (Mutex::new(Held { press, rt }), Met::new());
    for_each_mut(
        rt,
        seats.as_mut_slice(),
        SEATS,
        &|_, seat| work(rt, &desk, seat, &met),
    );
    let mut entries = u64::MAX;
    for seat in seats.iter_mut() {
        let news = desk.lock(rt).press.tell();
        let told = news.number();
        let seen = learn_and_look(seat, news);
        met.note(told, seen);
        entries = entries.min(seen.unwrap_or(0));
    }
    Ok(Report {
        entries,
        not_entered: met.not_entered(),
        fell: met.fell(),
    })
}

fn work<J: Naming<Counting>, R: Wait>(
    rt: &R,
    desk: &Mutex<Held<'_, J, R>>,
    seat: &mut Seat<Counting, J>,
    met: &Met,
) {
    for entry in 0..EDITS {
        desk.lock(rt).edit(seat, entry);
        let learnt = seat.seen();
        met.note(learnt, look_once(seat));
    }
}
