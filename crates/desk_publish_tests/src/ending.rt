ghost use Rattle.std.specs.Prelude.{◌≡◌};

use crate::counting::{Counting, empty};
use crate::race::SEATS;
use crate::watching::look_once;
use crate::writing::write_one;
use desk_publish::{BlankBook, Naming, OutOfMemory, Seat, open_board};
use std::alloc::Global;
use std::sync::Wait;

/// How many looks were let in before the press was closed, how many after, and what a seat knows that has learnt a news since.
#[derive(Drop)]
pub struct Ended {
    pub before: u64,
    pub after: u64,
    pub learnt: u64,
}

/// The press is closed while so many seats are kept. The others are given up before, these after, and a news last of all where no seat
/// is left to learn it.
pub fn end<J: Naming<Counting>, R: Wait>(
    rt: &R,
    alloc: Global,
    blank: BlankBook<Counting>,
    kept: usize,
) -> Result<Ended, OutOfMemory>
    requires book { blank ≡ J.book }
    requires opening { J.opening.count ≡ 0 }
{
    let (mut press, mut seats) = open_board::<Counting, J, R>(
        rt,
        alloc,
        blank,
        empty(),
        empty(),
        SEATS,
    )?;
    seats.truncate(kept);
    let before = let_in(seats.as_mut_slice());
    write_one(rt, &mut press, 0);
    let news = press.tell();
    press.close(rt);
    let after = let_in(seats.as_mut_slice());
    let mut learnt = 0;
    if let Some(mut seat) = seats.pop() {
        seat.learn(news);
        learnt = seat.seen();
    }
    Ok(Ended {
        before,
        after,
        learnt,
    })
}

/// How many of the seats may look.
fn let_in<J: Naming<Counting>>(seats: &mut [Seat<Counting, J>]) -> u64 {
    let mut count: u64 = 0;
    for seat in seats.iter_mut() {
        if look_once(seat).is_some() {
            count = count.saturating_add(1);
        }
    }
    count
}
