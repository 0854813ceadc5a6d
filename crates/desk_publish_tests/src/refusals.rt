ghost use Rattle.std.specs.Prelude.{◌≡◌};

use crate::counting::{Counting, empty};
use crate::watching::learn_and_look;
use crate::writing::put_one;
use desk_publish::{BlankBook, Naming, OutOfMemory, Press, Seat, open_board};
use std::alloc::Global;
use std::sync::Wait;

/// How many entries are put before each settle.
const ENTRIES: [u64; 3] = [5, 1, 1];

/// What a seat sees after each settle, and whether it was refused.
#[derive(Drop)]
pub struct Settled {
    pub is_refused: [bool; 3],
    pub seen: [u64; 3],
}

/// A board that refuses entries twice, as if there was no memory: nothing of what is pending is published before all of it is.
pub fn refusals<J: Naming<Counting>, R: Wait>(
    rt: &R,
    alloc: Global,
    blank: BlankBook<Counting>,
) -> Result<Settled, OutOfMemory>
    requires book { blank ≡ J.book }
    requires opening { J.opening.count ≡ 0 }
{
    let second = Counting {
        count: 0,
        refusals: 2,
    };
    let (mut press, mut seats) = open_board::<Counting, J, R>(
        rt,
        alloc,
        blank,
        empty(),
        second,
        1,
    )?;
    let mut settled = Settled {
        is_refused: [false; 3],
        seen: [0; 3],
    };
    if let Some(seat) = seats.first_mut() {
        for (turn, entries) in ENTRIES.iter().enumerate() {
            let (is_refused, seen) = settle_once(rt, &mut press, seat, *entries);
            settled.is_refused[turn] = is_refused;
            settled.seen[turn] = seen;
        }
    }
    press.close(rt);
    Ok(settled)
}

fn settle_once<J: Naming<Counting>, R: Wait>(
    rt: &R,
    press: &mut Press<Counting, J>,
    seat: &mut Seat<Counting, J>,
    entries: u64,
) -> (bool, u64) {
    for entry in 0..entries {
        put_one(press, entry);
    }
    let is_refused = press.settle(rt).is_err();
    let seen = learn_and_look(seat, press.tell());
    (is_refused, seen.unwrap_or(u64::MAX))
}
