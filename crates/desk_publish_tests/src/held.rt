ghost use Rattle.std.specs.Prelude.{[], ◌∷◌, ◌++◌, IsTrue};
ghost use mathlib.Core.List.{IsPrefix};

use crate::counting::Counting;
use desk_publish::{Naming, Press, Seat};
use std::sync::Wait;

/// What a lock holds: a press with the handle that it waits by, so that the press is closed where the lock is dropped.
pub struct Held<'a, J: Naming<Counting>, R: Wait> {
    pub press: Press<Counting, J>,
    pub rt: &'a R,
}

impl<'a, J: Naming<Counting>, R: Wait> Held<'a, J, R> {
    /// Puts and publishes an entry, which the seat then learns. It says whether it did.
    pub fn edit(&mut self, seat: &mut Seat<Counting, J>, entry: u64) -> bool
        ensures begins { IsPrefix seat.old.list seat.new.list }
        ensures learnt { IsTrue result → IsPrefix (self.old.press.whole ++ entry ∷ []) seat.new.list }
    {
        let done = self.press.number() < u64::MAX
            && self.press.put(entry).is_ok()
            && self.press.settle(self.rt).is_ok();
        seat.learn(self.press.tell());
        done
    }
}

impl<'a, J: Naming<Counting>, R: Wait> Drop for Held<'a, J, R> {
    fn drop(self) {
        let Held { press, rt } = self;
        press.close(rt);
    }
}
