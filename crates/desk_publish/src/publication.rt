ghost use Rattle.std.specs.Prelude.{◌≡◌, ◌+◌, ◌<◌, ◌^◌, [], ◌∷◌, ◌++◌, OnOk, OnErr, IfErr};
ghost use mathlib.Core.List.{IsPrefix};
ghost use Rattle.desk_publish.specs.Lists.{after_all};

use crate::audience::Audience;
use crate::blank_book::BlankBook;
use crate::board::Board;
use crate::journal::Journal;
use crate::memory::OutOfMemory;
use crate::naming::Naming;
use crate::news::News;
use crate::press::Press;
use crate::put_refused::PutRefused;
use std::marker::Model;
use std::sync::Wait;

/// A list that one writer publishes, to readers at a board or to nobody. Contracts see it as the lists of a press: what is published, and
/// the whole list. No clause tells which of the two it is.
///
/// It isn't `Drop`, since the end of a press may wait: end it by `close`.
pub struct Publication<B: Board, J: Naming<B>> {
    audience: Audience<Press<B, J>, Journal<B, J>>,
}

impl<B: Board, J: Naming<B>> Model for Publication<B, J> {
    ghost use Rattle.desk_publish.specs.Lists.{PressLists};
    ghost use Rattle.desk_publish.specs.Audiences.{lists_at};

    ghost Value = { PressLists B.Entry };

    ghost view = { λ p. lists_at p.audience };
}

impl<B: Board, J: Naming<B>> Publication<B, J> {
    /// The list of a press, whose seats read it.
    pub fn to_seats(press: Press<B, J>) -> Publication<B, J>
        ensures { result ≡ press }
    {
        Publication {
            audience: Audience::Seats(press),
        }
    }

    /// A list that nobody reads beside its writer. It has no entry yet, and no board is made for it. It takes no memory.
    ///
    /// The book was opened before, and the name is picked for it. The number is that of the board before the first entry.
    pub fn to_nobody(blank: BlankBook<B>, number: u64) -> Publication<B, J>
        requires book { blank ≡ J.book }
        requires number { number ≡ B.number_of (B.state J.opening) }
        requires may_be_put { B.MayBePut (B.state J.opening) [] }
        ensures { result ≡ record { published = []; whole = [] } }
    {
        Publication {
            audience: Audience::Nobody(Journal::new(blank, number)),
        }
    }

    /// One more pending entry, which readers don't see before it is published.
    ///
    /// Where there is no memory for it, the entry comes back.
    pub fn put(&mut self, entry: B::Entry) -> Result<(), PutRefused<B::Entry>>
        requires one { B.number_of (B.after (after_all B.after (B.state J.opening) self.old.whole) entry)
            ≡ B.number_of (after_all B.after (B.state J.opening) self.old.whole) + 1 }
        requires fits { B.number_of (after_all B.after (B.state J.opening) self.old.whole) + 1 < 2 ^ 64 }
        requires may_be_put { B.MayBePut (B.state J.opening) (self.old.whole ++ entry ∷ []) }
        ensures published { self.new.published ≡ self.old.published }
        ensures added { OnOk result (self.new.whole ≡ self.old.whole ++ entry ∷ []) }
        ensures handed_back { IfErr result (λ refused. refused.entry ≡ entry) }
        ensures stays { OnErr result (self.new ≡ self.old) }
    {
        match &mut self.audience {
            Audience::Seats(press) => press.put(entry),
            Audience::Nobody(journal) => journal.put(entry),
        }
    }

    /// Publishes what is pending, all of it at one step, or changes nothing. It may wait for a reader that is looking.
    ///
    /// `OutOfMemory`: none was left to show it to the seats. What was pending still is.
    pub fn settle<R: Wait>(&mut self, rt: &R) -> Result<(), OutOfMemory>
        ensures published { OnOk result (self.new.published ≡ self.old.whole) }
        ensures whole { self.new.whole ≡ self.old.whole }
        ensures stays { OnErr result (self.new ≡ self.old) }
    {
        match &mut self.audience {
            Audience::Seats(press) => press.settle(rt),
            Audience::Nobody(journal) => {
                journal.settle();
                Ok(())
            }
        }
    }

    /// The published list, for a seat to learn. It takes no memory and waits for nobody.
    ///
    /// Where the list is for nobody, a seat isn't sure of what it learns from it.
    pub fn tell(&mut self) -> News<B, J>
        ensures told { result.list ≡ self.old.published }
        ensures kept { self.new ≡ self.old }
    {
        match &mut self.audience {
            Audience::Seats(press) => press.tell(),
            Audience::Nobody(journal) => journal.tell(),
        }
    }

    /// The number of the whole list, which begins with what is published.
    pub fn number(&self) -> u64
        ensures number { result ≡ B.number_of (after_all B.after (B.state J.opening) self.now.whole) }
        ensures may_be_put { B.MayBePut (B.state J.opening) self.now.whole }
        ensures begins { IsPrefix self.now.published self.now.whole }
    {
        match &self.audience {
            Audience::Seats(press) => press.number(),
            Audience::Nobody(journal) => journal.number(),
        }
    }

    /// Ends the publication, and gives up its boards and entries. It may wait for a reader that is looking; it is never refused and takes
    /// no memory. A look from then on answers `NotEntered`.
    pub fn close<R: Wait>(self, rt: &R) {
        let Publication { audience } = self;
        match audience {
            Audience::Seats(press) => press.close(rt),
            Audience::Nobody(_) => (),
        }
    }
}
