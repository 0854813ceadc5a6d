ghost use Rattle.std.specs.Prelude.{◌≡◌, ◌+◌, ◌<◌, ◌^◌, [], ◌∷◌, ◌++◌, OnOk, OnErr, IfErr};
ghost use mathlib.Core.List.{IsPrefix};
ghost use Rattle.desk_publish.specs.Lists.{after_all};

use crate::blank_book::BlankBook;
use crate::board::Board;
use crate::book::Book;
use crate::naming::Naming;
use crate::news::News;
use crate::put_refused::PutRefused;
use crate::version::Version;
use std::marker::Model;

/// The list of a writer beside whom nobody reads. Contracts see it as the lists of a press: what is published, and the whole list.
///
/// There is no board, and no entry is kept: a put adds it to the list and gives it up. So no call takes memory or waits.
#[derive(Drop)]
pub(crate) struct Journal<B: Board, J: Naming<B>> {
    book: Book<B, J>,
    published: Version<B, J>,
    whole: Version<B, J>,
}

impl<B: Board, J: Naming<B>> Model for Journal<B, J> {
    ghost use mathlib.Core.List.{IsPrefix};
    ghost use Rattle.desk_publish.specs.Lists.{PressLists};

    ghost Value = { PressLists B.Entry };

    ghost view = { λ j. record { published = j.published; whole = j.whole } };

    ghost invariant = { λ j. IsPrefix j.published j.whole };
}

impl<B: Board, J: Naming<B>> Journal<B, J> {
    /// The list of a book that was just opened, which has no entry yet. The number is that of the board before the first entry.
    pub(crate) fn new(blank: BlankBook<B>, number: u64) -> Journal<B, J>
        requires book { blank ≡ J.book }
        requires number { number ≡ B.number_of (B.state J.opening) }
        requires may_be_put { B.MayBePut (B.state J.opening) [] }
        ensures { result ≡ record { published = []; whole = [] } }
    {
        let (book, whole) = blank.named::<J>(number);
        Journal {
            book,
            published: whole.again(),
            whole,
        }
    }

    /// One more pending entry. Where the list doesn't take it, the entry comes back.
    pub(crate) fn put(&mut self, entry: B::Entry) -> Result<(), PutRefused<B::Entry>>
        requires one { B.number_of (B.after (after_all B.after (B.state J.opening) self.old.whole) entry)
            ≡ B.number_of (after_all B.after (B.state J.opening) self.old.whole) + 1 }
        requires fits { B.number_of (after_all B.after (B.state J.opening) self.old.whole) + 1 < 2 ^ 64 }
        requires may_be_put { B.MayBePut (B.state J.opening) (self.old.whole ++ entry ∷ []) }
        ensures published { self.new.published ≡ self.old.published }
        ensures added { OnOk result (self.new.whole ≡ self.old.whole ++ entry ∷ []) }
        ensures handed_back { IfErr result (λ refused. refused.entry ≡ entry) }
        ensures stays { OnErr result (self.new ≡ self.old) }
    {
        if self.whole.push(&self.book, &entry) {
            Ok(())
        } else {
            Err(PutRefused { entry })
        }
    }

    /// Publishes what is pending, all of it at one step.
    pub(crate) fn settle(&mut self)
        ensures published { self.new.published ≡ self.old.whole }
        ensures whole { self.new.whole ≡ self.old.whole }
    {
        self.published = self.whole.again();
    }

    /// The published list. A seat that learns it isn't sure of it, as there is no reader beside the list.
    pub(crate) fn tell(&self) -> News<B, J>
        ensures told { result.list ≡ self.now.published }
    {
        News::new(None, self.published.again())
    }

    /// The number of the whole list, which begins with what is published.
    pub(crate) fn number(&self) -> u64
        ensures number { result ≡ B.number_of (after_all B.after (B.state J.opening) self.now.whole) }
        ensures may_be_put { B.MayBePut (B.state J.opening) self.now.whole }
        ensures begins { IsPrefix self.now.published self.now.whole }
    {
        self.whole.number()
    }
}
