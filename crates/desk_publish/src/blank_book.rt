ghost use Rattle.std.specs.Prelude.{◌≡◌, []};

use crate::board::Board;
use crate::book::Book;
use crate::book_rule::BookRule;
use crate::naming::Naming;
use crate::version::Version;
use logbook::{Seen, Start, Word};
use std::marker::Model;

/// A book for a list of entries, which has none yet and belongs to no name. Contracts see it as which book it is.
///
/// It is opened before the board, so that the top call of a program can pick the name by it.
#[derive(Drop)]
pub struct BlankBook<B: Board> {
    head: Word<B::Entry, u64, BookRule>,
    seen: Seen<B::Entry, u64, BookRule>,
}

impl<B: Board> Model for BlankBook<B> {
    ghost use Rattle.std.specs.Prelude.{◌≡◌, []};
    ghost use Rattle.logbook.specs.Pages.{Book, book_coded};
    ghost use Rattle.desk_publish.specs.Rules.{entry_count_word};

    ghost Value = { Book };

    ghost coded = { book_coded };

    ghost view = { λ b. b.seen.book };

    ghost invariant = { λ b. (b.seen.log ≡ []) × (b.head ≡ entry_count_word b.seen.book) };
}

impl<B: Board> BlankBook<B> {
    /// Opens a book. It takes no memory.
    pub fn new() -> BlankBook<B> {
        let (seen, mut first, _second) = Seen::open(Start::alone(), 0, 0);
        BlankBook {
            head: Word::tracked(0, &mut first),
            seen,
        }
    }

    /// The book's word under its name, and the version that has no entry. The number is that of the board before the first entry.
    pub(crate) fn named<J: Naming<B>>(self, number: u64) -> (Book<B, J>, Version<B, J>)
        requires book { self ≡ J.book }
        requires number { number ≡ B.number_of (B.state J.opening) }
        requires may_be_put { B.MayBePut (B.state J.opening) [] }
        ensures { result.1 ≡ [] }
    {
        let BlankBook { head, seen } = self;
        (Book::new(head), Version::opening(seen, number))
    }
}
