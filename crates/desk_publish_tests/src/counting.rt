ghost use Rattle.std.specs.Prelude.{◌≡◌};

use desk_publish::{Board, Glance, Naming, OutOfMemory};
use std::alloc::Global;
use std::marker::Brand;

/// A board that counts its entries.
#[derive(Drop)]
pub struct Counting {
    pub count: u64,
    /// So many entries are refused before the next is taken in, as if there was no memory.
    pub refusals: u64,
}

impl Board for Counting {
    ghost use Rattle.std.specs.Prelude.{◌+◌};

    type Entry = u64;

    type State = u64;

    ghost state = { λ board. board.count };

    ghost after = { λ count entry. count + 1 };

    // Any entries may be put.
    ghost MayBePut = { λ count entries. Unit {0} };

    ghost number_of = { λ count. count };

    fn absorb(&mut self, _alloc: Global, _entry: &u64) -> Result<(), OutOfMemory> {
        if self.refusals > 0 {
            self.refusals -= 1;
            return Err(OutOfMemory);
        }
        if self.count == u64::MAX {
            return Err(OutOfMemory);
        }
        self.count += 1;
        Ok(())
    }

    fn number(&self) -> u64 {
        self.count
    }
}

impl Naming<Counting> for Brand {
    ghost book = { record { number = 0; log_name = 0; cells_name = 0 } };

    ghost opening = { record { count = 0; refusals = 0 } };
}

/// A board with no entry, which refuses none.
pub fn empty() -> Counting
    ensures { result ≡ record { count = 0; refusals = 0 } }
{
    Counting {
        count: 0,
        refusals: 0,
    }
}

/// A glance that reads the count.
#[derive(Drop)]
pub struct Reading {
    pub count: u64,
}

impl Glance<Counting> for Reading {
    ghost use Rattle.std.specs.Prelude.{◌≡◌};

    ghost sees = { λ before board after. after.count ≡ board.count };

    fn at(&mut self, board: &Counting) {
        self.count = board.count;
    }
}
