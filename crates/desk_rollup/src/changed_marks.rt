ghost use Rattle.std.specs.Prelude.{◌≡◌, ℕ, true, [], OnOk};
ghost use Rattle.desk_rollup.specs.Changed.{DoFollow, DoGrow, IsSteady};
ghost use Rattle.desk_rollup.specs.Numbers.{has, hop_numbers, mark_number};

use crate::hop::Hop;
use crate::hops::has_mark;
use crate::mark::{Mark, has_number};
use desk_graph::OutOfMemory;
use std::alloc::Global;
use std::marker::Model;

/// So many marks are followed at most. With more, working each out at each node costs more than gathering all.
const MOST: usize = 16;

/// The marks that have come or gone at some node so far. Contracts see them, and whether they are still followed.
#[derive(Drop)]
pub struct ChangedMarks {
    marks: Vec<Mark>,
    are_followed: bool,
}

impl Model for ChangedMarks {
    ghost use Rattle.desk_rollup.specs.Changed.{ChangedValues};

    ghost Value = { ChangedValues };

    ghost view = { λ changed. record {
      marks = changed.marks.items;
      are_followed = changed.are_followed;
    } };
}

impl ChangedMarks {
    /// No mark has changed yet. It takes no memory.
    pub fn none(alloc: Global) -> ChangedMarks
        ensures { result ≡ record { marks = []; are_followed = true } }
    {
        ChangedMarks {
            marks: Vec::new(alloc),
            are_followed: true,
        }
    }

    /// Whether the marks are followed still.
    pub fn are_followed(&self) -> bool
        ensures { result ≡ self.now.are_followed }
    {
        self.are_followed
    }

    /// The marks.
    pub fn as_slice(&self) -> &[Mark]
        ensures { result.now ≡ self.now.marks }
    {
        self.marks.as_slice()
    }

    /// Follows the marks that are only in one of the lists of hops that are kept of a node and of new ones.
    pub fn follow(&mut self, kept: &[Hop], new: &[Hop]) -> Result<(), OutOfMemory>
        ensures grows { DoGrow self.old self.new }
        ensures follows { OnOk result (DoFollow self.new kept.now new.now) }
    {
        self.add_missing(new, kept)?;
        self.add_missing(kept, new)
    }

    /// Adds the marks of hops of which others have none.
    fn add_missing(&mut self, hops: &[Hop], others: &[Hop]) -> Result<(), OutOfMemory>
        ensures grows { DoGrow self.old self.new }
        ensures follows { OnOk result ((mark : ℕ) → IsSteady self.new mark → has (hop_numbers hops.now) mark ≡ true → has (hop_numbers others.now) mark ≡ true) }
    {
        for hop in hops {
            if !self.are_followed {
                return Ok(());
            }
            if !has_mark(others, hop.mark.number()) {
                self.add(hop.mark)?;
            }
        }
        Ok(())
    }

    /// Adds a mark, if it isn't there. Where there are too many then, they are followed no more.
    fn add(&mut self, mark: Mark) -> Result<(), OutOfMemory>
        ensures grows { DoGrow self.old self.new }
        ensures added { OnOk result (IsSteady self.new (mark_number mark) → ⊥) }
    {
        if has_number(self.marks.as_slice(), mark.number()) {
            return Ok(());
        }
        if self.marks.len() >= MOST {
            self.are_followed = false;
            return Ok(());
        }
        self.marks.push(mark)?;
        Ok(())
    }
}
