ghost use Rattle.std.specs.Prelude.{◌≡◌, [], ◌∷◌, map, OnOk, IfOk};
ghost use Rattle.desk_rollup.specs.Merge.{merged};

use crate::entry::Entry;
use crate::merge::{join_held, merge_lifted, push_entry, push_lifted};
use desk_graph::{BillLine, OutOfMemory};
use std::alloc::Global;
use std::marker::Model;
use std::mem;

/// A list in the order of its numbers to which others are added. Contracts see the list.
#[derive(Drop)]
pub struct Gathering<E> {
    held: Vec<E>,
    room: Vec<E>,
}

impl<E> Model for Gathering<E> {
    ghost use Rattle.std.specs.Prelude.{List};

    ghost Value = { List E };

    ghost view = { λ gathering. gathering.held.items };
}

impl<E: Entry> Gathering<E> {
    /// No entries. It takes no memory yet.
    pub fn new(alloc: Global) -> Gathering<E>
        ensures { result ≡ [] }
    {
        Gathering {
            held: Vec::new(alloc),
            room: Vec::new(alloc),
        }
    }

    /// Begins anew with no entries.
    pub fn clear(&mut self)
        ensures { self.new ≡ [] }
    {
        self.held.clear();
    }

    /// Adds one entry.
    pub fn add(&mut self, entry: E) -> Result<(), OutOfMemory>
        ensures { OnOk result (self.new ≡ merged E.number E.joined (entry ∷ []) self.old) }
    {
        self.room.clear();
        let at = push_entry(self.held.as_slice(), 0, entry, &mut self.room)?;
        self.room.extend_from_slice(self.held.split_at(at).1)?;
        mem::swap(&mut self.held, &mut self.room);
        Ok(())
    }

    /// Adds what the entries of a child are at the parent of the line. To no entries they are appended as they come.
    #[tactic(auto, using(crate::proofs::MergeSteps::merged_into_none))]
    pub fn add_lifted(&mut self, line: BillLine, entries: &[E]) -> Result<(), OutOfMemory>
        ensures { OnOk result (self.new ≡ merged E.number E.joined (map (E.lifted line) entries.now) self.old) }
    {
        if self.held.is_empty() {
            return push_lifted(line, entries, &mut self.held);
        }
        let (at, joined) = join_held(self.held.as_mut_slice(), line, entries);
        if joined == entries.len() {
            return Ok(());
        }
        let (front, rest) = self.held.as_slice().split_at(at);
        self.room.clear();
        self.room.extend_from_slice(front)?;
        merge_lifted(rest, line, &entries[joined..], &mut self.room)?;
        mem::swap(&mut self.held, &mut self.room);
        Ok(())
    }

    /// The entries, as they stand here.
    pub fn as_slice(&self) -> &[E]
        ensures { result.now ≡ self.now }
    {
        self.held.as_slice()
    }

    /// The entries, in a list that takes no more room than they do.
    pub fn copied(&self, alloc: Global) -> Result<Vec<E>, OutOfMemory>
        ensures { IfOk result (λ entries. entries.items ≡ self.now) }
    {
        Ok(Vec::from_slice(alloc, self.held.as_slice())?)
    }
}
