ghost use Rattle.std.specs.Prelude.{◌≡◌, ◌≢◌, ◌+◌, ◌++◌, ◌∷◌, [], ℕ, List, false, true, if◌then◌else◌, length, OnErr, OnOk, Some, is_some, vec_len};
ghost use Rattle.desk_edge.specs.Shelves.{is_name_among, name_cmp};
ghost use Rattle.desk_rows.specs.Rows.{row_of, without_row};

use crate::named::place_of_name;
use desk_text::{Bytes, OutOfMemory};
use std::alloc::Global;
use std::marker::Model;

/// The names of the stores of a shelf that are lent. None stands twice.
#[derive(Debug)]
pub struct Lent {
    names: Vec<Bytes>,
}

// Written out, so that a function that owns one does not prove anew how each part is dropped.
impl Drop for Lent {
    fn drop(self) {
        let Lent { names: _ } = self;
    }
}

impl Model for Lent {
    ghost use Rattle.std.specs.Prelude.{ℕ, List};
    ghost use Rattle.desk_edge.specs.Shelves.{AreApart};

    ghost Value = { List (List ℕ) };

    ghost view = { λ lent. lent.names.items };

    ghost invariant = { λ lent. AreApart lent.names.items };
}

impl Lent {
    /// No names. It takes no memory.
    pub fn new(alloc: Global) -> Lent
        ensures { result ≡ [] }
    {
        Lent {
            names: Vec::new(alloc),
        }
    }

    /// How many names there are.
    pub fn len(&self) -> usize
        ensures { result ≡ length self.now }
    {
        self.names.len()
    }

    /// Whether the name is one of them.
    pub fn has(&self, name: &[u8]) -> bool
        ensures { result ≡ is_name_among self.now name.now }
    {
        place_of_name(self.names.as_slice(), name).is_some()
    }

    /// Puts the name behind the others, unless it is one of them.
    pub fn enter(&mut self, alloc: Global, name: &[u8]) -> Result<(), OutOfMemory>
        ensures ok { OnOk result (self.new ≡ (if is_name_among self.old name.now then self.old else self.old ++ name.now ∷ [])) }
        ensures err { OnErr result (self.new ≡ self.old) }
        ensures there { OnOk result (is_name_among self.new name.now ≡ true) }
        ensures stay { (other : List ℕ) → is_name_among self.old other ≡ true → is_name_among self.new other ≡ true }
    {
        if self.has(name) {
            return Ok(());
        }
        let mut own = Bytes::start(alloc);
        own.push_all(name)?;
        self.names.reserve(1)?;
        self.names.push_reserved(own);
        Ok(())
    }

    /// Takes the name out. It takes no memory.
    pub fn take(&mut self, name: &[u8]) -> Bytes
        requires { is_name_among self.old name.now ≡ true }
        ensures taken { result ≡ name.now }
        ensures rest { self.new ≡ without_row (λ own. own) name_cmp name.now self.old }
        ensures gone { is_name_among self.new name.now ≡ false }
        ensures stay { (other : List ℕ) → other ≢ name.now → is_name_among self.old other ≡ true → is_name_among self.new other ≡ true }
        ensures len { length self.new + 1 ≡ length self.old }
    {
        take_name(&mut self.names, name)
    }
}

/// Takes the first of the names that is the one sought, where there is one.
fn take_name(names: &mut Vec<Bytes>, name: &[u8]) -> Bytes
    requires { is_some (row_of (λ own. own) name_cmp name.now names.old.items) ≡ true }
    ensures taken { row_of (λ own. own) name_cmp name.now names.old.items ≡ Some result }
    ensures rest { names.new.items ≡ without_row (λ own. own) name_cmp name.now names.old.items }
    ensures len { vec_len names.new + 1 ≡ vec_len names.old }
{
    match place_of_name(names.as_slice(), name) {
        Some(place) => names.remove(place),
        None => unreachable!(),
    }
}
