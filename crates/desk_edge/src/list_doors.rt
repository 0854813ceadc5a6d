ghost use Rattle.std.specs.Prelude.{◌≡◌, ◌≤◌, ◌↔◌, false, true, IfOk, IsNone, IsOk, IsErr};
ghost use Rattle.desk_edge.specs.Doors.{AreLinesCounted, Listed, after_listen, after_next, listen_answer, next_answer};
ghost use Rattle.desk_edge.specs.Faults.{CountsFaults};

use crate::doors::Doors;
use crate::failed::Failed;
use crate::memory_link::MemoryLink;
use std::marker::Model;

/// Doors in memory. They give the lines that they are made with, and then are closed, and fail on the calls that they are told to fail
/// on, and on no other.
#[derive(Debug)]
pub struct ListDoors {
    lines: Vec<MemoryLink>,
    failing: Vec<u64>,
    calls: u64,
    faults: u64,
    taken: u64,
    is_closed: bool,
}

// Written out, so that a function that owns one does not prove anew how each part is dropped.
impl Drop for ListDoors {
    fn drop(self) {
        let ListDoors {
            lines: _,
            failing: _,
            calls: _,
            faults: _,
            taken: _,
            is_closed: _,
        } = self;
    }
}

impl Model for ListDoors {
    ghost use Rattle.std.specs.Prelude.{◌≡◌, [], true};
    ghost use Rattle.desk_edge.specs.Doors.{Listed};

    ghost Value = { Listed };

    ghost view = { λ d. record {
      lines = d.lines.items;
      failing = d.failing.items;
      calls = d.calls;
      faults = d.faults;
      taken = d.taken;
      is_closed = d.is_closed;
    } };

    // Doors are closed only where all their lines were given.
    ghost invariant = { λ d. d.is_closed ≡ true → d.lines.items ≡ [] };
}

impl ListDoors {
    /// Doors that give these lines, in order. The calls whose numbers `failing` has fail; calls to listen and calls for a line are counted
    /// together, from 1. It takes no memory.
    pub fn new(lines: Vec<MemoryLink>, failing: Vec<u64>) -> ListDoors
        ensures { result ≡ record {
          lines = lines.items;
          failing = failing.items;
          calls = 0;
          faults = 0;
          taken = 0;
          is_closed = false;
        } }
    {
        ListDoors {
            lines,
            failing,
            calls: 0,
            faults: 0,
            taken: 0,
            is_closed: false,
        }
    }

    /// Counts a call, and where it is one that fails, the fault.
    fn count_call(&mut self) -> Result<(), Failed>
        ensures answer { result ≡ listen_answer self.old }
        ensures after { self.new ≡ after_listen self.old }
        ensures never_falls { self.old.faults ≤ self.new.faults }
    {
        self.calls = self.calls.saturating_add(1);
        if self.failing.contains(&self.calls) {
            self.faults = self.faults.saturating_add(1);
            return Err(Failed);
        }
        Ok(())
    }
}

impl Doors for ListDoors {
    type Line = MemoryLink;

    ghost faults = { λ d. d.faults };

    ghost taken = { λ d. d.taken };

    ghost is_closed = { λ d. d.is_closed };

    ghost NeverFails = { ⊥ };

    ghost NeverCloses = { ⊥ };

    fn listen(&mut self, _port: u16) -> Result<(), Failed>
        ensures taken_stays { self.new.taken ≡ self.old.taken }
        ensures closed_stays { self.new.is_closed ≡ self.old.is_closed }
        ensures faults { CountsFaults (IsErr result) self.old.faults self.new.faults }
        ensures never_fails { ⊥ → IsOk result }
        ensures answer { result ≡ listen_answer self.old }
        ensures after { self.new ≡ after_listen self.old }
    {
        self.count_call()
    }

    fn next(&mut self) -> Result<Option<MemoryLink>, Failed>
        ensures counts { AreLinesCounted result self.old.taken self.new.taken }
        ensures ended { IfOk result (λ given. IsNone given ↔ (self.new.is_closed ≡ true)) }
        ensures closed_stays { self.old.is_closed ≡ true → self.new.is_closed ≡ true }
        ensures faults { CountsFaults (IsErr result) self.old.faults self.new.faults }
        ensures never_fails { ⊥ → IsOk result }
        ensures never_closes { ⊥ → self.new.is_closed ≡ false }
        ensures answer { result ≡ next_answer self.old }
        ensures after { self.new ≡ after_next self.old }
    {
        self.count_call()?;
        if self.lines.is_empty() {
            self.is_closed = true;
            return Ok(None);
        }
        self.taken = self.taken.saturating_add(1);
        Ok(Some(self.lines.remove(0)))
    }

    fn faults(&self) -> u64 {
        self.faults
    }

    fn taken(&self) -> u64 {
        self.taken
    }

    fn closed(&self) -> bool {
        self.is_closed
    }
}
