ghost use Rattle.std.specs.Prelude.{◌≡◌, ℕ, Err, IfErr, List, OnOk};
ghost use Rattle.desk_history.specs.Sound.{Sound};
ghost use Rattle.desk_tables.specs.Soundness.{NamesBreach};

use crate::{SoundFault, Tables};
use std::alloc::Global;

impl Tables {
    /// Tests whether the tables are sound: whether each clause that accepted edits keep holds of them.
    ///
    /// `Unsound`: a row of the table, under this code, breaks a clause. Where more than one row does it names one of
    /// them, and which isn't said. `OutOfMemory`: there was no memory to find out, and nothing is known.
    ///
    /// It takes a few binary searches for each row, reads each edit's text, and takes what the sums of an edit that may
    /// raise them all take; where there is a cycle or a sum is too large, some passes over the bill more.
    pub fn is_sound(&self, alloc: Global) -> Result<(), SoundFault>
        ensures sound { OnOk result (Sound self.now.lists) }
        ensures told { IfErr result (NamesBreach self.now.lists) }
        ensures unsound { (table : ℕ) (key : List ℕ) → result ≡ Err (SoundFault.Unsound table key) → Sound self.now.lists → ⊥ }
    {
        // The call does nothing but say that the lists stand in order.
        self.in_order();
        if let Some(fault) = self.row_fault(alloc) {
            return Err(fault);
        }
        if let Some(fault) = self.ticket_fault(alloc) {
            return Err(fault);
        }
        match self.acyclic_bill(alloc) {
            Ok(bill) => self.test_sums(alloc, &bill),
            Err(fault) => Err(fault),
        }
    }
}
