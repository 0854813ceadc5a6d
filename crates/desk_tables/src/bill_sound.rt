ghost use Rattle.std.specs.Prelude.{◌≡◌, true, IfErr, IfOk, OnOk};
ghost use Rattle.desk_findings.specs.Bill.{are_children_right, are_codes_apart, is_acyclic};
ghost use Rattle.desk_tables.specs.Soundness.{NamesBreach};
ghost use Rattle.desk_totals.specs.Cycles.{IsOnCycle};
ghost use Rattle.desk_totals.specs.Linked.{IsLinkedOf};

use crate::tested_row::fault_at;
use crate::{SoundFault, Tables};
use desk_totals::Links;
use std::alloc::Global;

impl Tables {
    /// The bill of materials, where no part reaches itself; else the fault names a line of a cycle.
    ///
    /// It takes up to two searches of a node for each line and a few passes over the bill, more where there is a cycle.
    pub(crate) fn acyclic_bill(&self, alloc: Global) -> Result<Links, SoundFault>
        requires apart { are_codes_apart self.now.lists ≡ true }
        requires children { are_children_right self.now.lists ≡ true }
        ensures bill { IfOk result (λ bill. IsLinkedOf bill self.now.lists) }
        ensures acyclic { OnOk result (is_acyclic self.now.lists ≡ true) }
        ensures told { IfErr result (NamesBreach self.now.lists) }
    {
        // The call does nothing but say that the lists stand in order.
        self.in_order();
        let bill = self.lists().linked(alloc)?;
        match bill.line_on_cycle(alloc)? {
            Some(place) => {
                drop(bill);
                Err(self.cycle_fault_at(alloc, place))
            }
            None => Ok(bill),
        }
    }

    /// The fault that names the line at the place, which is on a cycle.
    fn cycle_fault_at(&self, alloc: Global, place: usize) -> SoundFault
        requires { IsOnCycle self.now.lists place }
        ensures { NamesBreach self.now.lists result }
    {
        fault_at(alloc, &self.lines()[place])
    }
}
