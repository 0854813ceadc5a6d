use crate::notes::{Notes, Sign};
use desk_edge::{Change, KeepFault, Keeper, Key, Record};
use std::alloc::Global;

/// A keeper whose commits hold, once connections are served, until one of them was answered. Where none is, it has no memory.
#[derive(Drop)]
pub(crate) struct WaitingKeeper<'a, K> {
    keeper: K,
    notes: &'a Notes,
}

impl<'a, K: Keeper> WaitingKeeper<'a, K> {
    pub(crate) fn new(keeper: K, notes: &'a Notes) -> WaitingKeeper<'a, K> {
        WaitingKeeper { keeper, notes }
    }
}

impl<K: Keeper> Keeper for WaitingKeeper<'_, K> {
    ghost NeverFails = { K.NeverFails };

    ghost faults = { λ waiting. K.faults waiting.keeper };

    ghost Tells = { λ waiting. K.Tells waiting.keeper };

    ghost content = { λ waiting. K.content waiting.keeper };

    fn next_record(
        &mut self,
        alloc: Global,
        after: Option<&Key>,
    ) -> Result<Option<Record>, KeepFault> {
        self.keeper.next_record(alloc, after)
    }

    fn commit(&mut self, alloc: Global, batch: &[Change]) -> Result<(), KeepFault> {
        if self.notes.has_begun() {
            self.notes.note_commit();
            if !self.notes.waits_for(Sign::Answered) {
                return Err(KeepFault::OutOfMemory);
            }
        }
        self.keeper.commit(alloc, batch)
    }
}
