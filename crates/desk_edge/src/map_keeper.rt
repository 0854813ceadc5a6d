ghost use Rattle.std.specs.Prelude.{◌≡◌, ◌≤◌, true, Err, IfOk, IfSome, OnOk, OnErr, IsErrOf, IsPermutation, option_copied, Ok, if◌then◌else◌};
ghost use Rattle.desk_edge.specs.Content.{HaveDistinctKeys, IsChanged, IsFirstPast, IsSame, is_past, key_cmp, key_of};
ghost use Rattle.desk_edge.specs.Faults.{CountsFaults};
ghost use Rattle.desk_edge.specs.Stores.{KeeperInMemory, keeper_after_call, keeper_after_fault, blank, content_of, keeper_fails_next, first_past, records_with_all};
ghost use Rattle.desk_rows.specs.Rows.{IsByKey};

use crate::change::Change;
use crate::keep_fault::KeepFault;
use crate::keeper::Keeper;
use crate::key::Key;
use crate::record::Record;
use crate::records::{copied_all, copied_past, copied_records, make_all};
use desk_rows::Keyed;
use desk_text::OutOfMemory;
use std::alloc::Global;
use std::marker::Model;

/// A keeper in memory. It tells what it keeps, and fails on the calls that it is told to fail on, and on no other.
#[derive(Debug)]
pub struct MapKeeper {
    records: Vec<Record>,
    failing: Vec<u64>,
    calls: u64,
    faults: u64,
}

// Written out, so that a function that owns one does not prove anew how each part is dropped.
impl Drop for MapKeeper {
    fn drop(self) {
        let MapKeeper {
            records: _,
            failing: _,
            calls: _,
            faults: _,
        } = self;
    }
}

impl Model for MapKeeper {
    ghost use Rattle.desk_edge.specs.Content.{key_cmp, key_of};
    ghost use Rattle.desk_edge.specs.Stores.{KeeperInMemory};
    ghost use Rattle.desk_rows.specs.Rows.{IsByKey};

    ghost Value = { KeeperInMemory };

    ghost view = { λ k. record { records = k.records.items; failing = k.failing.items; calls = k.calls; faults = k.faults } };

    ghost invariant = { λ k. IsByKey key_of key_cmp k.records.items };
}

impl MapKeeper {
    /// A keeper of these records, no two of which have one key, in any order. The calls whose numbers `failing` has fail, counted
    /// from 1. It takes no memory.
    pub fn new(records: Vec<Record>, failing: Vec<u64>) -> MapKeeper
        requires { HaveDistinctKeys records.items }
        ensures records { IsPermutation records.items result.records }
        ensures by_key { IsByKey key_of key_cmp result.records }
        ensures calls { (result.calls ≡ 0) × (result.faults ≡ 0) × (result.failing ≡ failing.items) }
    {
        let mut records = records;
        records.sort_unstable_by(|a, b| a.compare_row(b));
        MapKeeper {
            records,
            failing,
            calls: 0,
            faults: 0,
        }
    }

    /// The records, in order of their keys.
    pub fn records(&self) -> &[Record]
        ensures records { result.now ≡ self.now.records }
        ensures by_key { IsByKey key_of key_cmp self.now.records }
    {
        self.records.as_slice()
    }

    /// How many calls have failed.
    pub fn faults(&self) -> u64
        ensures { result ≡ self.now.faults }
    {
        self.faults
    }

    /// A keeper of nothing, whose calls never fail. It takes no memory.
    pub(crate) fn blank(alloc: Global) -> MapKeeper
        ensures { result ≡ blank }
    {
        MapKeeper {
            records: Vec::new(alloc),
            failing: Vec::new(alloc),
            calls: 0,
            faults: 0,
        }
    }

    /// The same keeper once more, with no fault counted.
    pub(crate) fn copied_without_faults(&self, alloc: Global) -> Result<MapKeeper, OutOfMemory>
        ensures { IfOk result (λ keeper. keeper ≡ record self.now { faults = 0 }) }
    {
        Ok(MapKeeper {
            records: copied_records(alloc, self.records.as_slice())?,
            failing: self.failing.as_slice().to_vec(alloc)?,
            calls: self.calls,
            faults: 0,
        })
    }

    /// Counts a call, and where it is one that fails, the fault.
    fn count_call(&mut self) -> Result<(), KeepFault>
        ensures answer { result ≡ (if keeper_fails_next self.old then Err KeepFault.Failed else Ok tt) }
        ensures after { self.new ≡ (if keeper_fails_next self.old then keeper_after_fault self.old else keeper_after_call self.old) }
        ensures never_falls { self.old.faults ≤ self.new.faults }
    {
        self.calls = self.calls.saturating_add(1);
        if self.failing.contains(&self.calls) {
            self.faults = self.faults.saturating_add(1);
            return Err(KeepFault::Failed);
        }
        Ok(())
    }
}

impl Keeper for MapKeeper {
    ghost NeverFails = { ⊥ };

    ghost faults = { λ k. k.faults };

    ghost Tells = { λ _. Unit {0} };

    ghost content = { content_of };

    fn next_record(
        &mut self,
        alloc: Global,
        after: Option<&Key>,
    ) -> Result<Option<Record>, KeepFault>
        ensures told { Unit {0} → Unit {0} }
        ensures stays { Unit {0} → IsSame (content_of self.old) (content_of self.new) }
        ensures gives { IfOk result (λ found. Unit {0} → IsFirstPast (content_of self.new) (option_copied after.entry) found) }
        ensures later { IfOk result (λ found. IfSome found (λ kept. is_past (option_copied after.entry) (key_of kept) ≡ true)) }
        ensures faults { CountsFaults (IsErrOf result KeepFault.Failed) self.old.faults self.new.faults }
        ensures answer { IfOk result (λ found. found ≡ first_past self.old (option_copied after.entry)) }
        ensures listed { keeper_fails_next self.old ≡ true → result ≡ Err KeepFault.Failed }
        ensures no_other { IsErrOf result KeepFault.Failed → keeper_fails_next self.old ≡ true }
        ensures after { self.new ≡ (if keeper_fails_next self.old then keeper_after_fault self.old else keeper_after_call self.old) }
    {
        self.count_call()?;
        Ok(copied_past(alloc, self.records.as_slice(), after)?)
    }

    fn commit(&mut self, alloc: Global, batch: &[Change]) -> Result<(), KeepFault>
        ensures told { Unit {0} → Unit {0} }
        ensures ok { OnOk result (Unit {0} → IsChanged batch.now (content_of self.old) (content_of self.new)) }
        ensures err { OnErr result (Unit {0} → IsSame (content_of self.old) (content_of self.new)) }
        ensures faults { CountsFaults (IsErrOf result KeepFault.Failed) self.old.faults self.new.faults }
        ensures listed { keeper_fails_next self.old ≡ true → result ≡ Err KeepFault.Failed }
        ensures no_other { IsErrOf result KeepFault.Failed → keeper_fails_next self.old ≡ true }
        ensures made { OnOk result (self.new ≡ keeper_after_call (record self.old { records = records_with_all batch.now self.old.records })) }
        ensures refused { OnErr result (self.new ≡ (if keeper_fails_next self.old then keeper_after_fault self.old else keeper_after_call self.old)) }
    {
        self.count_call()?;
        let changes = copied_all(alloc, batch)?;
        self.records.reserve(changes.len())?;
        make_all(&mut self.records, changes);
        Ok(())
    }
}
