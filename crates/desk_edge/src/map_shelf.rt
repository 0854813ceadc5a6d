ghost use Rattle.std.specs.Prelude.{◌≡◌, ◌≢◌, ◌+◌, ◌<◌, ◌≤◌, ◌∷◌, [], ℕ, List, true, Err, IfOk, OnOk, OnErr, Ok, IsErrOf, if◌then◌else◌, vec_capacity, vec_len};
ghost use Rattle.std.specs.Option.{option_map_or};
ghost use Rattle.desk_edge.specs.Content.{IsSame};
ghost use Rattle.desk_edge.specs.Faults.{CountsFaults, one_more};
ghost use Rattle.desk_edge.specs.Shelves.{IsPutBack, Lends, LendsTheSame, Shelved, shelf_content, count_in, shelf_fails_next, is_lent, name_cmp, opened};
ghost use Rattle.desk_edge.specs.Stores.{blank, content_of};
ghost use Rattle.desk_rows.specs.Rows.{row_of, without_row};

use crate::keep_fault::KeepFault;
use crate::lent::Lent;
use crate::map_keeper::MapKeeper;
use crate::named::place_of_store;
use crate::shelf::Shelf;
use desk_text::{Bytes, OutOfMemory};
use std::alloc::Global;
use std::marker::Model;

/// A shelf in memory. It tells what each store keeps, and fails on the openings that it is told to fail on, and on no other.
///
/// A store that is opened is a copy of the one that the shelf keeps, which is the one that was given back last: so a name may be opened
/// again while it is lent, as a file may.
#[derive(Debug)]
pub struct MapShelf {
    stores: Vec<(Bytes, MapKeeper)>,
    lent: Lent,
    failing: Vec<u64>,
    calls: u64,
    faults: u64,
}

// Written out, so that a function that owns one does not prove anew how each part is dropped.
impl Drop for MapShelf {
    fn drop(self) {
        let MapShelf {
            stores: _,
            lent: _,
            failing: _,
            calls: _,
            faults: _,
        } = self;
    }
}

impl Model for MapShelf {
    ghost use Rattle.std.specs.Prelude.{◌+◌, ◌≤◌, length, vec_capacity, vec_len};
    ghost use Rattle.desk_edge.specs.Shelves.{Shelved};

    ghost Value = { Shelved };

    ghost view = { λ s. record { stores = s.stores.items; lent = s.lent; failing = s.failing.items; calls = s.calls; faults = s.faults } };

    // There is room for the stores that are lent.
    ghost invariant = { λ s. vec_len s.stores + length s.lent ≤ vec_capacity s.stores };
}

impl MapShelf {
    /// A shelf with these stores, each behind its name; of two with one name the first is meant. The openings whose numbers `failing`
    /// has fail, counted from 1. It takes no memory.
    pub fn new(alloc: Global, stores: Vec<(Bytes, MapKeeper)>, failing: Vec<u64>) -> MapShelf
        ensures { result ≡ record { stores = stores.items; lent = []; failing = failing.items; calls = 0; faults = 0 } }
    {
        MapShelf {
            stores,
            lent: Lent::new(alloc),
            failing,
            calls: 0,
            faults: 0,
        }
    }

    /// How many faults were counted.
    pub fn faults(&self) -> u64
        ensures { result ≡ self.now.faults }
    {
        self.faults
    }

    /// Counts an opening, and where it is one that fails, the fault.
    fn count_opening(&mut self) -> Result<(), KeepFault>
        ensures answer { result ≡ (if shelf_fails_next self.old then Err KeepFault.Failed else Ok tt) }
        ensures stores { (self.new.stores ≡ self.old.stores) × (self.new.lent ≡ self.old.lent) }
        ensures after { (self.new.calls ≡ one_more self.old.calls) × (self.new.failing ≡ self.old.failing) }
        ensures faults { CountsFaults (shelf_fails_next self.old ≡ true) self.old.faults self.new.faults }
    {
        let is_refused = self.fails_next();
        self.calls = self.calls.saturating_add(1);
        if is_refused {
            self.faults = self.faults.saturating_add(1);
            return Err(KeepFault::Failed);
        }
        Ok(())
    }

    /// Whether the next opening is one that fails.
    fn fails_next(&self) -> bool
        ensures { result ≡ shelf_fails_next self.now }
    {
        self.failing.contains(&self.calls.saturating_add(1))
    }
}

/// The store of this name once more, with no fault counted. Where there is none it is one with nothing in it.
fn copied_store(
    alloc: Global,
    stores: &[(Bytes, MapKeeper)],
    name: &[u8],
) -> Result<MapKeeper, OutOfMemory>
    ensures { IfOk result (λ store. store ≡ option_map_or (λ store. record store.1 { faults = 0 }) (row_of (λ store. store.0) name_cmp name.now stores.now) blank) }
{
    match place_of_store(stores, name) {
        Some(place) => stores[place].1.copied_without_faults(alloc),
        None => Ok(MapKeeper::blank(alloc)),
    }
}

/// Takes out the store of this name, where there is one.
fn drop_store(stores: &mut Vec<(Bytes, MapKeeper)>, name: &[u8])
    ensures rest { stores.new.items ≡ without_row (λ store. store.0) name_cmp name.now stores.old.items }
    ensures len { vec_len stores.new ≤ vec_len stores.old }
    ensures capacity { vec_capacity stores.new ≡ vec_capacity stores.old }
{
    match place_of_store(stores.as_slice(), name) {
        Some(place) => drop(stores.remove(place)),
        None => {}
    }
}

/// Puts the store in front of the others, where there is room for it.
fn put_store(stores: &mut Vec<(Bytes, MapKeeper)>, name: Bytes, store: MapKeeper)
    requires { vec_len stores.old < vec_capacity stores.old }
    ensures stores { stores.new.items ≡ (name, store) ∷ stores.old.items }
    ensures len { vec_len stores.new ≡ vec_len stores.old + 1 }
    ensures capacity { vec_capacity stores.new ≡ vec_capacity stores.old }
{
    let entered = stores.insert(0, (name, store));
    prove!(entered.is_ok());
}

impl Shelf for MapShelf {
    type Store = MapKeeper;

    ghost faults = { λ s. s.faults };

    ghost IsLent = { λ s name. is_lent s name ≡ true };

    ghost Tells = { λ _ _. Unit {0} };

    ghost content = { shelf_content };

    ghost count = { count_in };

    fn open_store(&mut self, alloc: Global, name: &[u8]) -> Result<MapKeeper, KeepFault>
        ensures fresh { IfOk result (λ store. store.faults ≡ 0) }
        ensures lent { IfOk result (λ store. is_lent self.new name.now ≡ true) }
        ensures lends { (other : List ℕ) → is_lent self.old other ≡ true → is_lent self.new other ≡ true }
        ensures told { IfOk result (λ store. Unit {0} → Unit {0} × IsSame (shelf_content self.old name.now) (content_of store)) }
        ensures others { (other : List ℕ) → Unit {0} → Unit {0} × IsSame (shelf_content self.old other) (shelf_content self.new other) }
        ensures faults { CountsFaults (IsErrOf result KeepFault.Failed) self.old.faults self.new.faults }
        ensures answer { IfOk result (λ store. store ≡ opened self.old name.now) }
        ensures opened { OnOk result (Lends name.now self.old self.new) }
        ensures left { OnErr result (LendsTheSame self.old self.new) }
        ensures refused { IsErrOf result KeepFault.Failed → shelf_fails_next self.old ≡ true }
        ensures listed { shelf_fails_next self.old ≡ true → result ≡ Err KeepFault.Failed }
        ensures after { (self.new.calls ≡ one_more self.old.calls) × (self.new.failing ≡ self.old.failing) }
    {
        self.count_opening()?;
        let store = copied_store(alloc, self.stores.as_slice(), name)?;
        self.stores.reserve(self.lent.len() + 1)?;
        self.lent.enter(alloc, name)?;
        Ok(store)
    }

    fn close_store(&mut self, name: &[u8], store: MapKeeper)
        requires { is_lent self.old name.now ≡ true }
        ensures back { is_lent self.new name.now ≡ true → ⊥ }
        ensures lends { (other : List ℕ) → other ≢ name.now → is_lent self.old other ≡ true → is_lent self.new other ≡ true }
        ensures count { count_in self.new name.now ≡ store.faults }
        ensures kept { Unit {0} → Unit {0} × IsSame (content_of store) (shelf_content self.new name.now) }
        ensures others { (other : List ℕ) → other ≢ name.now → Unit {0} → Unit {0} × IsSame (shelf_content self.old other) (shelf_content self.new other) }
        ensures faults { CountsFaults (0 < store.faults) self.old.faults self.new.faults }
        ensures put_back { IsPutBack name.now store self.old self.new }
        ensures after { (self.new.calls ≡ self.old.calls) × (self.new.failing ≡ self.old.failing) }
    {
        self.faults = self.faults.saturating_add(u64::from(store.faults() > 0));
        let own = self.lent.take(name);
        drop_store(&mut self.stores, name);
        put_store(&mut self.stores, own, store);
    }
}
