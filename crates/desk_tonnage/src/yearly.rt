ghost use Rattle.std.specs.Prelude.{◌≡◌, ◌≢◌, ◌+◌, ◌*◌, ◌^◌, ◌<◌, ◌≤◌, ◌↔◌, [], length, nat_le, option_map, vec_capacity, IsTrue, None, Some, Ok, Err, IfOk, IfErr, OnOk, OnErr};
ghost use Rattle.std.specs.List.{AllByRecursion};
ghost use Rattle.desk_rows.specs.Rows.{IsByKey};
ghost use Rattle.desk_tonnage.specs.Entries.{entry_key, entry_key_cmp, entry_units};
ghost use Rattle.desk_tonnage.specs.Edits.{HasMass, add_answer, entry_with, take_answer, with_entry, with_entry_units, without_entry_units};
ghost use Rattle.desk_tonnage.specs.Kept.{IsAddPlan, IsMassPlan, IsNewWithoutRoom};
ghost use Rattle.desk_tonnage.specs.Masses.{AreByProduct, masses_answer, with_masses};
ghost use Rattle.desk_tonnage.specs.Tonnage.{AreLoadsByProduct, AreWithinMasses, entries_tonnage};
ghost use Rattle.desk_tonnage.specs.Years.{IsYearly, too_heavy_entry_year, entries_mass_in};

use crate::edits::{lower_units, set_entry, set_masses};
use crate::entry::Entry;
use crate::fault::{MassFault, TakeFault, TonnageFault};
use crate::plan::{AddPlan, MassPlan};
use crate::product_load::ProductLoad;
use crate::product_mass::ProductMass;
use crate::sums::{entries_of_year, too_heavy_year, total_carried, total_mass};
use desk_rows::place_of_key;
use desk_text::{Code, OutOfMemory};
use std::alloc::Global;
use std::marker::Model;

/// The greatest number of units of a product in a year.
pub const UNITS_LIMIT: u64 = 1_000_000_000_000;

/// For how many entries room is taken at first.
const FIRST_ROOM: usize = 64;

/// How many units of each product were shipped in each year, and what one unit weighs: an entry a year and product.
///
/// Contracts see the entries, by year and then by product, and how many more of them need no memory.
#[derive(Drop)]
pub struct Yearly {
    entries: Vec<Entry>,
}

impl Model for Yearly {
    ghost use Rattle.std.specs.Prelude.{◌-◌, vec_len, vec_capacity};
    ghost use Rattle.desk_tonnage.specs.Kept.{KeptEntries};
    ghost use Rattle.desk_tonnage.specs.Years.{IsYearly};

    ghost Value = { KeptEntries };

    ghost view = { λ yearly. record {
      entries = yearly.entries.items;
      room = vec_capacity yearly.entries - vec_len yearly.entries;
    } };

    ghost invariant = { λ yearly. IsYearly yearly.entries.items };
}

impl Yearly {
    /// No entries.
    pub fn start(alloc: Global) -> Result<Yearly, OutOfMemory>
        ensures { IfOk result (λ yearly. yearly.entries ≡ []) }
    {
        Ok(Yearly {
            entries: Vec::with_capacity(alloc, FIRST_ROOM)?,
        })
    }

    /// The years of many shipments at once: of entries that stand in their order by year and then by product. It takes no memory, and
    /// one pass over the entries.
    ///
    /// `YearTooLarge`: the first year whose units weigh 2^128 micrograms or more.
    pub fn from_entries(entries: Vec<Entry>) -> Result<Yearly, MassFault>
        requires by_key { IsByKey entry_key entry_key_cmp entries.items }
        requires units { AllByRecursion (λ entry. (1 ≤ entry.units) × (entry.units ≤ 1000000000000)) entries.items }
        ensures entries { IfOk result (λ yearly. yearly.entries ≡ entries.items) }
        ensures fits { IfOk result (λ yearly. too_heavy_entry_year entries.items ≡ None) }
        ensures fault { IfErr result (λ fault. option_map MassFault.YearTooLarge (too_heavy_entry_year entries.items) ≡ Some fault) }
    {
        match too_heavy_year(entries.as_slice(), &[]) {
            Some(year) => Err(MassFault::YearTooLarge { year }),
            None => Ok(Yearly { entries }),
        }
    }

    /// The entries, by year and then by product.
    pub fn as_slice(&self) -> &[Entry]
        ensures entries { result.now ≡ self.now.entries }
        ensures yearly { IsYearly self.now.entries }
    {
        self.entries.as_slice()
    }

    /// How many units of the product are kept for the year: 0 where there is no entry. It takes a binary search.
    pub fn units(&self, year: u16, product: &Code) -> u64
        ensures units { result ≡ entry_units year product.now self.now.entries }
        ensures limit { result ≤ 1000000000000 }
    {
        match place_of_key(self.entries.as_slice(), &(year, *product)) {
            Ok(at) => self.entries[at].units,
            Err(_) => 0,
        }
    }

    /// Whether the entry of the product in the year has this mass. Where there is none, any mass will do. It takes a binary search.
    pub fn has_mass(&self, year: u16, product: &Code, mass: u128) -> bool
        ensures { IsTrue result ↔ HasMass year product.now mass self.now.entries }
    {
        match place_of_key(self.entries.as_slice(), &(year, *product)) {
            Ok(at) => self.entries[at].mass == mass,
            Err(_) => true,
        }
    }

    /// Adds units of a product, each of this mass in micrograms, to a year. The faults are tried in the order of `TonnageFault`. It
    /// takes time by the entries of the year, beside the insertion. Memory may be wanting only for a new entry without room.
    pub fn add(
        &mut self,
        alloc: Global,
        year: u16,
        product: &Code,
        units: u64,
        mass: u128,
    ) -> Result<(), TonnageFault>
        requires some { 1 ≤ units }
        requires mass { HasMass year product.now mass self.old.entries }
        ensures answer { result ≢ Err TonnageFault.OutOfMemory → result ≡ add_answer year product.now units mass self.old.entries }
        ensures ok { OnOk result (self.new.entries ≡ with_entry_units year product.now units mass self.old.entries) }
        ensures err { OnErr result (self.new ≡ self.old) }
        ensures memory { result ≡ Err TonnageFault.OutOfMemory → IsNewWithoutRoom year product.now self.old }
    {
        let plan = self.plan_add(alloc, year, product, units, mass)?;
        self.commit_add(plan);
        Ok(())
    }

    /// Makes ready to add units of a product, each of this mass in micrograms, to a year. The faults are tried in the order of
    /// `TonnageFault`. It takes time by the entries of the year. Memory may be wanting only for a new entry without room.
    pub fn plan_add(
        &self,
        alloc: Global,
        year: u16,
        product: &Code,
        units: u64,
        mass: u128,
    ) -> Result<AddPlan, TonnageFault>
        requires some { 1 ≤ units }
        requires mass { HasMass year product.now mass self.now.entries }
        ensures ready { IfOk result (λ plan. add_answer year product.now units mass self.now.entries ≡ Ok tt) }
        ensures refused { IfErr result (λ fault. fault ≢ TonnageFault.OutOfMemory → add_answer year product.now units mass self.now.entries ≡ Err fault) }
        ensures plan { IfOk result (λ plan. IsAddPlan self.now plan) }
        ensures entry { IfOk result (λ plan. plan.entry ≡ entry_with year product.now units mass self.now.entries) }
        ensures memory { result ≡ Err TonnageFault.OutOfMemory → IsNewWithoutRoom year product.now self.now }
    {
        let kept = self.units(year, product);
        if units > UNITS_LIMIT - kept {
            return Err(TonnageFault::UnitsTooLarge);
        }
        if self.is_too_heavy(year, product, units, mass) {
            return Err(TonnageFault::YearTooLarge { year });
        }
        let room = self.room_for(alloc, year, product)?;
        Ok(AddPlan {
            entry: Entry {
                year,
                product: *product,
                units: kept + units,
                mass,
            },
            room,
        })
    }

    /// Sets the planned entry. It isn't refused, and takes no memory.
    pub fn commit_add(&mut self, plan: AddPlan)
        requires { IsAddPlan self.old plan }
        ensures { self.new.entries ≡ with_entry plan.entry self.old.entries }
    {
        let AddPlan { entry, room } = plan;
        set_entry(&mut self.entries, entry, room);
    }

    /// Takes units of a product off a year; an entry at 0 goes out. It takes no memory.
    pub fn take(&mut self, year: u16, product: &Code, units: u64) -> Result<(), TakeFault>
        ensures answer { result ≡ take_answer year product.now units self.old.entries }
        ensures ok { OnOk result (self.new.entries ≡ without_entry_units year product.now units self.old.entries) }
        ensures err { OnErr result (self.new ≡ self.old) }
    {
        let kept = self.units(year, product);
        if units > kept {
            return Err(TakeFault::BelowZero { kept });
        }
        lower_units(&mut self.entries, &(year, *product), units);
        Ok(())
    }

    /// Makes ready to give products new masses, in the order of the products, each once. It takes no memory, and one pass over
    /// all entries.
    pub fn plan_masses(&self, masses: Vec<ProductMass>) -> Result<MassPlan, MassFault>
        requires { AreByProduct masses.items }
        ensures answer { result ≡ masses_answer masses.items self.now.entries }
        ensures plan { IfOk result (λ plan. IsMassPlan self.now.entries plan) }
    {
        match too_heavy_year(self.entries.as_slice(), masses.as_slice()) {
            Some(year) => Err(MassFault::YearTooLarge { year }),
            None => Ok(MassPlan { masses }),
        }
    }

    /// Sets the planned masses. It isn't refused, and takes no memory.
    pub fn commit_masses(&mut self, plan: MassPlan)
        requires { IsMassPlan self.old.entries plan }
        ensures { self.new.entries ≡ with_masses plan self.old.entries }
    {
        set_masses(self.entries.as_mut_slice(), plan.masses.as_slice());
    }

    /// The sum over the entries of the year of units times what one unit carries, in micrograms. An entry without a load counts
    /// 0, and so does a load without an entry. It takes time by the entries of the year.
    pub fn tonnage(&self, year: u16, carried: &[ProductLoad]) -> u128
        requires by_product { AreLoadsByProduct carried.now }
        requires within { AreWithinMasses year carried.now self.now.entries }
        ensures { result ≡ entries_tonnage year carried.now self.now.entries }
    {
        total_carried(entries_of_year(self.entries.as_slice(), year), carried)
    }

    /// The same entries once more.
    pub fn copied(&self, alloc: Global) -> Result<Yearly, OutOfMemory>
        ensures { IfOk result (λ yearly. yearly.entries ≡ self.now.entries) }
    {
        Ok(Yearly {
            entries: Vec::from_slice(alloc, self.entries.as_slice())?,
        })
    }

    /// Whether the year would weigh 2^128 micrograms or more with so many units more of a product, each of this mass.
    fn is_too_heavy(&self, year: u16, product: &Code, units: u64, mass: u128) -> bool
        requires { HasMass year product.now mass self.now.entries }
        ensures { result ≡ nat_le (2 ^ 128) (entries_mass_in year (with_entry_units year product.now units mass self.now.entries)) }
    {
        let kept = total_mass(entries_of_year(self.entries.as_slice(), year));
        match u128::from(units).checked_mul(mass) {
            Some(more) => kept.checked_add(more).is_none(),
            None => true,
        }
    }

    /// An empty list to take the place of the entries, with room for more than they are, where an entry of the year and product
    /// would be a new one and has no room. Else an empty list without room, which takes no memory.
    fn room_for(&self, alloc: Global, year: u16, product: &Code) -> Result<Vec<Entry>, OutOfMemory>
        ensures empty { IfOk result (λ room. room.items ≡ []) }
        ensures room { IfOk result (λ room. IsNewWithoutRoom year product.now self.now → length self.now.entries < vec_capacity room) }
        ensures memory { IfErr result (λ _. IsNewWithoutRoom year product.now self.now) }
    {
        let len = self.entries.len();
        let is_kept = place_of_key(self.entries.as_slice(), &(year, *product)).is_ok();
        if is_kept | (len < self.entries.capacity()) {
            return Ok(Vec::new(alloc));
        }
        match len.checked_add(len.max(FIRST_ROOM)) {
            Some(capacity) => Ok(Vec::with_capacity(alloc, capacity)?),
            None => Err(OutOfMemory),
        }
    }
}
