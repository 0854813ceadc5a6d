ghost use Rattle.std.specs.Prelude.{◌≡◌, ◌+◌, ◌*◌, ◌^◌, ◌<◌, ◌==◌, Some, None, nat_lt, if◌then◌else◌};
ghost use Rattle.desk_rows.specs.Rows.{IsByKey};
ghost use Rattle.desk_tonnage.specs.Entries.{entries_in, entry_key, entry_key_cmp};
ghost use Rattle.desk_tonnage.specs.Masses.{AreByProduct, mass_after, with_masses};
ghost use Rattle.desk_tonnage.specs.Tonnage.{AreLoadsByProduct, carried_by, total_carried};
ghost use Rattle.desk_tonnage.specs.Years.{too_heavy_entry_year, total_mass};

use crate::entry::Entry;
use crate::product_load::ProductLoad;
use crate::product_mass::ProductMass;
use desk_rows::place_of_key;
use desk_text::Code;

/// The entries of the year. It takes two binary searches.
pub fn entries_of_year(entries: &[Entry], year: u16) -> &[Entry]
    requires { IsByKey entry_key entry_key_cmp entries.now }
    ensures { result.now ≡ entries_in year entries.now }
{
    let start = entries.partition_point(|entry| entry.year < year);
    let end = entries.partition_point(|entry| entry.year <= year);
    let from_year = &entries[start..];
    &from_year[..end - start]
}

/// The sum over the entries of units times mass, in micrograms.
pub fn total_mass(entries: &[Entry]) -> u128
    requires { total_mass entries.now < 2 ^ 128 }
    ensures { result ≡ total_mass entries.now }
{
    let mut total = 0;
    for entry in entries {
        total += u128::from(entry.units) * entry.mass;
    }
    total
}

/// The sum over the entries of units times what one unit carries, in micrograms.
pub fn total_carried(entries: &[Entry], loads: &[ProductLoad]) -> u128
    requires loads { AreLoadsByProduct loads.now }
    requires fits { total_carried loads.now entries.now < 2 ^ 128 }
    ensures { result ≡ total_carried loads.now entries.now }
{
    let mut total = 0;
    for entry in entries {
        total += u128::from(entry.units) * carried_by(loads, &entry.product);
    }
    total
}

/// What one unit of the product carries: 0 where it has no load. It takes a binary search.
pub fn carried_by(loads: &[ProductLoad], product: &Code) -> u128
    requires { AreLoadsByProduct loads.now }
    ensures { result ≡ carried_by loads.now product.now }
{
    match place_of_key(loads, product) {
        Ok(at) => loads[at].carried,
        Err(_) => 0,
    }
}

/// The new mass of the entry's product, or the old one where there is no new one. It takes a binary search.
pub fn mass_after(masses: &[ProductMass], entry: &Entry) -> u128
    requires { AreByProduct masses.now }
    ensures { result ≡ mass_after masses.now entry.now }
{
    match place_of_key(masses, &entry.product) {
        Ok(at) => masses[at].mass,
        Err(_) => entry.mass,
    }
}

/// The least year whose units would weigh 2^128 micrograms or more with the new masses. It takes one pass over the entries.
pub fn too_heavy_year(entries: &[Entry], masses: &[ProductMass]) -> Option<u16>
    requires entries { IsByKey entry_key entry_key_cmp entries.now }
    requires masses { AreByProduct masses.now }
    ensures { result ≡ too_heavy_entry_year (with_masses masses.now entries.now) }
{
    let mut sum = YearSum { year: 0, mass: 0 };
    for entry in entries {
        match sum.with(entry, mass_after(masses, entry)) {
            Some(more) => sum = more,
            None => return Some(entry.year),
        }
    }
    None
}

/// What the units of a year weigh, as far as they are counted.
#[derive(Clone, Copy)]
struct YearSum {
    year: u16,
    mass: u128,
}

impl YearSum {
    /// The sum with the units of one more entry, of this mass each, unless it is 2^128 or more. Another year begins at 0.
    fn with(self, entry: &Entry, mass: u128) -> Option<YearSum>
        ensures { result ≡ (
            let sum = (if self.year == entry.now.year then self.mass else 0) + entry.now.units * mass in
            if nat_lt sum (2 ^ 128) then Some (record { year = entry.now.year; mass = sum }) else None) }
    {
        let before = if self.year == entry.year {
            self.mass
        } else {
            0
        };
        let more = u128::from(entry.units).checked_mul(mass)?;
        let sum = before.checked_add(more)?;
        Some(YearSum {
            year: entry.year,
            mass: sum,
        })
    }
}
