ghost use Rattle.std.specs.Prelude.{◌≡◌, ◌-◌, ◌<◌, ◌≤◌, [], length, vec_len, vec_capacity, None};
ghost use Rattle.desk_rows.specs.Rows.{IsByKey};
ghost use Rattle.desk_tonnage.specs.Entries.{entry_key, entry_key_cmp, entry_of, entry_units};
ghost use Rattle.desk_tonnage.specs.Edits.{with_entry, without_entry_units};
ghost use Rattle.desk_tonnage.specs.Masses.{AreByProduct, with_masses};

use crate::entry::Entry;
use crate::product_mass::ProductMass;
use crate::sums::mass_after;
use desk_rows::{place_of_key, place_of_row};
use desk_text::Code;

/// Sets an entry in its place. Where it is a new one and there is no room, the entries move into the list that comes with it.
pub fn set_entry(entries: &mut Vec<Entry>, entry: Entry, room: Vec<Entry>)
    requires by_key { IsByKey entry_key entry_key_cmp entries.old.items }
    requires empty { room.items ≡ [] }
    requires room { (entry_of entry.year entry.product entries.old.items ≡ None) × (vec_capacity entries.old - vec_len entries.old ≡ 0) → length entries.old.items < vec_capacity room }
    ensures { entries.new.items ≡ with_entry entry entries.old.items }
{
    match place_of_row(entries.as_slice(), &entry) {
        Ok(at) => entries[at] = entry,
        Err(at) => {
            make_room(entries, room);
            let entered = entries.insert(at, entry);
            prove!(entered.is_ok());
        }
    }
}

/// Where there is no room, the entries move into the other list.
fn make_room(entries: &mut Vec<Entry>, room: Vec<Entry>)
    requires empty { room.items ≡ [] }
    requires room { vec_capacity entries.old - vec_len entries.old ≡ 0 → vec_len entries.old < vec_capacity room }
    ensures items { entries.new.items ≡ entries.old.items }
    ensures len { vec_len entries.new ≡ vec_len entries.old }
    ensures room { vec_len entries.new < vec_capacity entries.new }
{
    if entries.len() < entries.capacity() {
        return;
    }
    let mut moved = room;
    let all = moved.append(entries);
    prove!(all.is_ok());
    *entries = moved;
}

/// Takes units off the entry of this year and product, if there is one; an entry at 0 goes out.
pub fn lower_units(entries: &mut Vec<Entry>, key: &(u16, Code), units: u64)
    requires by_key { IsByKey entry_key entry_key_cmp entries.old.items }
    requires kept { units ≤ entry_units key.now.0 key.now.1 entries.old.items }
    ensures { entries.new.items ≡ without_entry_units key.now.0 key.now.1 units entries.old.items }
{
    if let Ok(at) = place_of_key(entries.as_slice(), key) {
        let left = entries[at].units - units;
        if left == 0 {
            entries.remove(at);
        } else {
            entries[at].units = left;
        }
    }
}

/// Gives each entry the new mass of its product, where there is one.
pub fn set_masses(entries: &mut [Entry], masses: &[ProductMass])
    requires { AreByProduct masses.now }
    ensures { entries.new ≡ with_masses masses.now entries.old }
{
    for entry in entries.iter_mut() {
        entry.mass = mass_after(masses, entry);
    }
}
