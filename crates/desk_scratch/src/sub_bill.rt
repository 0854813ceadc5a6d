ghost use Rattle.std.specs.Prelude.{◌≡◌, ◌+◌, ◌*◌, ◌<◌, ◌==◌, ◌++◌, ◌∷◌, ℕ, List, [], length, not, sum_by, true, IfOk, IfSome, OnOk, if◌then◌else◌};
ghost use Rattle.desk_history.specs.Sound.{Sound};
ghost use Rattle.desk_model.specs.Lists.{is_part};
ghost use Rattle.desk_findings.specs.Above.{content, is_above};
ghost use Rattle.desk_findings.specs.Carried.{carried, own_load};
ghost use Rattle.desk_findings.specs.Mass.{mass};
ghost use Rattle.desk_findings.specs.Reaches.{lines_of};
ghost use Rattle.desk_scratch.specs.LookUps.{loads_of};
ghost use Rattle.desk_scratch.specs.SubBill.{AreOf};
ghost use Rattle.desk_totals.specs.Places.{node_at};

use crate::bill::Bill;
use crate::load::Load;
use desk_model::{LineRow, PartSort};
use desk_rows::{place_of_key, run_of};
use desk_tables::Tables;
use desk_text::{Code, OutOfMemory};
use std::alloc::Global;
use std::marker::Model;

/// What lies at and below one part of sound tables, with its masses: what an answer about that part makes once.
///
/// It is found by going down from the part, so it costs what lies there, however large the bill is. That all of it is found
/// isn't proved: where something lacks, the whole bill is asked.
pub(crate) struct SubBill<'a> {
    tables: &'a Tables,
    /// The codes of materials and parts, children first.
    codes: Vec<Code>,
    /// What each of them weighs, in micrograms.
    masses: Vec<u128>,
    /// Of each material and then of each part of the tables, where it stands among the codes, as far as a guess goes.
    places: Vec<usize>,
}

// Written out, so that a function that owns one does not prove anew how each part is dropped.
impl Drop for SubBill<'_> {
    fn drop(self) {
        let SubBill {
            tables: _,
            codes: _,
            masses: _,
            places: _,
        } = self;
    }
}

impl<'a> Model for SubBill<'a> {
    ghost use Rattle.std.specs.Prelude.{◌≡◌, map};
    ghost use Rattle.desk_history.specs.Sound.{Sound};
    ghost use Rattle.desk_findings.specs.Mass.{mass};
    ghost use Rattle.desk_scratch.specs.SubBill.{Found};

    ghost Value = { Found };

    ghost view = { λ b. record { lists = b.tables.now.lists; codes = b.codes.items } };

    ghost invariant = { λ b. Sound b.tables.now.lists × (b.masses.items ≡ map (mass b.tables.now.lists) b.codes.items) };
}

impl<'a> SubBill<'a> {
    /// What lies at and below the part. It takes a few binary searches for each part and each line there, and some memory for
    /// each material and part of the tables.
    pub(crate) fn new(
        alloc: Global,
        tables: &'a Tables,
        part: &Code,
    ) -> Result<SubBill<'a>, OutOfMemory>
        requires { Sound tables.now.lists }
        ensures { IfOk result (λ sub_bill. sub_bill.lists ≡ tables.now.lists) }
    {
        let node_count = tables
            .materials()
            .len()
            .saturating_add(tables.parts().len());
        let mut sub_bill = SubBill {
            tables,
            codes: Vec::new(alloc),
            masses: Vec::new(alloc),
            places: vec![in alloc; node_count; node_count]?,
        };
        let mut open = Vec::new(alloc);
        open.push(*part)?;
        // Each part is opened once, with its lines.
        let limit = node_count.saturating_add(tables.lines().len());
        for _step in 0..limit {
            if open.is_empty() {
                break;
            }
            sub_bill.find_next(&mut open)?;
        }
        Ok(sub_bill)
    }

    /// What the part weighs, in micrograms.
    pub(crate) fn mass(&self, alloc: Global, part: &Code) -> Result<u128, OutOfMemory>
        requires { is_part self.now.lists part.now ≡ true }
        ensures { IfOk result (λ weight. weight ≡ mass self.now.lists part.now) }
    {
        if let Some(mass) = self.amount_of(part, self.masses.as_slice()) {
            return Ok(mass);
        }
        let bill = Bill::new(alloc, self.tables)?;
        Ok(bill.mass(part))
    }

    /// What the part carries of each candidate that it carries, in order of substance. It takes for each candidate a few binary
    /// searches for each part and each line at and below the part.
    pub(crate) fn loads_of(&self, alloc: Global, part: &Code) -> Result<Vec<Load>, OutOfMemory>
        requires { is_part self.now.lists part.now ≡ true }
        ensures { IfOk result (λ loads. loads.items ≡ loads_of self.now.lists part.now) }
    {
        let mut list = Vec::new(alloc);
        for candidate in self.tables.candidates() {
            let substance = candidate.substance;
            let amount = self.load(alloc, &substance, part)?;
            push_if_some(&mut list, Load { substance, amount })?;
        }
        Ok(list)
    }

    /// What the part carries of the substance, in micrograms. It takes a few binary searches for each part and each line at and
    /// below the part.
    fn load(&self, alloc: Global, substance: &Code, part: &Code) -> Result<u128, OutOfMemory>
        requires { is_part self.now.lists part.now ≡ true }
        ensures { IfOk result (λ load. load ≡ carried self.now.lists substance.now part.now) }
    {
        let loads = self.loads(alloc, substance)?;
        if let Some(load) = self.amount_of(part, loads.as_slice()) {
            return Ok(load);
        }
        let bill = Bill::new(alloc, self.tables)?;
        let loads = bill.loads(alloc, substance)?;
        Ok(bill.load(loads.as_slice(), part))
    }

    /// Finds the last of the codes that are open, or opens what it needs before it.
    fn find_next(&mut self, open: &mut Vec<Code>) -> Result<(), OutOfMemory>
        ensures { self.new.lists ≡ self.old.lists }
    {
        let Some(code) = open.pop() else {
            return Ok(());
        };
        if self.place_of(&code).is_some() {
            return Ok(());
        }
        match self.mass_of(&code) {
            Some(weight) => self.put(code, weight),
            None => self.open_children(code, open),
        }
    }

    /// Opens the code, and the children of its lines that aren't found yet.
    fn open_children(&self, code: Code, open: &mut Vec<Code>) -> Result<(), OutOfMemory> {
        open.push(code)?;
        for line in self.lines_of(&code) {
            if self.place_of(&line.child).is_none() {
                open.push(line.child)?;
            }
        }
        Ok(())
    }

    /// Puts the code behind those that were found, with what it weighs.
    fn put(&mut self, code: Code, weight: u128) -> Result<(), OutOfMemory>
        requires { weight ≡ mass self.old.lists code }
        ensures { self.new.lists ≡ self.old.lists }
    {
        let place = self.codes.len();
        let node = self.node_of(&code);
        self.masses.reserve(1)?;
        self.codes.push(code)?;
        self.masses.push_reserved(weight);
        if node < self.places.len() {
            self.places[node] = place;
        }
        Ok(())
    }

    /// Where the code stands among the materials and then the parts of the tables, or past the end.
    fn node_of(&self, code: &Code) -> usize {
        self.tables.in_order();
        let materials = self.tables.materials();
        match place_of_key(materials, code) {
            Ok(place) => place,
            Err(_) => match place_of_key(self.tables.parts(), code) {
                Ok(place) => materials.len().saturating_add(place),
                Err(_) => self.places.len(),
            },
        }
    }

    /// Where the code stands among those that were found, if it does.
    fn place_of(&self, code: &Code) -> Option<usize>
        ensures { IfSome result (λ place. (place < length self.now.codes) × (node_at self.now.codes place ≡ code.now)) }
    {
        let place = *self.places.get(self.node_of(code))?;
        if self.codes.get(place)? == code {
            Some(place)
        } else {
            None
        }
    }

    /// The code's amount, where it is there.
    fn amount_of(&self, code: &Code, amounts: &[u128]) -> Option<u128>
        ensures { (amount : List ℕ → ℕ) → AreOf amount amounts.now self.now.codes → IfSome result (λ its. its ≡ amount code.now) }
    {
        let place = self.place_of(code)?;
        amounts.get(place).copied()
    }

    /// The lines of the part.
    fn lines_of(&self, part: &Code) -> &'a [LineRow]
        ensures { result.now ≡ lines_of self.now.lists.lines part.now }
    {
        run_of(self.tables.lines(), part)
    }

    /// The sum over the lines of count times the child's amount, where each is there.
    fn sum_of(&self, lines: &[LineRow], amounts: &[u128]) -> Option<u128>
        ensures { (amount : List ℕ → ℕ) → AreOf amount amounts.now self.now.codes
            → IfSome result (λ sum. sum ≡ sum_by (λ line. line.count * amount line.child) lines.now) }
    {
        let mut sum = 0;
        for line in lines {
            let amount = self.amount_of(&line.child, amounts)?;
            sum = with_times(sum, line.count, amount)?;
        }
        Some(sum)
    }

    /// What the material or the part weighs, where the masses of its children are there.
    fn mass_of(&self, code: &Code) -> Option<u128>
        ensures { IfSome result (λ weight. weight ≡ mass self.now.lists code.now) }
    {
        match self.tables.material(code) {
            Some(material) => Some(u128::from(material.mass)),
            None => self.sum_of(self.lines_of(code), self.masses.as_slice()),
        }
    }

    /// What each code carries of the substance, in micrograms, as far as what its children carry is there.
    fn loads(&self, alloc: Global, substance: &Code) -> Result<Vec<u128>, OutOfMemory>
        ensures { IfOk result (λ loads. AreOf (carried self.now.lists substance.now) loads.items self.now.codes) }
    {
        let mut loads = Vec::with_capacity(alloc, self.codes.len())?;
        for (place, code) in self.codes.iter().enumerate() {
            match self.load_of(code, self.masses[place], substance, loads.as_slice()) {
                Some(load) => loads.push(load)?,
                None => break,
            }
        }
        Ok(loads)
    }

    /// What the code carries of the substance, where what its children carry is there.
    fn load_of(&self, code: &Code, weight: u128, substance: &Code, loads: &[u128]) -> Option<u128>
        requires weight { weight ≡ mass self.now.lists code.now }
        requires loads { AreOf (carried self.now.lists substance.now) loads.now self.now.codes }
        ensures { IfSome result (λ load. load ≡ carried self.now.lists substance.now code.now) }
    {
        // A look at a field tells the proof that the tables are sound.
        let _ = &self.tables;
        let own = self.own_load(code, weight, substance);
        let below = self.sum_of(self.lines_of(code), loads)?;
        own.checked_add(below)
    }

    /// What the code carries of the substance by itself, in micrograms.
    fn own_load(&self, code: &Code, weight: u128, substance: &Code) -> u128
        requires { weight ≡ mass self.now.lists code.now }
        ensures { result ≡ own_load self.now.lists substance.now code.now }
    {
        match self.tables.part(code) {
            Some(part) if part.sort == PartSort::Article => {
                self.load_of_article(code, weight, substance)
            }
            _ => 0,
        }
    }

    /// What the article carries of the substance, in micrograms.
    fn load_of_article(&self, code: &Code, weight: u128, substance: &Code) -> u128
        requires weight { weight ≡ mass self.now.lists code.now }
        requires kept { is_part self.now.lists code.now ≡ true }
        ensures { result ≡ (if is_above self.now.lists code.now substance.now then content self.now.lists code.now substance.now else 0) }
    {
        self.tables.in_order();
        let lists = self.tables.lists();
        if lists.is_above(code, weight, substance) {
            lists.content(code, substance)
        } else {
            0
        }
    }
}

/// Appends the load, where there is any.
fn push_if_some(list: &mut Vec<Load>, load: Load) -> Result<(), OutOfMemory>
    ensures { OnOk result (list.new.items ≡ list.old.items ++ (if not (load.amount == 0) then load ∷ [] else [])) }
{
    if load.amount != 0 {
        list.push(load)?;
    }
    Ok(())
}

/// A sum with count times an amount, where that is below 2^128.
fn with_times(sum: u128, count: u32, amount: u128) -> Option<u128>
    ensures { IfSome result (λ more. more ≡ sum + count * amount) }
{
    sum.checked_add(amount.checked_mul(u128::from(count))?)
}
