ghost use Rattle.std.specs.Prelude.{◌≡◌, ◌+◌, ◌*◌, ◌<◌, ◌≤◌, ◌^◌, ℕ, List, true, IfOk, OnOk, filter, length, nat_lt, if◌then◌else◌};
ghost use Rattle.std.specs.Option.{option_map_or};
ghost use Rattle.desk_text.specs.Code.{code_cmp, same_code};
ghost use Rattle.desk_rows.specs.Rows.{IsByKey};
ghost use Rattle.desk_model.specs.Lists.{material_row};
ghost use Rattle.desk_findings.specs.Above.{held_mass, mass_in};
ghost use Rattle.desk_findings.specs.Articles.{is_article};
ghost use Rattle.desk_findings.specs.OwnValues.{content_of_lines, mass_of_lines};
ghost use Rattle.desk_history.specs.Sound.{IsConsistent};
ghost use Rattle.desk_bridge.specs.Own.{AreAbove, amount_held, is_more};

use crate::pushing::push_if;
use crate::tables_after::TablesAfter;
use desk_model::{LineRow, SubstanceMass};
use desk_rows::{Keyed, Table};
use desk_text::{Code, OutOfMemory};
use std::alloc::Global;
use std::cmp::Ordering;

/// A substance, and how much of it is held.
#[derive(Clone, Copy)]
pub(crate) struct Holding {
    /// The substance, the key.
    pub(crate) substance: Code,
    /// How much of it, in micrograms.
    pub(crate) amount: u128,
}

impl Keyed for Holding {
    type Key = Code;

    ghost key = { λ holding. holding.substance };

    fn compare(&self, sought: &Code) -> Ordering {
        self.substance.cmp(sought)
    }

    fn compare_row(&self, other: &Holding) -> Ordering {
        self.substance.cmp(&other.substance)
    }

    fn copied(&self, _alloc: Global) -> Result<Holding, OutOfMemory> {
        Ok(*self)
    }
}

/// The substances that are above in an article. It takes a binary search for each of its lines, and two for each substance that the
/// material of a line holds.
pub(crate) fn above_in<'a>(
    alloc: Global,
    lists: &TablesAfter<'a>,
    article: &Code,
) -> Result<Vec<Holding>, OutOfMemory>
    requires consistent { IsConsistent lists.now }
    requires few { length lists.now.lines ≤ 131072 }
    requires article { is_article lists.now article.now ≡ true }
    ensures { IfOk result (λ above. AreAbove lists.now article.now above.items) }
{
    let lines = lists.lines_of(alloc, article)?;
    let weight = weight_of(lists, lines.as_slice());
    let held = held_by(alloc, lists, lines.as_slice())?;
    more_than_thousandth(alloc, lists, weight, held.as_slice())
}

/// What lines to materials weigh.
fn weight_of<'a>(lists: &TablesAfter<'a>, lines: &[LineRow]) -> u128
    requires { length lines.now ≤ 131072 }
    ensures sum { result ≡ mass_of_lines (material_row lists.now) lines.now }
    ensures fits { result < 2 ^ 128 }
{
    let mut sum = 0u128;
    for line in lines {
        sum += u128::from(line.count) * u128::from(mass_of(lists, &line.child));
    }
    sum
}

/// What a material weighs, 0 for what is none.
fn mass_of<'a>(lists: &TablesAfter<'a>, code: &Code) -> u64
    ensures { result ≡ option_map_or (λ material. material.mass) (material_row lists.now code.now) 0 }
{
    match lists.material(code) {
        Some(row) => row.mass,
        None => 0,
    }
}

/// What lines to materials hold of each substance.
fn held_by<'a>(
    alloc: Global,
    lists: &TablesAfter<'a>,
    lines: &[LineRow],
) -> Result<Table<Holding>, OutOfMemory>
    requires consistent { IsConsistent lists.now }
    requires fits { (substance : List ℕ) → content_of_lines (material_row lists.now) lines.now substance < 2 ^ 128 }
    ensures { IfOk result (λ held. (substance : List ℕ) → amount_held held.rows substance ≡ content_of_lines (material_row lists.now) lines.now substance) }
{
    let mut held = Table::new(alloc);
    for line in lines {
        add_line(&mut held, lists, line)?;
    }
    Ok(held)
}

/// Adds what a line holds of each substance.
fn add_line<'a>(
    held: &mut Table<Holding>,
    lists: &TablesAfter<'a>,
    line: &LineRow,
) -> Result<(), OutOfMemory>
    requires consistent { IsConsistent lists.now }
    requires fits { (substance : List ℕ) → amount_held held.old.rows substance + line.now.count * mass_in lists.now substance line.now.child < 2 ^ 128 }
    ensures { OnOk result ((substance : List ℕ) → amount_held held.new.rows substance ≡ amount_held held.old.rows substance + line.now.count * mass_in lists.now substance line.now.child) }
{
    match lists.material(&line.child) {
        Some(row) => add_substances(held, row.substances.as_slice(), line.count),
        None => Ok(()),
    }
}

/// Adds so many times what is held of each substance.
fn add_substances(
    held: &mut Table<Holding>,
    substances: &[SubstanceMass],
    count: u32,
) -> Result<(), OutOfMemory>
    requires distinct { IsByKey (λ one. one.substance) code_cmp substances.now }
    requires fits { (substance : List ℕ) → amount_held held.old.rows substance + count * held_mass substance substances.now < 2 ^ 128 }
    ensures { OnOk result ((substance : List ℕ) → amount_held held.new.rows substance ≡ amount_held held.old.rows substance + count * held_mass substance substances.now) }
{
    for one in substances {
        add(
            held,
            &one.substance,
            u128::from(count) * u128::from(one.mass),
        )?;
    }
    Ok(())
}

/// Adds so much of a substance.
fn add(held: &mut Table<Holding>, substance: &Code, more: u128) -> Result<(), OutOfMemory>
    requires { amount_held held.old.rows substance.now + more < 2 ^ 128 }
    ensures { OnOk result ((other : List ℕ) → amount_held held.new.rows other ≡ amount_held held.old.rows other + (if same_code substance.now other then more else 0)) }
{
    let amount = amount_of(held, substance) + more;
    held.put(Holding {
        substance: *substance,
        amount,
    })?;
    Ok(())
}

/// How much of a substance is held.
fn amount_of(held: &Table<Holding>, substance: &Code) -> u128
    ensures { result ≡ amount_held held.now.rows substance.now }
{
    match held.get(substance) {
        Some(holding) => holding.amount,
        None => 0,
    }
}

/// Those of the substances that are candidates and more than one thousandth of the weight.
fn more_than_thousandth<'a>(
    alloc: Global,
    lists: &TablesAfter<'a>,
    weight: u128,
    held: &[Holding],
) -> Result<Vec<Holding>, OutOfMemory>
    ensures { IfOk result (λ above. above.items ≡ filter (is_more lists.now weight) held.now) }
{
    let mut above = Vec::new(alloc);
    for holding in held {
        push_if(&mut above, is_more(lists, weight, holding), *holding)?;
    }
    Ok(above)
}

/// Whether a substance is a candidate and more than one thousandth of the weight. It takes a binary search.
fn is_more<'a>(lists: &TablesAfter<'a>, weight: u128, holding: &Holding) -> bool
    ensures { result ≡ is_more lists.now weight holding.now }
{
    is_over_thousandth(holding.amount, weight) && lists.is_candidate(&holding.substance)
}

/// Whether a mass is more than one thousandth of another.
fn is_over_thousandth(part: u128, whole: u128) -> bool
    ensures { result ≡ nat_lt whole (1000 * part) }
{
    match part.checked_mul(1000) {
        Some(times) => times > whole,
        // A thousand times the part is then 2^128 or more, and so more than any mass.
        None => true,
    }
}
