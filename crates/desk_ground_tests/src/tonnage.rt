ghost use Rattle.std.specs.Prelude.{◌≤◌, IsTrue};
ghost use Rattle.std.specs.List.{AllByRecursion};
ghost use Rattle.desk_tonnage.specs.Tonnage.{AreLoadsByProduct, carried_by};

use desk_rows::Table;
use desk_testing::{expect_eq, shows};
use desk_text::Code;
use desk_tonnage::{
    Entry, MassFault, ProductLoad, ProductMass, TakeFault, TonnageFault, Yearly, carried_by,
    entries_of_year,
};
use std::alloc::Global;
use std::test::Fail;

/// Half of the mass that a year may not reach.
const HALF: u128 = 1 << 127;

/// Adds units to an entry of the same mass, or to a new one.
fn add(
    yearly: &mut Yearly,
    alloc: Global,
    year: u16,
    product: &[u8],
    units: u64,
    mass: u128,
) -> Result<Result<(), TonnageFault>, Fail> {
    let product = Code::read(product)?;
    if units == 0 || !yearly.has_mass(year, &product, mass) {
        return Err(Fail::new("no units, or another mass"));
    }
    Ok(yearly.add(alloc, year, &product, units, mass))
}

/// Takes units off.
fn take(
    yearly: &mut Yearly,
    year: u16,
    product: &[u8],
    units: u64,
) -> Result<Result<(), TakeFault>, Fail> {
    Ok(yearly.take(year, &Code::read(product)?, units))
}

/// Gives products new masses.
fn set_masses(
    yearly: &mut Yearly,
    alloc: Global,
    masses: &[(&[u8], u128)],
) -> Result<Result<(), MassFault>, Fail> {
    let mut table = Table::new(alloc);
    for (product, mass) in masses {
        table.put(ProductMass {
            product: Code::read(product)?,
            mass: *mass,
        })?;
    }
    match yearly.plan_masses(Vec::from_slice(alloc, table.as_slice())?) {
        Ok(plan) => {
            yearly.commit_masses(plan);
            Ok(Ok(()))
        }
        Err(fault) => Ok(Err(fault)),
    }
}

/// Whether no unit of these entries carries more than it weighs.
fn are_within(entries: &[Entry], loads: &[ProductLoad]) -> bool
    requires { AreLoadsByProduct loads.now }
    ensures { IsTrue result → AllByRecursion (λ entry. carried_by loads.now entry.product ≤ entry.mass) entries.now }
{
    for entry in entries {
        if carried_by(loads, &entry.product) > entry.mass {
            return false;
        }
    }
    true
}

/// The tonnage of the year, where no unit carries more than it weighs.
fn tonnage(
    yearly: &Yearly,
    alloc: Global,
    year: u16,
    loads: &[(&[u8], u128)],
) -> Result<u128, Fail> {
    let mut table = Table::new(alloc);
    for (product, carried) in loads {
        table.put(ProductLoad {
            product: Code::read(product)?,
            carried: *carried,
        })?;
    }
    let loads = table.as_slice();
    if !are_within(entries_of_year(yearly.as_slice(), year), loads) {
        return Err(Fail::new("a unit carries more than it weighs"));
    }
    Ok(yearly.tonnage(year, loads))
}

fn entry(year: u16, product: &[u8], units: u64, mass: u128) -> Result<Entry, Fail> {
    Ok(Entry {
        year,
        product: Code::read(product)?,
        units,
        mass,
    })
}

/// A step of a test: an edit and its answer, or what a table of years then holds.
#[derive(Clone, Copy)]
enum Step {
    /// Adds units of a product, which weigh so much each.
    Add(u16, &'static [u8], u64, u128, Result<(), TonnageFault>),
    /// Takes units off.
    Take(u16, &'static [u8], u64, Result<(), TakeFault>),
    /// Gives products new masses.
    SetMasses(&'static [(&'static [u8], u128)], Result<(), MassFault>),
    /// There are just these entries.
    HasEntries(&'static [(u16, &'static [u8], u64, u128)]),
    /// There are so many entries.
    HasLength(usize),
    /// A year has so many units of a product.
    HasUnits(u16, &'static [u8], u64),
    /// A unit of a product weighs so much in a year.
    HasMass(u16, &'static [u8], u128),
    /// A year has this tonnage, where a unit of each product carries so much.
    HasTonnage(u16, &'static [(&'static [u8], u128)], u128),
}

/// Whether there are just these entries.
fn has_entries(yearly: &Yearly, rows: &[(u16, &[u8], u64, u128)]) -> Result<bool, Fail> {
    for (kept, (year, product, units, mass)) in yearly.as_slice().iter().zip(rows) {
        if *kept != entry(*year, product, *units, *mass)? {
            return Ok(false);
        }
    }
    Ok(yearly.as_slice().len() == rows.len())
}

/// Whether an edit is answered so.
fn is_answered(yearly: &mut Yearly, alloc: Global, step: Step) -> Result<bool, Fail> {
    match step {
        Step::Add(year, product, units, mass, want) => {
            Ok(add(yearly, alloc, year, product, units, mass)? == want)
        }
        Step::Take(year, product, units, want) => Ok(take(yearly, year, product, units)? == want),
        Step::SetMasses(masses, want) => Ok(set_masses(yearly, alloc, masses)? == want),
        _ => is_held(yearly, alloc, step),
    }
}

/// Whether this is held.
fn is_held(yearly: &Yearly, alloc: Global, step: Step) -> Result<bool, Fail> {
    match step {
        Step::HasEntries(rows) => has_entries(yearly, rows),
        Step::HasLength(length) => Ok(yearly.as_slice().len() == length),
        Step::HasUnits(year, product, units) => {
            Ok(yearly.units(year, &Code::read(product)?) == units)
        }
        Step::HasMass(year, product, mass) => {
            Ok(yearly.has_mass(year, &Code::read(product)?, mass))
        }
        Step::HasTonnage(year, loads, want) => Ok(tonnage(yearly, alloc, year, loads)? == want),
        _ => Ok(false),
    }
}

/// Fails at the first step that does not go so.
fn go_so(yearly: &mut Yearly, alloc: Global, steps: &[Step]) -> Result<(), Fail> {
    for (place, step) in steps.iter().enumerate() {
        if !is_answered(yearly, alloc, *step)? {
            return Err(Fail::new(format_args!("step {place}")));
        }
    }
    Ok(())
}

/// Products A and B in 2023, and B in 2024, put in out of order.
const THREE_ENTRIES: &[Step] = &[
    Step::Add(2024, b"B", 7, 20, Ok(())),
    Step::Add(2023, b"B", 5, 20, Ok(())),
    Step::Add(2023, b"A", 3, 10, Ok(())),
];

/// A table of the three entries.
fn three_entries(alloc: Global) -> Result<Yearly, Fail> {
    let mut yearly = Yearly::start(alloc)?;
    go_so(&mut yearly, alloc, THREE_ENTRIES)?;
    Ok(yearly)
}

/// Fails at the first step that does not go so, where the first one finds no entries.
fn go_so_from_none(alloc: Global, steps: &[Step]) -> Result<(), Fail> {
    let mut yearly = Yearly::start(alloc)?;
    go_so(&mut yearly, alloc, steps)
}

/// Fails at the first step that does not go so, where the first one finds the three entries.
fn go_so_from_three(alloc: Global, steps: &[Step]) -> Result<(), Fail> {
    let mut yearly = three_entries(alloc)?;
    go_so(&mut yearly, alloc, steps)
}

#[test]
fn entries_stand_by_year_and_then_by_product(rt: HostRuntime) -> Result<(), Fail> {
    const STEPS: &[Step] = &[Step::HasEntries(&[
        (2023, b"A", 3, 10),
        (2023, b"B", 5, 20),
        (2024, b"B", 7, 20),
    ])];
    go_so_from_three(rt.alloc(), STEPS)
}

#[test]
fn units_of_a_product_and_year_add_up(rt: HostRuntime) -> Result<(), Fail> {
    const STEPS: &[Step] = &[
        Step::Add(2023, b"B", 6, 20, Ok(())),
        Step::HasUnits(2023, b"B", 11),
        Step::HasUnits(2024, b"B", 7),
        Step::HasUnits(2024, b"A", 0),
    ];
    go_so_from_three(rt.alloc(), STEPS)
}

#[test]
fn one_unit_past_the_limit_is_refused(rt: HostRuntime) -> Result<(), Fail> {
    const STEPS: &[Step] = &[
        Step::Add(2024, b"A", 1_000_000_000_000, 1, Ok(())),
        Step::Add(2024, b"A", 1, 1, Err(TonnageFault::UnitsTooLarge)),
        Step::HasUnits(2024, b"A", 1_000_000_000_000),
        Step::Add(2025, b"A", 1, 1, Ok(())),
    ];
    go_so_from_none(rt.alloc(), STEPS)
}

#[test]
fn a_year_of_2_to_the_128_micrograms_is_refused(rt: HostRuntime) -> Result<(), Fail> {
    const IN_2024: TonnageFault = TonnageFault::YearTooLarge { year: 2024 };
    const IN_2022: TonnageFault = TonnageFault::YearTooLarge { year: 2022 };
    const STEPS: &[Step] = &[
        Step::Add(2024, b"A", 1, HALF, Ok(())),
        Step::Add(2024, b"B", 1, HALF, Err(IN_2024)),
        Step::HasLength(1),
        Step::Add(2024, b"B", 1, HALF - 1, Ok(())),
        Step::Add(2023, b"B", 1, HALF, Ok(())),
        Step::Add(2022, b"C", 4, HALF, Err(IN_2022)),
        // Too many units are told first.
        Step::Add(
            2022,
            b"C",
            1_000_000_000_001,
            HALF,
            Err(TonnageFault::UnitsTooLarge),
        ),
    ];
    go_so_from_none(rt.alloc(), STEPS)
}

#[test]
fn taking_5_where_3_are_kept_is_refused_with_3(rt: HostRuntime) -> Result<(), Fail> {
    const STEPS: &[Step] = &[
        Step::Take(2023, b"A", 5, Err(TakeFault::BelowZero { kept: 3 })),
        Step::Take(2024, b"A", 1, Err(TakeFault::BelowZero { kept: 0 })),
        Step::HasLength(3),
    ];
    go_so_from_three(rt.alloc(), STEPS)
}

#[test]
fn an_entry_at_0_goes_out(rt: HostRuntime) -> Result<(), Fail> {
    const STEPS: &[Step] = &[
        Step::Take(2023, b"A", 3, Ok(())),
        Step::Take(2023, b"B", 2, Ok(())),
        Step::HasEntries(&[(2023, b"B", 3, 20), (2024, b"B", 7, 20)]),
        Step::Take(2023, b"A", 0, Ok(())),
        Step::HasLength(2),
    ];
    go_so_from_three(rt.alloc(), STEPS)
}

#[test]
fn a_new_mass_holds_in_each_year_of_the_product(rt: HostRuntime) -> Result<(), Fail> {
    const STEPS: &[Step] = &[
        Step::SetMasses(&[(b"B", 30), (b"C", 1)], Ok(())),
        Step::HasEntries(&[
            (2023, b"A", 3, 10),
            (2023, b"B", 5, 30),
            (2024, b"B", 7, 30),
        ]),
    ];
    go_so_from_three(rt.alloc(), STEPS)
}

#[test]
fn of_years_that_would_weigh_too_much_the_least_is_named(rt: HostRuntime) -> Result<(), Fail> {
    const IN_2023: MassFault = MassFault::YearTooLarge { year: 2023 };
    const STEPS: &[Step] = &[
        Step::Add(2022, b"A", 1, 10, Ok(())),
        Step::SetMasses(&[(b"B", HALF)], Err(IN_2023)),
        Step::HasMass(2023, b"B", 20),
        Step::SetMasses(&[(b"A", HALF / 4), (b"B", 1)], Ok(())),
        Step::HasMass(2022, b"A", HALF / 4),
    ];
    go_so_from_three(rt.alloc(), STEPS)
}

#[test]
fn masses_that_make_up_for_one_another_are_taken_together(rt: HostRuntime) -> Result<(), Fail> {
    const IN_2024: MassFault = MassFault::YearTooLarge { year: 2024 };
    const STEPS: &[Step] = &[
        Step::Add(2024, b"A", 1, 1, Ok(())),
        Step::Add(2024, b"B", 1, HALF, Ok(())),
        Step::SetMasses(&[(b"A", HALF)], Err(IN_2024)),
        Step::SetMasses(&[(b"A", HALF), (b"B", 1)], Ok(())),
    ];
    go_so_from_none(rt.alloc(), STEPS)
}

#[test]
fn a_tonne_and_a_milligram(rt: HostRuntime) -> Result<(), Fail> {
    const STEPS: &[Step] = &[
        Step::Add(2024, b"G", 1_000_000_000, 2_000, Ok(())),
        Step::HasTonnage(2024, &[(b"G", 1_000)], 1_000_000_000_000),
        Step::Add(2024, b"G", 1, 2_000, Ok(())),
        Step::HasTonnage(2024, &[(b"G", 1_000)], 1_000_000_001_000),
    ];
    go_so_from_none(rt.alloc(), STEPS)
}

#[test]
fn a_tonnage_counts_the_entries_of_its_year_that_have_a_load(rt: HostRuntime) -> Result<(), Fail> {
    const STEPS: &[Step] = &[
        Step::HasTonnage(2022, &[(b"B", 4), (b"C", 1_000)], 0),
        Step::HasTonnage(2023, &[(b"B", 4), (b"C", 1_000)], 20),
        Step::HasTonnage(2024, &[(b"B", 4), (b"C", 1_000)], 28),
        Step::HasTonnage(2023, &[(b"A", 10), (b"B", 20)], 130),
    ];
    go_so_from_three(rt.alloc(), STEPS)
}

/// Fails unless the copy has the same entries, and what is added to it is not added to what it is a copy of.
fn is_copied(yearly: &Yearly, copy: &mut Yearly, alloc: Global) -> Result<(), Fail> {
    const STEPS: &[Step] = &[Step::Add(2024, b"A", 1, 10, Ok(()))];
    expect_eq(&copy.as_slice(), &yearly.as_slice())?;
    go_so(copy, alloc, STEPS)?;
    expect_eq(&yearly.as_slice().len(), &3)
}

#[test]
fn a_copy_has_the_same_entries(rt: HostRuntime) -> Result<(), Fail> {
    let yearly = three_entries(rt.alloc())?;
    let mut copy = yearly.copied(rt.alloc())?;
    is_copied(&yearly, &mut copy, rt.alloc())
}

/// Fails unless years that are made of all entries at once have the same entries.
fn is_made_at_once(yearly: &Yearly, alloc: Global) -> Result<(), Fail> {
    // The years tell that their entries stand in order.
    let entries = yearly.as_slice();
    match Yearly::from_entries(Vec::from_slice(alloc, entries)?) {
        Ok(made) => expect_eq(&made.as_slice(), &entries),
        Err(_) => Err(Fail::new("a year is too heavy")),
    }
}

#[test]
fn entries_make_years_at_once(rt: HostRuntime) -> Result<(), Fail> {
    is_made_at_once(&three_entries(rt.alloc())?, rt.alloc())
}

/// Fails unless three products can be added to each of 92 years, and are counted then.
fn has_room_for_hundreds(yearly: &mut Yearly, alloc: Global) -> Result<(), Fail> {
    const STEPS: &[Step] = &[
        Step::HasLength(276),
        Step::HasTonnage(2_050, &[(b"A", 1), (b"C", 3)], 8),
    ];
    for year in 2_008..2_100 {
        for product in [b"B", b"A", b"C"] {
            add(yearly, alloc, year, product, 2, 10)??;
        }
    }
    go_so(yearly, alloc, STEPS)
}

#[test]
fn hundreds_of_entries_find_room(rt: HostRuntime) -> Result<(), Fail> {
    let mut yearly = Yearly::start(rt.alloc())?;
    has_room_for_hundreds(&mut yearly, rt.alloc())
}

/// The desk's entries once more, kept as plain counts: units by year and product, and the mass of each product.
#[derive(Clone, Copy)]
struct Plain {
    units: [[u64; 4]; 3],
    masses: [u128; 4],
}

/// The products of the plain counts.
const PRODUCTS: [&[u8]; 4] = [b"A", b"AB", b"B", b"C"];

/// The years of the plain counts.
const YEARS: [u16; 3] = [2_019, 2_023, 2_024];

/// The entries of the plain counts.
fn plain_entries(alloc: Global, plain: &Plain) -> Result<Vec<Entry>, Fail> {
    let mut entries = Vec::new(alloc);
    for (year, units) in YEARS.iter().zip(plain.units.iter()) {
        for (product, count) in units.iter().enumerate() {
            if *count > 0 {
                entries.push(entry(*year, PRODUCTS[product], *count, plain.masses[product])?)?;
            }
        }
    }
    Ok(entries)
}

/// Makes one edit on both, and tells whether the two answered alike.
fn edit_both(
    yearly: &mut Yearly,
    alloc: Global,
    plain: &mut Plain,
    number: u64,
) -> Result<bool, Fail> {
    let year = (number % 3) as usize;
    let product = (number / 3 % 4) as usize;
    let amount = number / 12 % 50 + 1;
    let name = PRODUCTS[product];
    let kept = plain.units[year][product];
    match number / 600 % 4 {
        0 => {
            plain.masses[product] = u128::from(amount);
            set_masses(yearly, alloc, &[(name, u128::from(amount))])??;
            Ok(true)
        }
        1 | 2 => {
            plain.units[year][product] = kept.saturating_add(amount);
            add(
                yearly,
                alloc,
                YEARS[year],
                name,
                amount,
                plain.masses[product],
            )??;
            Ok(true)
        }
        _ if kept < amount => {
            Ok(take(yearly, YEARS[year], name, amount)? == Err(TakeFault::BelowZero { kept }))
        }
        _ => {
            plain.units[year][product] = kept - amount;
            take(yearly, YEARS[year], name, amount)??;
            Ok(true)
        }
    }
}

/// The first of a thousand edits that the two answer otherwise, or that leaves them apart.
fn first_wrong_edit(
    yearly: &mut Yearly,
    alloc: Global,
    plain: &mut Plain,
) -> Result<Option<u32>, Fail> {
    let mut state: u64 = 1;
    for number in 0..1_000 {
        state = state
            .wrapping_mul(6_364_136_223_846_793_005)
            .wrapping_add(1_442_695_040_888_963_407);
        let alike = edit_both(yearly, alloc, plain, state / 8_192)?;
        let entries = plain_entries(alloc, plain)?;
        if !alike || yearly.as_slice() != entries.as_slice() {
            return Ok(Some(number));
        }
    }
    Ok(None)
}

/// Fails unless each of a thousand edits is answered alike, and leaves the same entries.
fn are_alike(yearly: &mut Yearly, alloc: Global) -> Result<(), Fail> {
    let mut plain = Plain {
        units: [[0; 4]; 3],
        masses: [1; 4],
    };
    expect_eq(&first_wrong_edit(yearly, alloc, &mut plain)?, &None)
}

#[test]
fn a_thousand_edits_leave_what_plain_counts_do(rt: HostRuntime) -> Result<(), Fail> {
    let mut yearly = Yearly::start(rt.alloc())?;
    are_alike(&mut yearly, rt.alloc())
}

/// Fails unless each fault has its words.
fn faults_are_told(alloc: Global) -> Result<(), Fail> {
    let year = 2024;
    let words = "the units of 2024 weigh too much";
    shows(alloc, &TonnageFault::YearTooLarge { year }, words)?;
    shows(alloc, &MassFault::YearTooLarge { year }, words)?;
    let words = "more than 1000000000000 units";
    shows(alloc, &TonnageFault::UnitsTooLarge, words)?;
    shows(alloc, &TonnageFault::OutOfMemory, "out of memory")?;
    shows(
        alloc,
        &TakeFault::BelowZero { kept: 3 },
        "only 3 units are kept",
    )
}

#[test]
fn faults_of_units_and_masses_are_told(rt: HostRuntime) -> Result<(), Fail> {
    faults_are_told(rt.alloc())
}
