use desk_law::{
    Annex, Claim, Kind, KindSet, Restriction, Rule, Terms, Verdict, covers, judge, judge_by, over,
};
use desk_testing::{check, expect_eq, shows};
use desk_text::{Code, Day, DayFault, ExemptionNumber};
use std::test::Fail;

/// Fails unless the set takes a kind that it has not, takes none that it has, and has no other.
fn takes_another(set: &mut KindSet) -> Result<(), Fail> {
    let are_new = set.insert(Kind::LargeHousehold) && !set.insert(Kind::Toy);
    check(
        are_new,
        "a kind is new where it is kept, or is not where it is not",
    )?;
    let has = set.contains(Kind::Other) && !set.contains(Kind::ToyLeisureSports);
    check(has, "a set has other kinds")
}

/// Fails unless the second set has kinds, and the first one, which has none, is a subset of it.
fn are_none_and_some(none: &KindSet, set: &KindSet) -> Result<(), Fail> {
    let is_empty = !set.is_empty() && KindSet::default().is_empty();
    check(is_empty, "a set with kinds is empty, or one without is not")?;
    let is_subset = none.is_subset(set) && !set.is_subset(none);
    check(is_subset, "a set is a subset of another")
}

#[test]
fn a_set_writes_its_kinds_once_in_the_order_of_the_annex(rt: HostRuntime) -> Result<(), Fail> {
    let none = KindSet::new();
    let mut set = KindSet::from([Kind::Other, Kind::Toy, Kind::Other].as_slice());
    takes_another(&mut set)?;
    are_none_and_some(&none, &set)?;
    shows(rt.alloc(), &set, "1,7t,11")?;
    shows(rt.alloc(), &none, "")
}

/// 4294967295 ppm of 18446744073709551615 micrograms, in millionths of a microgram.
const GREATEST_LIMIT: u128 = 79_228_162_495_817_593_515_539_431_425;

/// The place of the first row in which a share of a mass is over a limit otherwise.
fn first_wrong_share(rows: &[(u128, u64, u32, bool)]) -> Option<usize> {
    for (place, (share, mass, ppm, want)) in rows.iter().enumerate() {
        if over(*share, *mass, *ppm) != *want {
            return Some(place);
        }
    }
    None
}

#[test]
fn a_share_is_over_only_above_the_limit() -> Result<(), Fail> {
    let rows = [
        (1_000_000_000, 1_000_000, 1000, false),
        (1_000_000_001, 1_000_000, 1000, true),
        (0, 0, 1000, false),
        (1, 0, 1000, true),
        (GREATEST_LIMIT, u64::MAX, u32::MAX, false),
        (GREATEST_LIMIT + 1, u64::MAX, u32::MAX, true),
        (u128::MAX, u64::MAX, u32::MAX, true),
    ];
    expect_eq(&first_wrong_share(&rows), &None)
}

/// The terms of exemption `6(c)` for lead in equipment of kind 3, from 2014-07-22 to 2026-06-30.
fn copper_alloys(row: &[u8], floor: Option<u32>, cap: Option<u32>) -> Result<Terms, Fail> {
    Ok(Terms {
        row: Code::read(row)?,
        annex: Annex::Three,
        number: ExemptionNumber::read(b"6(c)")?,
        rule: Rule::Lead,
        kinds: KindSet::from([Kind::Telecommunications].as_slice()),
        first: Day::new(2014, 7, 22),
        last: Day::new(2026, 6, 30),
        floor,
        cap,
    })
}

/// A claim of an exemption from the rule on lead.
fn claim(number: &[u8]) -> Result<Claim, Fail> {
    Ok(Claim {
        rule: Rule::Lead,
        number: ExemptionNumber::read(number)?,
    })
}

/// Whether the row covers this share of lead in this mass, for a kind and on a day.
fn covers_lead(
    row: &Terms,
    claims: &[Claim],
    (share, mass): (u128, u64),
    kind: Kind,
    day: &str,
) -> Result<bool, DayFault> {
    let day = Day::read(day.as_bytes())?;
    Ok(covers(row, claims, Rule::Lead, kind, day, share, mass))
}

#[test]
fn a_row_for_no_kind_covers_nothing() -> Result<(), Fail> {
    let mut row = copper_alloys(b"R6C", None, None)?;
    row.kinds = KindSet::new();
    let it = Kind::Telecommunications;
    let covers = covers_lead(&row, &[claim(b"6(c)")?], (1, 1), it, "2024-01-23")?;
    check(!covers, "a row for no kind covers")
}

/// A row's floor and cap, a share and a mass, and whether the row covers them.
type Bounds = (Option<u32>, Option<u32>, u128, u64, bool);

/// Whether a row with this floor and this cap covers the share of the mass.
fn covers_within(bounds: &Bounds) -> Result<bool, Fail> {
    let (floor, cap, share, mass, _) = *bounds;
    let row = copper_alloys(b"R6C", floor, cap)?;
    let claims = [claim(b"6(c)")?];
    let (kind, day) = (Kind::Telecommunications, "2024-01-23");
    Ok(covers_lead(&row, &claims, (share, mass), kind, day)?)
}

/// The place of the first case in which a row with a floor and a cap covers otherwise.
fn first_wrong_bounds(cases: &[Bounds]) -> Result<Option<usize>, Fail> {
    for (place, bounds) in cases.iter().enumerate() {
        if covers_within(bounds)? != bounds.4 {
            return Ok(Some(place));
        }
    }
    Ok(None)
}

const BOUNDS: [Bounds; 6] = [
    (None, None, u128::MAX, 1_000_000, true),
    (Some(1000), Some(1000), 0, 0, true),
    (Some(1000), Some(1000), 1, 0, false),
    (Some(u32::MAX), None, GREATEST_LIMIT - 1, u64::MAX, false),
    (
        Some(u32::MAX),
        Some(u32::MAX),
        GREATEST_LIMIT,
        u64::MAX,
        true,
    ),
    (None, Some(u32::MAX), GREATEST_LIMIT + 1, u64::MAX, false),
];

#[test]
fn a_row_covers_at_the_ends_of_share_and_mass() -> Result<(), Fail> {
    expect_eq(&first_wrong_bounds(&BOUNDS)?, &None)
}

/// The place of the first case in which a restriction of this limit, in force from this day on, gives another verdict on a day.
fn first_wrong_restriction(cases: &[(u32, Option<Day>, Day, Verdict)]) -> Option<usize> {
    for (place, (ppm, first, day, want)) in cases.iter().enumerate() {
        let restriction = Restriction {
            rule: Rule::Lead,
            kind: Kind::Telecommunications,
            ppm: *ppm,
            first: *first,
        };
        if judge_by(501_000_000, 1_000_000, &[], &restriction, *day, &[]) != *want {
            return Some(place);
        }
    }
    None
}

#[test]
fn a_restriction_of_any_limit_and_first_day_is_judged_by_them() -> Result<(), Fail> {
    let before = Day::new(2024, 12, 31);
    let first = Day::new(2025, 1, 1);
    let cases = [
        (500, Some(first), before, Verdict::NotInForce),
        (500, Some(first), first, Verdict::Breach),
        (500, None, first, Verdict::NotInForce),
        (501, Some(first), first, Verdict::Within),
    ];
    expect_eq(&first_wrong_restriction(&cases), &None)
}

/// A share and a mass, and the verdict on them.
type Judged = (u128, u64, Verdict);

/// The place of the first case in which the verdict on lead without a row is another.
fn first_wrong_verdict(cases: &[Judged]) -> Option<usize> {
    let (it, day) = (Kind::Telecommunications, Day::new(2024, 1, 23));
    for (place, (share, mass, want)) in cases.iter().enumerate() {
        if judge(*share, *mass, &[], Rule::Lead, it, day, &[]) != *want {
            return Some(place);
        }
    }
    None
}

#[rattlefmt::skip]
const ENDS: [Judged; 5] = [
    (0, 0, Verdict::Within),
    (1, 0, Verdict::Breach),
    (18_446_744_073_709_551_615_000, u64::MAX, Verdict::Within),
    (18_446_744_073_709_551_615_001, u64::MAX, Verdict::Breach),
    (u128::MAX, u64::MAX, Verdict::Breach),
];

#[test]
fn a_verdict_at_the_ends_of_share_and_mass() -> Result<(), Fail> {
    expect_eq(&first_wrong_verdict(&ENDS), &None)
}
