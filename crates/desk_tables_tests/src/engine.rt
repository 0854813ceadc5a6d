//! The engine beside plain tables: each edit is answered alike, whatever the edits before it.

use crate::answers::are_answered_alike;
use crate::helpers::edit_of;
use desk_engine::Engine;
use desk_model::Edit;
use desk_sample::sample;
use desk_tables::{EditFault, Tables};
use desk_testing::{check, expect_eq};
use std::alloc::Global;
use std::marker::Model;
use std::test::Fail;

/// A desk that is kept twice: by an engine, and as plain tables, which are sound.
#[derive(Drop)]
struct Twice {
    engine: Engine,
    tables: Tables,
}

impl Model for Twice {
    ghost use Rattle.desk_history.specs.Sound.{Sound};
    ghost use Rattle.desk_model.specs.Lists.{Lists};

    ghost Value = { Lists };

    ghost view = { λ twice. twice.tables.lists };

    ghost invariant = { λ twice. Sound twice.tables.lists };
}

/// The start tables, kept twice.
fn start(alloc: Global) -> Result<Twice, Fail> {
    let tables = Tables::start(alloc)?;
    let engine = Engine::from_tables(alloc, tables.copied(alloc)?)?;
    Ok(Twice { engine, tables })
}

/// What an edit was answered with, as a text.
fn told(alloc: Global, answer: Result<u64, EditFault>) -> Result<String, Fail> {
    match answer {
        Ok(number) => Ok(number.to_string(alloc)?),
        Err(fault) => Ok(fault.to_string(alloc)?),
    }
}

/// What the engine answers to the edit, which it takes where it isn't refused.
fn enter(engine: &mut Engine, alloc: Global, edit: &Edit) -> Result<u64, EditFault> {
    // An edit tells that it is in form.
    edit.in_form();
    let plan = engine.prepare_uncounted(alloc, edit)?;
    Ok(engine.commit(plan))
}

/// Fails unless both answer the edit alike, and tells whether it was taken.
fn is_answered_alike(twice: &mut Twice, alloc: Global, edit: Edit) -> Result<bool, Fail> {
    let by_engine = told(alloc, enter(&mut twice.engine, alloc, &edit))?;
    let answer = twice.tables.accept(alloc, edit);
    let is_taken = answer.is_ok();
    let plain = told(alloc, answer)?;
    expect_eq(&by_engine.as_str(), &plain.as_str())?;
    Ok(is_taken)
}

/// Fails unless an engine that is made anew of the tables answers the edit as the one that took all edits before it, and this one answers
/// each question as the tables do.
fn is_answered_anew(twice: &Twice, alloc: Global, edit: &Edit) -> Result<(), Fail> {
    let mut anew = Engine::from_tables(alloc, twice.tables.copied(alloc)?)?;
    let mut copy = twice.engine.copied(alloc)?;
    let by_anew = told(alloc, enter(&mut anew, alloc, edit))?;
    let by_copy = told(alloc, enter(&mut copy, alloc, edit))?;
    expect_eq(&by_copy.as_str(), &by_anew.as_str())?;
    are_answered_alike(alloc, &twice.engine, &twice.tables)
}

/// Enters the edits, and tells how many were taken.
fn enter_all(twice: &mut Twice, alloc: Global, edits: Vec<Edit>) -> Result<usize, Fail> {
    let mut taken = 0usize;
    for edit in edits {
        if is_answered_alike(twice, alloc, edit)? {
            taken = taken.saturating_add(1);
        }
    }
    Ok(taken)
}

#[test]
fn a_sample_is_answered_as_plain_tables_answer_it(rt: HostRuntime) -> Result<(), Fail> {
    let alloc = rt.alloc();
    let mut twice = start(alloc)?;
    let edits = sample(alloc, 200)?;
    let count = edits.len();
    expect_eq(&enter_all(&mut twice, alloc, edits)?, &count)?;
    are_answered_alike(alloc, &twice.engine, &twice.tables)
}

/// The number behind a number, as a simple generator goes.
fn number_behind(number: u64) -> u64 {
    number
        .wrapping_mul(6_364_136_223_846_793_005)
        .wrapping_add(1_442_695_040_888_963_407)
}

/// The substances that random edits name.
const SUBSTANCES: [&str; 4] = ["lead", "dehp", "cadmium", "lead-oxide"];

/// The codes that random lines lead to: materials and parts, and one that is never entered.
const CHILDREN: [&str; 14] = [
    "M0", "M1", "M2", "M3", "P0", "P1", "P2", "P3", "P4", "P5", "P6", "P7", "P8", "NONE",
];

/// The counts and masses that random edits give: small ones, and some near the limits.
const AMOUNTS: [u64; 5] = [1, 2, 7, 999_983, 1_000_000];

/// The fields of a random edit of the bill or of a material.
fn random_fields(alloc: Global, number: u64) -> Result<String, Fail> {
    let child = CHILDREN[(number / 64 % 14) as usize];
    let part = CHILDREN[(4 + number / 1_024 % 9) as usize];
    let substance = SUBSTANCES[(number / 16_384 % 4) as usize];
    let amount = AMOUNTS[(number / 65_536 % 5) as usize];
    let material = number / 1_048_576 % 4;
    let held = number / 4_194_304 % 100 * 10;
    Ok(match number / 4 % 16 {
        0 | 1 => format!(in alloc;
            "declare|S|{number}|2024-01-15|1|M{material}|Material|{}|1|{substance}|{held}|0",
            amount * 1_000
        )?,
        2 => format!(in alloc; "part|{part}|article|Part")?,
        3 => format!(in alloc; "part|{part}|assembly|Part")?,
        4 | 5 | 6 | 7 => format!(in alloc; "line|{part}|{child}|{amount}")?,
        8 => format!(in alloc; "unline|{part}|{child}")?,
        9 => format!(in alloc; "product|{part}|3")?,
        10 => format!(in alloc; "candidate|{substance}|2018-06-27")?,
        11 | 12 => format!(in alloc; "ship|{part}|{}|{}", 2_023 + material % 2, amount * amount)?,
        13 => format!(in alloc; "unship|{part}|{}|{amount}", 2_023 + material % 2)?,
        14 => format!(in alloc; "member|lead-oxide|lead|{}", held * 1_000)?,
        _ => format!(in alloc; "substance|lead-oxide|Lead oxide|1317-36-8")?,
    })
}

/// A random edit. Each hundredth has the ticket of the one before it.
fn random_edit(alloc: Global, place: u64, number: u64) -> Result<Edit, Fail> {
    let fields = random_fields(alloc, number)?;
    let code = if fields.starts_with("declare") {
        format!(in alloc; "D:S:{number}")?
    } else {
        format!(in alloc; "E:r{place}")?
    };
    edit_of(alloc, code.as_str(), fields.as_str())
}

/// Enters random edits, so many, and tells how many were taken. After each hundredth an engine that is made anew answers as this one,
/// and each question is answered as by the tables.
fn enter_random(twice: &mut Twice, alloc: Global, count: u64) -> Result<usize, Fail> {
    let mut number = 1;
    let mut taken = 0usize;
    for place in 0..count {
        number = number_behind(number);
        let edit = random_edit(alloc, place, number)?;
        if place % 100 == 99 {
            is_answered_anew(twice, alloc, &edit)?;
        }
        if is_answered_alike(twice, alloc, edit)? {
            taken = taken.saturating_add(1);
        }
    }
    Ok(taken)
}

#[test]
fn a_thousand_random_edits_are_answered_as_plain_tables_answer_them(
    rt: HostRuntime,
) -> Result<(), Fail> {
    let alloc = rt.alloc();
    let mut twice = start(alloc)?;
    let taken = enter_random(&mut twice, alloc, 1_000)?;
    check(
        300 <= taken && taken <= 900,
        "too few edits are taken, or too few are refused",
    )
}
