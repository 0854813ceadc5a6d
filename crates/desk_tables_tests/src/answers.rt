//! The engine's answers beside those that are made of the tables alone.
ghost use Rattle.std.specs.Prelude.{◌≡◌, true};
ghost use Rattle.desk_history.specs.Sound.{Sound};
ghost use Rattle.desk_scratch.specs.Questions.{is_question_in_range};
ghost use Rattle.desk_text.specs.Day.{is_askable};

use desk_engine::Engine;
use desk_law::Kind;
use desk_scratch::{Question, answer_plain};
use desk_tables::Tables;
use desk_testing::expect_eq;
use desk_text::{Bytes, Code, Day};
use std::alloc::Global;
use std::test::Fail;

/// Fails unless both answer the question alike.
fn is_answered_alike(
    alloc: Global,
    engine: &Engine,
    tables: &Tables,
    question: &Question,
) -> Result<(), Fail>
    requires sound { Sound tables.now.lists }
    requires in_range { is_question_in_range question.now ≡ true }
{
    let mut by_engine = Bytes::start(alloc);
    let mut plain = Bytes::start(alloc);
    let stored = engine.answer_uncounted(alloc, question, &mut by_engine);
    let scratch = answer_plain(alloc, tables, question, &mut plain);
    expect_eq(&stored.err(), &scratch.err())?;
    expect_eq(&by_engine.as_slice(), &plain.as_slice())
}

/// Fails unless both answer alike what can be asked of a code.
fn is_code_answered_alike(
    alloc: Global,
    engine: &Engine,
    tables: &Tables,
    code: Code,
    day: Day,
) -> Result<(), Fail>
    requires sound { Sound tables.now.lists }
    requires askable { is_askable day ≡ true }
{
    let kind = Kind::Telecommunications;
    is_answered_alike(
        alloc,
        engine,
        tables,
        &Question::Material { code, kind, day },
    )?;
    is_answered_alike(alloc, engine, tables, &Question::Rohs { code, day })?;
    is_answered_alike(alloc, engine, tables, &Question::Reach33 { code, day })?;
    is_answered_alike(alloc, engine, tables, &Question::Part { code })?;
    is_answered_alike(alloc, engine, tables, &Question::Uses { code })
}

/// Fails unless both answer alike what can be asked of no code.
fn is_desk_answered_alike(
    alloc: Global,
    engine: &Engine,
    tables: &Tables,
    day: Day,
) -> Result<(), Fail>
    requires sound { Sound tables.now.lists }
    requires askable { is_askable day ≡ true }
{
    is_answered_alike(alloc, engine, tables, &Question::Summary { day })?;
    is_answered_alike(alloc, engine, tables, &Question::Version)?;
    let year = 2024;
    is_answered_alike(alloc, engine, tables, &Question::Reach7 { year, day })
}

/// Fails unless both answer alike each question on a day: on each material and part, and on the desk.
pub(crate) fn are_answered_alike(
    alloc: Global,
    engine: &Engine,
    tables: &Tables,
) -> Result<(), Fail>
    requires { Sound tables.now.lists }
{
    let Some(day) = Day::read_askable(b"2024-07-22") else {
        return Err(Fail::new("the day can't be asked about"));
    };
    for material in tables.materials() {
        is_code_answered_alike(alloc, engine, tables, material.code, day)?;
    }
    for part in tables.parts() {
        is_code_answered_alike(alloc, engine, tables, part.code, day)?;
    }
    is_desk_answered_alike(alloc, engine, tables, day)
}
