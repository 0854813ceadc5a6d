ghost use Rattle.std.specs.Prelude.{◌≡◌, ◌≢◌, ◌+◌, ◌<◌, ◌++◌, ℕ, List, Some, true, Ok, Err, IfErr, IfOk, IfSome, OnErr, OnOk};
ghost use Rattle.desk_text.specs.Day.{is_askable};
ghost use Rattle.desk_history.specs.Sound.{Sound};
ghost use Rattle.desk_scratch.specs.declared.ask_fault.AskFault.TheVariants as ask;
ghost use Rattle.desk_scratch.specs.declared.question.Question.TheVariants as question;
ghost use Rattle.desk_scratch.specs.Eval.{eval};
ghost use Rattle.desk_scratch.specs.Questions.{is_question_in_range};
ghost use Rattle.desk_scratch.specs.SharedLines.{version_line};
ghost use Rattle.desk_scratch.specs.Steps.{HasStepped, rohs_steps};
ghost use Rattle.desk_model.specs.declared.rows.product.ProductRow.{ProductRow as Product};
ghost use Rattle.desk_model.specs.Lists.{product_row};

use crate::answer_source::AnswerSource;
use crate::ask_fault::AskFault;
use crate::bill::Bill;
use crate::blank_text::BlankText;
use crate::material::material_text;
use crate::part::{part_text, part_text_plain};
use crate::question::Question;
use crate::reach7::reach7_text;
use crate::reach33::reach33_text;
use crate::rohs::rohs_text;
use crate::shared_lines::push_version_line;
use crate::summary::summary_text;
use crate::uses::uses_text;
use desk_graph::Steps;
use desk_law::{Kind, KindOnDay};
use desk_tables::Tables;
use desk_text::{Bytes, Code, Day, OutOfMemory};
use std::alloc::Global;
use std::marker::Brand;
use std::sync::ledger::{Blank, Ledger};

/// Appends the answer to the question, made of the tables alone.
///
/// `NoSuchCode`: the question is about a material, a part, or either, of which nothing is kept. `NotAProduct`: a RoHS
/// question is about a part that is no product. `OutOfMemory`: none was left for the answer. After an error `out` is as
/// it was.
pub fn answer_plain(
    alloc: Global,
    tables: &Tables,
    question: &Question,
    out: &mut Bytes,
) -> Result<(), AskFault>
    requires sound { Sound tables.now.lists }
    requires in_range { is_question_in_range question.now ≡ true }
    ensures answer { OnOk result ((text : List ℕ) × (eval tables.now.lists question.now ≡ Ok text) × (out.new ≡ out.old ++ text)) }
    ensures refusal { IfErr result (λ fault. fault ≢ ask.OutOfMemory → eval tables.now.lists question.now ≡ Err fault) }
    ensures unchanged { OnErr result (out.new ≡ out.old) }
{
    match *question {
        // Of these three the whole bill isn't made.
        Question::Material { code, kind, day } => {
            let blank = BlankText::in_room_of(alloc, out);
            give(on_material(alloc, tables, code, kind, day, blank), out)
        }
        Question::Part { code } => {
            let blank = BlankText::in_room_of(alloc, out);
            give(on_part_plain(alloc, tables, code, blank), out)
        }
        Question::Version => {
            let blank = BlankText::in_room_of(alloc, out);
            give(on_version(tables, blank), out)
        }
        // Nor is it made to tell that there is no answer.
        _ => match refusal(tables, question) {
            Some(fault) => Err(fault),
            None => {
                let bill = Bill::new(alloc, tables)?;
                answer_uncounted::<Brand>(Blank::new(1), alloc, &bill, question, out)
            }
        },
    }
}

/// Appends the answer to the question by the bill, where nobody counts the steps.
fn answer_uncounted<L: Ledger>(
    blank: Blank,
    alloc: Global,
    bill: &Bill<'_>,
    question: &Question,
    out: &mut Bytes,
) -> Result<(), AskFault>
    requires name { blank.name ≡ L.name }
    requires parts { blank.parts ≡ L.parts }
    requires some { 0 < L.parts }
    requires in_range { is_question_in_range question.now ≡ true }
    ensures answer { OnOk result ((text : List ℕ) × (eval bill.now question.now ≡ Ok text) × (out.new ≡ out.old ++ text)) }
    ensures refusal { IfErr result (λ fault. fault ≢ ask.OutOfMemory → eval bill.now question.now ≡ Err fault) }
    ensures unchanged { OnErr result (out.new ≡ out.old) }
{
    let mut steps = Steps::<L>::start(blank);
    answer_from(alloc, bill, question, out, &mut steps)
}

/// Why a question on a part or on uses has no answer, if it has none. It takes two binary searches at most.
#[tactic(auto, unfolding(crate::specs::Eval::eval))]
fn refusal(tables: &Tables, question: &Question) -> Option<AskFault>
    ensures { IfSome result (λ fault. eval tables.now.lists question.now ≡ Err fault) }
{
    match *question {
        Question::Rohs { code, .. } if !tables.is_part(&code) => {
            Some(AskFault::NoSuchCode { code })
        }
        Question::Rohs { code, .. } if tables.product(&code).is_none() => {
            Some(AskFault::NotAProduct { code })
        }
        Question::Reach33 { code, .. } if !tables.is_part(&code) => {
            Some(AskFault::NoSuchCode { code })
        }
        Question::Uses { code } if !tables.is_kept(&code) => Some(AskFault::NoSuchCode { code }),
        _ => None,
    }
}

/// Appends the answer to the question, made of what the source tells. On a product's compliance it takes a step for the product, and
/// one for each line of the chains that it prints.
///
/// `NoSuchCode`: the question is about a material, a part, or either, of which nothing is kept. `NotAProduct`: a RoHS
/// question is about a part that is no product. `OutOfMemory`: none was left for the answer. After an error `out` is as
/// it was.
pub fn answer_from<S: AnswerSource, L: Ledger>(
    alloc: Global,
    source: &S,
    question: &Question,
    out: &mut Bytes,
    steps: &mut Steps<L>,
) -> Result<(), AskFault>
    requires { is_question_in_range question.now ≡ true }
    ensures answer { OnOk result ((text : List ℕ) × (eval (S.lists source.now) question.now ≡ Ok text) × (out.new ≡ out.old ++ text)) }
    ensures refusal { IfErr result (λ fault. fault ≢ ask.OutOfMemory → eval (S.lists source.now) question.now ≡ Err fault) }
    ensures unchanged { OnErr result (out.new ≡ out.old) }
    ensures steps { OnOk result (HasStepped (S.lists source.now) question.now steps.old steps.new) }
{
    let tables = source.tables();
    let blank = BlankText::in_room_of(alloc, out);
    match *question {
        Question::Material { code, kind, day } => {
            give(on_material(alloc, tables, code, kind, day, blank), out)
        }
        Question::Rohs { code, day } => {
            give(on_rohs(alloc, source, code, day, steps, blank), out)
        }
        Question::Reach33 { code, day } => {
            give(on_reach33(alloc, source, code, day, steps, blank), out)
        }
        Question::Reach7 { year, day } => { give(on_reach7(alloc, source, year, day, blank), out) }
        Question::Part { code } => give(on_part(alloc, source, code, blank), out),
        Question::Uses { code } => give(on_uses(alloc, source, code, blank), out),
        Question::Summary { day } => { give(on_summary(alloc, source, day, steps, blank), out) }
        Question::Version => give(on_version(tables, blank), out),
    }
}

/// Appends an answer that was made, or tells why none was.
fn give(answer: Result<Bytes, AskFault>, out: &mut Bytes) -> Result<(), AskFault>
    ensures answer { OnOk result ((text : List ℕ) × (answer ≡ Ok text) × (out.new ≡ out.old ++ text)) }
    ensures refusal { IfErr result (λ fault. fault ≢ ask.OutOfMemory → answer ≡ Err fault) }
    ensures unchanged { OnErr result (out.new ≡ out.old) }
{
    let text = answer?;
    if out.is_empty() {
        // The text is given as it is, and not copied.
        *out = text;
    } else {
        out.push_all(text.as_slice())?;
    }
    Ok(())
}

/// The answer on a material.
#[tactic(auto, unfolding(crate::specs::Eval::eval))]
fn on_material(
    alloc: Global,
    tables: &Tables,
    code: Code,
    kind: Kind,
    day: Day,
    blank: BlankText,
) -> Result<Bytes, AskFault>
    requires sound { Sound tables.now.lists }
    requires askable { is_askable day ≡ true }
    ensures { result ≢ Err ask.OutOfMemory → result ≡ eval tables.now.lists (question.Material code kind day) }
{
    match tables.material(&code) {
        Some(material) => {
            Ok(material_text(alloc, tables, &KindOnDay { kind, day }, material, blank)?)
        }
        None => Err(AskFault::NoSuchCode { code }),
    }
}

/// The answer on a product's compliance.
#[tactic(auto, unfolding(crate::specs::Eval::eval))]
fn on_rohs<S: AnswerSource, L: Ledger>(
    alloc: Global,
    source: &S,
    code: Code,
    day: Day,
    steps: &mut Steps<L>,
    blank: BlankText,
) -> Result<Bytes, AskFault>
    requires { is_askable day ≡ true }
    ensures answer { result ≢ Err ask.OutOfMemory → result ≡ eval (S.lists source.now) (question.Rohs code day) }
    ensures steps { OnOk result ((product : Product) → product_row (S.lists source.now) code ≡ Some product → steps.new ≡ steps.old + rohs_steps (S.lists source.now) product day) }
{
    let tables = source.tables();
    if !tables.is_part(&code) {
        return Err(AskFault::NoSuchCode { code });
    }
    match tables.product(&code) {
        Some(product) => {
            let kind = product.kind;
            Ok(rohs_text(
                alloc,
                source,
                &KindOnDay { kind, day },
                product,
                steps,
                blank,
            )?)
        }
        None => Err(AskFault::NotAProduct { code }),
    }
}

/// The answer on a part's duties to inform.
#[tactic(auto, unfolding(crate::specs::Eval::eval))]
fn on_reach33<S: AnswerSource, L: Ledger>(
    alloc: Global,
    source: &S,
    code: Code,
    day: Day,
    steps: &mut Steps<L>,
    blank: BlankText,
) -> Result<Bytes, AskFault>
    ensures { result ≢ Err ask.OutOfMemory → result ≡ eval (S.lists source.now) (question.Reach33 code day) }
{
    if !source.tables().is_part(&code) {
        return Err(AskFault::NoSuchCode { code });
    }
    Ok(reach33_text(alloc, source, &code, day, steps, blank)?)
}

/// The answer on the notices of a year.
#[tactic(auto, unfolding(crate::specs::Eval::eval))]
fn on_reach7<S: AnswerSource>(
    alloc: Global,
    source: &S,
    year: u16,
    day: Day,
    blank: BlankText,
) -> Result<Bytes, AskFault>
    ensures { result ≢ Err ask.OutOfMemory → result ≡ eval (S.lists source.now) (question.Reach7 year day) }
{
    Ok(reach7_text(alloc, source, year, day, blank)?)
}

/// The answer on a part.
#[tactic(auto, unfolding(crate::specs::Eval::eval))]
fn on_part<S: AnswerSource>(
    alloc: Global,
    source: &S,
    code: Code,
    blank: BlankText,
) -> Result<Bytes, AskFault>
    ensures { result ≢ Err ask.OutOfMemory → result ≡ eval (S.lists source.now) (question.Part code) }
{
    match source.tables().part(&code) {
        Some(part) => { Ok(part_text(alloc, source, part, blank)?) }
        None => Err(AskFault::NoSuchCode { code }),
    }
}

/// The answer on a part, by the tables alone.
#[tactic(auto, unfolding(crate::specs::Eval::eval))]
fn on_part_plain(
    alloc: Global,
    tables: &Tables,
    code: Code,
    blank: BlankText,
) -> Result<Bytes, AskFault>
    requires { Sound tables.now.lists }
    ensures { result ≢ Err ask.OutOfMemory → result ≡ eval tables.now.lists (question.Part code) }
{
    match tables.part(&code) {
        Some(part) => { Ok(part_text_plain(alloc, tables, part, blank)?) }
        None => Err(AskFault::NoSuchCode { code }),
    }
}

/// The answer on where a material or a part is used.
#[tactic(auto, unfolding(crate::specs::Eval::eval))]
fn on_uses<S: AnswerSource>(
    alloc: Global,
    source: &S,
    code: Code,
    blank: BlankText,
) -> Result<Bytes, AskFault>
    ensures { result ≢ Err ask.OutOfMemory → result ≡ eval (S.lists source.now) (question.Uses code) }
{
    if !source.tables().is_kept(&code) {
        return Err(AskFault::NoSuchCode { code });
    }
    Ok(uses_text(alloc, source, &code, blank)?)
}

/// The answer on the whole desk.
#[tactic(auto, unfolding(crate::specs::Eval::eval))]
fn on_summary<S: AnswerSource, L: Ledger>(
    alloc: Global,
    source: &S,
    day: Day,
    steps: &mut Steps<L>,
    blank: BlankText,
) -> Result<Bytes, AskFault>
    requires { is_askable day ≡ true }
    ensures { result ≢ Err ask.OutOfMemory → result ≡ eval (S.lists source.now) (question.Summary day) }
{
    Ok(summary_text(alloc, source, day, steps, blank)?)
}

/// The answer on the number of the tables.
#[tactic(auto, unfolding(crate::specs::Eval::eval))]
fn on_version(tables: &Tables, blank: BlankText) -> Result<Bytes, AskFault>
    ensures { result ≢ Err ask.OutOfMemory → result ≡ eval tables.now.lists question.Version }
{
    Ok(version_text(tables, blank)?)
}

/// The line with the number of the tables.
fn version_text(tables: &Tables, blank: BlankText) -> Result<Bytes, OutOfMemory>
    ensures { IfOk result (λ text. text ≡ version_line tables.now.lists) }
{
    let mut text = blank.into_string();
    push_version_line(&mut text, tables)?;
    Ok(Bytes::from(text.into_bytes()))
}
