//! Calls of an engine whose steps nobody counts.
ghost use Rattle.std.specs.Prelude.{◌≡◌, ◌≢◌, ◌<◌, ◌++◌, ℕ, List, true, Ok, Err, IfErr, IfOk, OnErr, OnOk};
ghost use Rattle.desk_engine.specs.Engine.{IsPlanOf, lists_of};
ghost use Rattle.desk_scratch.specs.Eval.{eval};
ghost use Rattle.desk_scratch.specs.Questions.{is_question_in_range};
ghost use Rattle.desk_scratch.specs.declared.ask_fault.AskFault.TheVariants as ask;
ghost use Rattle.desk_tables.specs.Judged.{IsRefusal};

use crate::engine::Engine;
use crate::plan::Plan;
use desk_graph::Steps;
use desk_model::Edit;
use desk_scratch::{AskFault, Question};
use desk_tables::EditFault;
use desk_text::Bytes;
use std::alloc::Global;
use std::marker::Brand;
use std::sync::ledger::{Blank, Ledger};

impl Engine {
    /// What `prepare` gives, where nobody counts the steps.
    pub fn prepare_uncounted(&self, alloc: Global, edit: &Edit) -> Result<Plan, EditFault>
        ensures plan { IfOk result (λ plan. IsPlanOf self.now edit.now plan) }
        ensures fault { IfErr result (λ fault. IsRefusal (lists_of self.now) edit.now fault) }
    {
        prepare_from::<Brand>(Blank::new(1), self, alloc, edit)
    }

    /// What `answer` gives, where nobody counts the steps.
    pub fn answer_uncounted(
        &self,
        alloc: Global,
        question: &Question,
        out: &mut Bytes,
    ) -> Result<(), AskFault>
        requires { is_question_in_range question.now ≡ true }
        ensures answer { OnOk result ((text : List ℕ) × (eval (lists_of self.now) question.now ≡ Ok text) × (out.new ≡ out.old ++ text)) }
        ensures refusal { IfErr result (λ fault. fault ≢ ask.OutOfMemory → eval (lists_of self.now) question.now ≡ Err fault) }
        ensures unchanged { OnErr result (out.new ≡ out.old) }
    {
        answer_from::<Brand>(Blank::new(1), self, alloc, question, out)
    }
}

/// Prepares the edit with steps of this ledger.
fn prepare_from<L: Ledger>(
    blank: Blank,
    engine: &Engine,
    alloc: Global,
    edit: &Edit,
) -> Result<Plan, EditFault>
    requires name { blank.name ≡ L.name }
    requires parts { blank.parts ≡ L.parts }
    requires some { 0 < L.parts }
    ensures plan { IfOk result (λ plan. IsPlanOf engine.now edit.now plan) }
    ensures fault { IfErr result (λ fault. IsRefusal (lists_of engine.now) edit.now fault) }
{
    let mut steps = Steps::<L>::start(blank);
    engine.prepare(alloc, edit, &mut steps)
}

/// Answers the question with steps of this ledger.
fn answer_from<L: Ledger>(
    blank: Blank,
    engine: &Engine,
    alloc: Global,
    question: &Question,
    out: &mut Bytes,
) -> Result<(), AskFault>
    requires in_range { is_question_in_range question.now ≡ true }
    requires name { blank.name ≡ L.name }
    requires parts { blank.parts ≡ L.parts }
    requires some { 0 < L.parts }
    ensures answer { OnOk result ((text : List ℕ) × (eval (lists_of engine.now) question.now ≡ Ok text) × (out.new ≡ out.old ++ text)) }
    ensures refusal { IfErr result (λ fault. fault ≢ ask.OutOfMemory → eval (lists_of engine.now) question.now ≡ Err fault) }
    ensures unchanged { OnErr result (out.new ≡ out.old) }
{
    let mut steps = Steps::<L>::start(blank);
    engine.answer(alloc, question, out, &mut steps)
}
