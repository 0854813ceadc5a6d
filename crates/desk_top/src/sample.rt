ghost use Rattle.std.specs.Prelude.{◌≡◌, ◌⊎◌, ◌≤◌, IfOk, OnOk};
ghost use Rattle.desk_edge.specs.Faults.{Rose};
ghost use Rattle.desk_engine.specs.Engine.{lists_of};
ghost use Rattle.desk_history.specs.History.{tables_after};
ghost use Rattle.desk_history.specs.Step.{step};
ghost use Rattle.desk_model.specs.Start.{start};
ghost use Rattle.desk_sample.specs.Sample.{sample_edits};
ghost use Rattle.desk_top.specs.Answer.{Answers, status_code};
ghost use Rattle.desk_top.specs.Console.{TellsFaults};
ghost use Rattle.desk_top.specs.Sample.{answer_to_sample};
ghost use Rattle.desk_words.specs.Commands.{sample_limit};

use crate::status::Status;
use crate::summary::answer_summary;
use crate::tell::answer_no_memory;
use desk_clerk::{absorb_into, start_engine};
use desk_edge::Link;
use desk_engine::Engine;
use desk_model::Edit;
use desk_sample::sample;
use desk_text::{Day, OutOfMemory};
use desk_words::Sample;
use std::alloc::Global;

/// Makes a sample desk in memory and writes its summary of 2024-07-22. Nothing is read.
///
/// 3 the console counted a fault. 8 there was no memory.
pub fn answer_sample<L: Link>(alloc: Global, asked: &Sample, console: &mut L) -> Status
    requires least { 1 ≤ asked.now.size }
    requires greatest { asked.now.size ≤ sample_limit }
    ensures answer { Answers (answer_to_sample asked.now.size) (status_code result)
        (L.written console.old) (L.written console.new) (Rose (L.faults console.old) (L.faults console.new)) }
    ensures status { (result ≡ Status.Done) ⊎ (result ≡ Status.ConsoleFault) ⊎ (result ≡ Status.OutOfMemory) }
    ensures input_stays { L.unread console.new ≡ L.unread console.old }
    ensures faults { TellsFaults (result ≡ Status.Done) (result ≡ Status.ConsoleFault) (L.faults console.old) (L.faults console.new) }
{
    match sample_engine(alloc, asked.size) {
        Ok(engine) => answer_summary(alloc, &engine, Day::new(2024, 7, 22), console),
        Err(_) => answer_no_memory(console),
    }
}

/// An engine of the start tables after the edits of a sample of this size, each tried in turn.
fn sample_engine(alloc: Global, size: u32) -> Result<Engine, OutOfMemory>
    requires least { 1 ≤ size }
    requires greatest { size ≤ sample_limit }
    ensures { IfOk result (λ engine. lists_of engine ≡ tables_after start (sample_edits size)) }
{
    let mut engine = start_engine(alloc)?;
    for edit in sample(alloc, u64::from(size))? {
        try_edit(alloc, &mut engine, edit)?;
    }
    Ok(engine)
}

/// Takes an edit, unless a rule refuses it.
fn try_edit(alloc: Global, engine: &mut Engine, edit: Edit) -> Result<(), OutOfMemory>
    ensures { OnOk result (lists_of engine.new ≡ (step (lists_of engine.old) edit).1) }
{
    match absorb_into(engine, alloc, &edit) {
        Ok(()) => Ok(()),
        Err(_) => Err(OutOfMemory),
    }
}
