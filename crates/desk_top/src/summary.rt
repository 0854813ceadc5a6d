ghost use Rattle.std.specs.Prelude.{◌≡◌, ◌⊎◌, true};
ghost use Rattle.desk_edge.specs.Faults.{Rose};
ghost use Rattle.desk_engine.specs.Engine.{lists_of};
ghost use Rattle.desk_text.specs.Day.{is_askable};
ghost use Rattle.desk_top.specs.Answer.{Answers, answer_of_summary, status_code};
ghost use Rattle.desk_top.specs.Console.{TellsFaults};

use crate::status::Status;
use crate::tell::{answer_no_memory, write_text};
use desk_edge::Link;
use desk_engine::Engine;
use desk_scratch::Question;
use desk_text::{Bytes, Day};
use std::alloc::Global;

/// Writes the summary of the engine's tables on a day. 3: the console counted a fault. 8: there was no memory for the text.
pub fn answer_summary<L: Link>(alloc: Global, engine: &Engine, day: Day, console: &mut L) -> Status
    requires { is_askable day ≡ true }
    ensures answer { Answers (answer_of_summary (lists_of engine.now) day) (status_code result)
        (L.written console.old) (L.written console.new) (Rose (L.faults console.old) (L.faults console.new)) }
    ensures status { (result ≡ Status.Done) ⊎ (result ≡ Status.ConsoleFault) ⊎ (result ≡ Status.OutOfMemory) }
    ensures input_stays { L.unread console.new ≡ L.unread console.old }
    ensures faults { TellsFaults (result ≡ Status.Done) (result ≡ Status.ConsoleFault) (L.faults console.old) (L.faults console.new) }
{
    let mut text = Bytes::start(alloc);
    match engine.answer_uncounted(alloc, &Question::Summary { day }, &mut text) {
        Ok(()) => write_text(console, text.as_slice()),
        Err(_) => answer_no_memory(console),
    }
}
