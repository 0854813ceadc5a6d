ghost use Rattle.std.specs.Prelude.{◌≡◌, true, Ok, Err, IfErr, OnErr, OnOk};
ghost use mathlib.Core.List.{IsPrefix};
ghost use Rattle.desk_clerk.specs.Clerk.{list_from};
ghost use Rattle.desk_engine.specs.Engine.{lists_of};
ghost use Rattle.desk_front.specs.Asking.{IsAnswerTo};
ghost use Rattle.desk_history.specs.History.{after};
ghost use Rattle.desk_scratch.specs.Questions.{is_question_in_range};
ghost use Rattle.desk_scratch.specs.declared.ask_fault.AskFault.{AskFault as Fault};

use crate::edited::QuestionFault;
use desk_clerk::{DeskBoard, DeskSeat};
use desk_publish::{Glance, Naming};
use desk_scratch::{AskFault, Question};
use desk_text::Bytes;
use std::alloc::Global;

/// A question to a board: its answer is appended to a text.
#[derive(Drop)]
struct Asking<'q, 'o> {
    alloc: Global,
    question: &'q Question,
    out: &'o mut Bytes,
    /// What became of it.
    answer: Result<(), AskFault>,
    ghost in_range: { is_question_in_range question.now ≡ true },
}

impl Glance<DeskBoard> for Asking<'_, '_> {
    ghost use Rattle.std.specs.Prelude.{◌≡◌};
    ghost use Rattle.desk_engine.specs.Engine.{lists_of};
    ghost use Rattle.desk_front.specs.Asking.{IsAnswerTo};

    // The loan stays the same.
    ghost sees = { λ old board new. (new.out.ghost_name ≡ old.out.ghost_name)
        × IsAnswerTo (lists_of board.engine) old.question.now old.out.now new.answer new.out.now };

    fn at(&mut self, board: &DeskBoard) {
        self.answer = board
            .engine()
            .answer_uncounted(self.alloc, self.question, self.out);
    }
}

/// Looks once, and appends the answer to a question at the tables after the list that the seat then has, which begins with all that it has
/// seen or learnt. The answer's `version` is the number of that list. It waits for nobody.
///
/// `Ask`: why the question has no answer there, or that there was no memory. `NotEntered`: the seat wasn't let in, and is as before. After
/// an error `out` is as before.
pub fn answer_question<J: Naming<DeskBoard>>(
    alloc: Global,
    seat: &mut DeskSeat<J>,
    question: &Question,
    out: &mut Bytes,
) -> Result<(), QuestionFault>
    requires { is_question_in_range question.now ≡ true }
    ensures grown { IsPrefix seat.old.list seat.new.list }
    ensures answer { OnOk result (IsAnswerTo (after (list_from (lists_of J.opening.engine) seat.new.list)) question.now out.old (Ok tt) out.new) }
    ensures refusal { IfErr result (λ fault. (cause : Fault) → fault ≡ QuestionFault.Ask cause
        → IsAnswerTo (after (list_from (lists_of J.opening.engine) seat.new.list)) question.now out.old (Err cause) out.new) }
    ensures not_entered { IfErr result (λ fault. fault ≡ QuestionFault.NotEntered → seat.new ≡ seat.old) }
    ensures err { OnErr result (out.new ≡ out.old) }
{
    let mut asking = Asking {
        alloc,
        question,
        out,
        answer: Ok(()),
    };
    if seat.look(&mut asking).is_err() {
        return Err(QuestionFault::NotEntered);
    }
    match asking.answer {
        Ok(()) => Ok(()),
        Err(fault) => Err(QuestionFault::Ask(fault)),
    }
}
