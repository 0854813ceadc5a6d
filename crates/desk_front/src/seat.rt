ghost use Rattle.std.specs.Prelude.{◌≡◌, ◌≢◌, ◌++◌, List, ℕ, true, Ok, Err, IfErr, OnErr, OnOk};
ghost use Rattle.desk_history.specs.History.{Begins, History, IsHistory, after, number_of};
ghost use Rattle.desk_scratch.specs.Eval.{eval};
ghost use Rattle.desk_scratch.specs.Questions.{is_question_in_range};
ghost use Rattle.desk_scratch.specs.declared.ask_fault.AskFault.{AskFault};
ghost use Rattle.desk_scratch.specs.declared.ask_fault.AskFault.TheVariants as ask;

use crate::edited::QuestionFault;
use desk_scratch::Question;
use desk_text::Bytes;
use std::alloc::Global;

/// A place from which a desk is read while others change it. It has a list of accepted edits, the longest that it has seen or learnt,
/// which never falls back.
///
/// Seats of one type are seats of one desk: the type names it.
pub trait Seat {
    // The longest list that it has seen or learnt.
    ghost list: { Self → History };

    /// The number of the longest list that it has seen or learnt, each edit of which is accepted. It takes no memory.
    fn seen(&self) -> u64
        ensures number { result ≡ number_of (list self.now) }
        ensures history { IsHistory (list self.now) };

    /// Looks once, and appends the answer to a question at the list that it sees, which begins with all that it has seen or learnt. It
    /// waits for nobody.
    ///
    /// After an error `out` is as before, and after `NotEntered` the seat too. `Ask`: why the question has no answer at the list, or
    /// that there was no memory.
    fn answer(
        &mut self,
        alloc: Global,
        question: &Question,
        out: &mut Bytes,
    ) -> Result<(), QuestionFault>
        requires { is_question_in_range question.now ≡ true }
        ensures grown { Begins (list self.old) (list self.new) }
        ensures answer { OnOk result ((text : List ℕ) × (eval (after (list self.new)) question.now ≡ Ok text) × (out.new ≡ out.old ++ text)) }
        ensures refusal { IfErr result (λ fault. (cause : AskFault) → fault ≡ QuestionFault.Ask cause → cause ≢ ask.OutOfMemory
            → eval (after (list self.new)) question.now ≡ Err cause) }
        ensures not_entered { IfErr result (λ fault. fault ≡ QuestionFault.NotEntered → self.new ≡ self.old) }
        ensures err { OnErr result (out.new ≡ out.old) };
}
