use crate::asking::answer_question;
use crate::edited::QuestionFault;
use crate::seat::Seat;
use desk_clerk::{DeskBoard, DeskSeat};
use desk_publish::Naming;
use desk_scratch::Question;
use desk_text::Bytes;
use std::alloc::Global;

/// A seat at a desk that is published. Its list goes on from the tables that the desk was opened with.
impl<J: Naming<DeskBoard>> Seat for DeskSeat<J> {
    ghost use Rattle.desk_clerk.specs.Clerk.{list_from};
    ghost use Rattle.desk_engine.specs.Engine.{lists_of};

    ghost list = { λ seat. list_from (lists_of J.opening.engine) seat.list };

    fn seen(&self) -> u64 {
        desk_publish::Seat::seen(self)
    }

    fn answer(
        &mut self,
        alloc: Global,
        question: &Question,
        out: &mut Bytes,
    ) -> Result<(), QuestionFault> {
        answer_question(alloc, self, question, out)
    }
}
