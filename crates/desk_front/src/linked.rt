ghost use Rattle.std.specs.Prelude.{◌≡◌, ◌≢◌, ◌++◌, ℕ, List, true, Some, IfErr, OnErr, OnOk};
ghost use Rattle.desk_declare.specs.Declaration.{declaration_of};
ghost use Rattle.desk_edits.specs.Edit.{edit_of_json};
ghost use Rattle.desk_front.specs.Asked.{an_edit, of_csv, of_json};
ghost use Rattle.desk_front.specs.Replies.{answer_at};
ghost use Rattle.desk_front.specs.Sitting.{SeatTurn, sitting};
ghost use Rattle.desk_front.specs.Told.{Says};
ghost use Rattle.desk_history.specs.History.{Begins, after};
ghost use Rattle.desk_http.specs.Reply.{allow_of, bytes_with, fixed_reply};
ghost use Rattle.desk_http.specs.declared.fixed.Fixed.TheVariants as refusal;
ghost use Rattle.desk_http.specs.declared.method.Method.TheVariants as method;
ghost use Rattle.desk_scratch.specs.Eval.{eval};
ghost use Rattle.desk_scratch.specs.Questions.{is_question_in_range};
ghost use Rattle.desk_scratch.specs.declared.ask_fault.AskFault.TheVariants as ask;

use crate::answerer::Answerer;
use crate::edited::{EditFailed, Edited, QuestionFault};
use crate::editor::Editor;
use crate::seat::Seat;
use crate::wording::{tell, tell_bad_declaration, tell_bad_edit, tell_no_answer, tell_no_ask};
use desk_declare::read_declaration;
use desk_edits::read_edit;
use desk_http::{Ask, Fixed, Request, Routes, route};
use desk_model::Edit;
use desk_scratch::{AskFault, Question};
use desk_text::Bytes;
use http::StatusCode;
use std::alloc::Global;
use std::sync::Wait;

/// One connection of many: each question is answered from a seat, and each edit by an editor of the same desk.
#[derive(Drop)]
pub(crate) struct Linked<'a, 'e, 's, E, S> {
    /// The routes of requests.
    pub(crate) routes: &'a Routes,
    /// What is asked for edits.
    pub(crate) editor: &'e mut E,
    /// The seat.
    pub(crate) seat: &'s mut S,
    /// Room for the body of an answer, which is kept from one to the next.
    pub(crate) body: &'a mut Bytes,
}

impl<E: Editor<S>, S: Seat> Answerer for Linked<'_, '_, '_, E, S> {
    ghost use Rattle.std.specs.Prelude.{◌≡◌, ℕ, List};
    ghost use Rattle.desk_front.specs.Sitting.{SeatTurn, sitting};
    ghost use Rattle.desk_front.specs.Told.{Turns};

    // The loans stay the same.
    ghost replies = { λ old request said new. (new.editor.ghost_name ≡ old.editor.ghost_name) × (new.seat.ghost_name ≡ old.seat.ghost_name)
        × (Turns (SeatTurn E.NeverFails) (sitting (S.list old.seat.now) (E.faults old.editor.now) (E.given old.editor.now)) request said
        (sitting (S.list new.seat.now) (E.faults new.editor.now) (E.given new.editor.now))) };

    fn reply<R: Wait + Sync>(
        &mut self,
        rt: &R,
        alloc: Global,
        buffer: &[u8],
        request: &Request,
        out: &mut Bytes,
    ) -> Result<(), Fixed> {
        let close = request.close;
        let body = request.body.of(buffer);
        match route(alloc, self.routes, buffer, request) {
            Ok(Ask::Question(question)) => self.answer(rt, alloc, &question, close, out),
            Ok(Ask::Edit) => self.enter_json(alloc, body, close, out),
            Ok(Ask::Declaration) => self.enter_csv(alloc, body, close, out),
            Err(fault) => tell_no_ask(alloc, fault, close, out),
        }
    }
}

impl<E: Editor<S>, S: Seat> Linked<'_, '_, '_, E, S> {
    /// Answers a question at one list that the seat looks at.
    fn answer<R: Wait + Sync>(
        &mut self,
        rt: &R,
        alloc: Global,
        question: &Question,
        close: bool,
        out: &mut Bytes,
    ) -> Result<(), Fixed>
        requires { is_question_in_range question.now ≡ true }
        ensures same_seat { self.new.seat.ghost_name ≡ self.old.seat.ghost_name }
        ensures editor_stays { self.new.editor ≡ self.old.editor }
        ensures grown { Begins (S.list self.old.seat.now) (S.list self.new.seat.now) }
        ensures ok { OnOk result (out.new ≡ out.old ++ bytes_with close (answer_at (after (S.list self.new.seat.now)) question.now)) }
        ensures memory { IfErr result (λ told. told ≡ refusal.Memory) }
        ensures err { OnErr result (out.new ≡ out.old) }
    {
        self.body.truncate(0);
        match ask(rt, alloc, self.seat, question, self.body) {
            Ok(()) => tell(StatusCode::OK, self.body.as_slice(), close, out),
            Err(AskFault::OutOfMemory) => Err(Fixed::Memory),
            Err(cause) => tell_no_answer(alloc, self.seat.seen(), &cause, close, out),
        }
    }

    /// Enters the edit that a body in JSON is.
    fn enter_json(
        &mut self,
        alloc: Global,
        text: &[u8],
        close: bool,
        out: &mut Bytes,
    ) -> Result<(), Fixed>
        ensures same_seat { self.new.seat.ghost_name ≡ self.old.seat.ghost_name }
        ensures same_editor { self.new.editor.ghost_name ≡ self.old.editor.ghost_name }
        ensures ok { OnOk result ((said : List ℕ) × (out.new ≡ out.old ++ said) × (Says (SeatTurn E.NeverFails) (sitting (S.list self.old.seat.now) (E.faults self.old.editor.now) (E.given self.old.editor.now)) (of_json (edit_of_json text.now)) close said
            (sitting (S.list self.new.seat.now) (E.faults self.new.editor.now) (E.given self.new.editor.now)))) }
        ensures fixed { IfErr result (λ fixed. Says (SeatTurn E.NeverFails) (sitting (S.list self.old.seat.now) (E.faults self.old.editor.now) (E.given self.old.editor.now)) (of_json (edit_of_json text.now)) close (fixed_reply fixed close)
            (sitting (S.list self.new.seat.now) (E.faults self.new.editor.now) (E.given self.new.editor.now))) }
        ensures allow { IfErr result (λ fixed. allow_of fixed ≢ Some method.Other) }
        ensures err { OnErr result (out.new ≡ out.old) }
    {
        match read_edit(alloc, text) {
            Ok(edit) => self.enter(alloc, edit, close, out),
            Err(fault) => tell_bad_edit(alloc, &fault, close, out),
        }
    }

    /// Enters the declaration that a body in CSV is.
    fn enter_csv(
        &mut self,
        alloc: Global,
        text: &[u8],
        close: bool,
        out: &mut Bytes,
    ) -> Result<(), Fixed>
        ensures same_seat { self.new.seat.ghost_name ≡ self.old.seat.ghost_name }
        ensures same_editor { self.new.editor.ghost_name ≡ self.old.editor.ghost_name }
        ensures ok { OnOk result ((said : List ℕ) × (out.new ≡ out.old ++ said) × (Says (SeatTurn E.NeverFails) (sitting (S.list self.old.seat.now) (E.faults self.old.editor.now) (E.given self.old.editor.now)) (of_csv (declaration_of text.now)) close said
            (sitting (S.list self.new.seat.now) (E.faults self.new.editor.now) (E.given self.new.editor.now)))) }
        ensures fixed { IfErr result (λ fixed. Says (SeatTurn E.NeverFails) (sitting (S.list self.old.seat.now) (E.faults self.old.editor.now) (E.given self.old.editor.now)) (of_csv (declaration_of text.now)) close (fixed_reply fixed close)
            (sitting (S.list self.new.seat.now) (E.faults self.new.editor.now) (E.given self.new.editor.now))) }
        ensures allow { IfErr result (λ fixed. allow_of fixed ≢ Some method.Other) }
        ensures err { OnErr result (out.new ≡ out.old) }
    {
        match read_declaration(alloc, text) {
            Ok(edit) => self.enter(alloc, edit, close, out),
            Err(fault) => tell_bad_declaration(alloc, &fault, close, out),
        }
    }

    /// Has an edit answered by the editor.
    fn enter(
        &mut self,
        alloc: Global,
        edit: Edit,
        close: bool,
        out: &mut Bytes,
    ) -> Result<(), Fixed>
        ensures same_seat { self.new.seat.ghost_name ≡ self.old.seat.ghost_name }
        ensures same_editor { self.new.editor.ghost_name ≡ self.old.editor.ghost_name }
        ensures ok { OnOk result ((said : List ℕ) × (out.new ≡ out.old ++ said) × (Says (SeatTurn E.NeverFails) (sitting (S.list self.old.seat.now) (E.faults self.old.editor.now) (E.given self.old.editor.now)) (an_edit edit) close said
            (sitting (S.list self.new.seat.now) (E.faults self.new.editor.now) (E.given self.new.editor.now)))) }
        ensures fixed { IfErr result (λ fixed. Says (SeatTurn E.NeverFails) (sitting (S.list self.old.seat.now) (E.faults self.old.editor.now) (E.given self.old.editor.now)) (an_edit edit) close (fixed_reply fixed close)
            (sitting (S.list self.new.seat.now) (E.faults self.new.editor.now) (E.given self.new.editor.now))) }
        ensures allow { IfErr result (λ fixed. allow_of fixed ≢ Some method.Other) }
        ensures err { OnErr result (out.new ≡ out.old) }
    {
        self.body.truncate(0);
        match self.editor.edit(alloc, self.seat, edit, self.body) {
            Ok(Edited::Accepted) => tell(StatusCode::OK, self.body.as_slice(), close, out),
            Ok(Edited::Refused) => tell(StatusCode::CONFLICT, self.body.as_slice(), close, out),
            Err(EditFailed::KeeperFault) => Err(Fixed::StoreFault),
            Err(EditFailed::OutOfMemory) => Err(Fixed::Memory),
        }
    }
}

/// Appends the answer to a question at one list that the seat looks at. A seat that isn't let in tries again.
fn ask<R: Wait + Sync, S: Seat>(
    rt: &R,
    alloc: Global,
    seat: &mut S,
    question: &Question,
    out: &mut Bytes,
) -> Result<(), AskFault>
    requires { is_question_in_range question.now ≡ true }
    ensures grown { Begins (S.list seat.old) (S.list seat.new) }
    ensures answer { OnOk result ((text : List ℕ) × (eval (after (S.list seat.new)) question.now ≡ Ok text) × (out.new ≡ out.old ++ text)) }
    ensures refusal { IfErr result (λ cause. cause ≢ ask.OutOfMemory → eval (after (S.list seat.new)) question.now ≡ Err cause) }
{
    'entries: for _ in rt.forever() {
        match seat.answer(alloc, question, out) {
            Ok(()) => return Ok(()),
            Err(QuestionFault::Ask(cause)) => return Err(cause),
            Err(QuestionFault::NotEntered) => {}
        }
    }
    unreachable!()
}
