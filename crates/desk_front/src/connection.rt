ghost use Rattle.std.specs.Prelude.{◌≡◌, ◌≢◌, ◌++◌, ℕ, List, true, Some, IfErr, OnErr, OnOk};
ghost use Rattle.desk_clerk.specs.Clerk.{keeper_of, current_tables};
ghost use Rattle.desk_declare.specs.Declaration.{declaration_of};
ghost use Rattle.desk_edits.specs.Edit.{edit_of_json};
ghost use Rattle.desk_front.specs.Asked.{a_question, an_edit, of_csv, of_json};
ghost use Rattle.desk_http.specs.Reply.{allow_of, fixed_reply};
ghost use Rattle.desk_front.specs.Told.{Says};
ghost use Rattle.desk_front.specs.Turn.{Turn};
ghost use Rattle.desk_http.specs.declared.method.Method.TheVariants as method;
ghost use Rattle.desk_scratch.specs.Questions.{is_question_in_range};

use crate::answerer::Answerer;
use crate::wording::{
    tell_accepted, tell_answer, tell_bad_declaration, tell_bad_edit, tell_no_ask, tell_refused,
};
use desk_clerk::{Clerk, DeskBoard, SubmitFault};
use desk_declare::read_declaration;
use desk_edge::Keeper;
use desk_edits::read_edit;
use desk_http::{Ask, Fixed, Request, Routes, route};
use desk_model::Edit;
use desk_publish::Naming;
use desk_scratch::Question;
use desk_text::Bytes;
use std::alloc::Global;
use std::sync::Wait;

/// A connection that has a clerk to itself: each request is answered at the clerk's whole list of that moment.
#[derive(Drop)]
pub(crate) struct Connection<'a, 'c, K: Keeper, J: Naming<DeskBoard>> {
    /// The routes of requests.
    pub(crate) routes: &'a Routes,
    /// The clerk.
    pub(crate) clerk: &'c mut Clerk<K, J>,
    /// The number of the longest list that the connection has met.
    pub(crate) last_seen: u64,
    /// Room for the body of an answer, which is kept from one to the next.
    pub(crate) body: &'a mut Bytes,
}

impl<K: Keeper, J: Naming<DeskBoard>> Answerer for Connection<'_, '_, K, J> {
    ghost use Rattle.std.specs.Prelude.{◌≡◌, ℕ, List};
    ghost use Rattle.desk_clerk.specs.Clerk.{keeper_of, current_tables};
    ghost use Rattle.desk_front.specs.Told.{Turns};
    ghost use Rattle.desk_front.specs.Turn.{Turn};

    ghost replies = { λ old request said new. (new.clerk.ghost_name ≡ old.clerk.ghost_name)
        × (K.Tells (keeper_of new.clerk.now) → K.Tells (keeper_of old.clerk.now))
        × Turns Turn (record { current = current_tables old.clerk.now; last_seen = old.last_seen; faults = K.faults (keeper_of old.clerk.now) }) request said
        (record { current = current_tables new.clerk.now; last_seen = new.last_seen; faults = K.faults (keeper_of new.clerk.now) }) };

    fn reply<R: Wait + Sync>(
        &mut self,
        rt: &R,
        alloc: Global,
        buffer: &[u8],
        request: &Request,
        out: &mut Bytes,
    ) -> Result<(), Fixed> {
        let close = request.close;
        let body = request.body.of(buffer);
        match route(alloc, self.routes, buffer, request) {
            Ok(Ask::Question(question)) => self.answer(rt, alloc, &question, close, out),
            Ok(Ask::Edit) => self.enter_json(rt, alloc, body, close, out),
            Ok(Ask::Declaration) => self.enter_csv(rt, alloc, body, close, out),
            Err(fault) => tell_no_ask(alloc, fault, close, out),
        }
    }
}

impl<K: Keeper, J: Naming<DeskBoard>> Connection<'_, '_, K, J> {
    /// Answers a question at the clerk's whole list, which is met with that. What waits to be published is published first.
    fn answer<R: Wait + Sync>(
        &mut self,
        rt: &R,
        alloc: Global,
        question: &Question,
        close: bool,
        out: &mut Bytes,
    ) -> Result<(), Fixed>
        requires { is_question_in_range question.now ≡ true }
        ensures ok { OnOk result ((said : List ℕ) × (out.new ≡ out.old ++ said)
            × Says Turn (record { current = current_tables self.old.clerk.now; last_seen = self.old.last_seen; faults = K.faults (keeper_of self.old.clerk.now) }) (a_question question.now) close said
            (record { current = current_tables self.new.clerk.now; last_seen = self.new.last_seen; faults = K.faults (keeper_of self.new.clerk.now) })) }
        ensures fixed { IfErr result (λ fixed.
            Says Turn (record { current = current_tables self.old.clerk.now; last_seen = self.old.last_seen; faults = K.faults (keeper_of self.old.clerk.now) }) (a_question question.now) close (fixed_reply fixed close)
            (record { current = current_tables self.new.clerk.now; last_seen = self.new.last_seen; faults = K.faults (keeper_of self.new.clerk.now) })) }
        ensures allow { IfErr result (λ fixed. allow_of fixed ≢ Some method.Other) }
        ensures err { OnErr result (out.new ≡ out.old) }
        ensures same_clerk { self.new.clerk.ghost_name ≡ self.old.clerk.ghost_name }
        ensures told { K.Tells (keeper_of self.new.clerk.now) → K.Tells (keeper_of self.old.clerk.now) }
    {
        if self.clerk.catch_up(rt).is_err() {
            return Err(Fixed::Memory);
        }
        match tell_answer(alloc, self.clerk.engine(), question, close, self.body, out) {
            Ok(()) => {
                self.last_seen = self.clerk.number();
                Ok(())
            }
            Err(fixed) => Err(fixed),
        }
    }

    /// Enters the edit that a body in JSON is.
    fn enter_json<R: Wait + Sync>(
        &mut self,
        rt: &R,
        alloc: Global,
        body: &[u8],
        close: bool,
        out: &mut Bytes,
    ) -> Result<(), Fixed>
        ensures ok { OnOk result ((said : List ℕ) × (out.new ≡ out.old ++ said)
            × Says Turn (record { current = current_tables self.old.clerk.now; last_seen = self.old.last_seen; faults = K.faults (keeper_of self.old.clerk.now) }) (of_json (edit_of_json body.now)) close said
            (record { current = current_tables self.new.clerk.now; last_seen = self.new.last_seen; faults = K.faults (keeper_of self.new.clerk.now) })) }
        ensures fixed { IfErr result (λ fixed.
            Says Turn (record { current = current_tables self.old.clerk.now; last_seen = self.old.last_seen; faults = K.faults (keeper_of self.old.clerk.now) }) (of_json (edit_of_json body.now)) close (fixed_reply fixed close)
            (record { current = current_tables self.new.clerk.now; last_seen = self.new.last_seen; faults = K.faults (keeper_of self.new.clerk.now) })) }
        ensures allow { IfErr result (λ fixed. allow_of fixed ≢ Some method.Other) }
        ensures err { OnErr result (out.new ≡ out.old) }
        ensures same_clerk { self.new.clerk.ghost_name ≡ self.old.clerk.ghost_name }
        ensures told { K.Tells (keeper_of self.new.clerk.now) → K.Tells (keeper_of self.old.clerk.now) }
    {
        match read_edit(alloc, body) {
            Ok(edit) => self.enter(rt, alloc, edit, close, out),
            Err(fault) => tell_bad_edit(alloc, &fault, close, out),
        }
    }

    /// Enters the declaration that a body in CSV is.
    fn enter_csv<R: Wait + Sync>(
        &mut self,
        rt: &R,
        alloc: Global,
        body: &[u8],
        close: bool,
        out: &mut Bytes,
    ) -> Result<(), Fixed>
        ensures ok { OnOk result ((said : List ℕ) × (out.new ≡ out.old ++ said)
            × Says Turn (record { current = current_tables self.old.clerk.now; last_seen = self.old.last_seen; faults = K.faults (keeper_of self.old.clerk.now) }) (of_csv (declaration_of body.now)) close said
            (record { current = current_tables self.new.clerk.now; last_seen = self.new.last_seen; faults = K.faults (keeper_of self.new.clerk.now) })) }
        ensures fixed { IfErr result (λ fixed.
            Says Turn (record { current = current_tables self.old.clerk.now; last_seen = self.old.last_seen; faults = K.faults (keeper_of self.old.clerk.now) }) (of_csv (declaration_of body.now)) close (fixed_reply fixed close)
            (record { current = current_tables self.new.clerk.now; last_seen = self.new.last_seen; faults = K.faults (keeper_of self.new.clerk.now) })) }
        ensures allow { IfErr result (λ fixed. allow_of fixed ≢ Some method.Other) }
        ensures err { OnErr result (out.new ≡ out.old) }
        ensures same_clerk { self.new.clerk.ghost_name ≡ self.old.clerk.ghost_name }
        ensures told { K.Tells (keeper_of self.new.clerk.now) → K.Tells (keeper_of self.old.clerk.now) }
    {
        match read_declaration(alloc, body) {
            Ok(edit) => self.enter(rt, alloc, edit, close, out),
            Err(fault) => tell_bad_declaration(alloc, &fault, close, out),
        }
    }

    /// Enters an edit, and tells how it was judged at the clerk's whole list, which is met with that.
    fn enter<R: Wait + Sync>(
        &mut self,
        rt: &R,
        alloc: Global,
        edit: Edit,
        close: bool,
        out: &mut Bytes,
    ) -> Result<(), Fixed>
        ensures ok { OnOk result ((said : List ℕ) × (out.new ≡ out.old ++ said)
            × Says Turn (record { current = current_tables self.old.clerk.now; last_seen = self.old.last_seen; faults = K.faults (keeper_of self.old.clerk.now) }) (an_edit edit) close said
            (record { current = current_tables self.new.clerk.now; last_seen = self.new.last_seen; faults = K.faults (keeper_of self.new.clerk.now) })) }
        ensures fixed { IfErr result (λ fixed.
            Says Turn (record { current = current_tables self.old.clerk.now; last_seen = self.old.last_seen; faults = K.faults (keeper_of self.old.clerk.now) }) (an_edit edit) close (fixed_reply fixed close)
            (record { current = current_tables self.new.clerk.now; last_seen = self.new.last_seen; faults = K.faults (keeper_of self.new.clerk.now) })) }
        ensures allow { IfErr result (λ fixed. allow_of fixed ≢ Some method.Other) }
        ensures err { OnErr result (out.new ≡ out.old) }
        ensures same_clerk { self.new.clerk.ghost_name ≡ self.old.clerk.ghost_name }
        ensures told { K.Tells (keeper_of self.new.clerk.now) → K.Tells (keeper_of self.old.clerk.now) }
    {
        edit.in_form();
        match self.clerk.submit(rt, alloc, edit) {
            Ok(accepted) => match tell_accepted(alloc, &accepted, self.last_seen, close, out) {
                Ok(()) => {
                    self.last_seen = accepted.whole;
                    Ok(())
                }
                Err(fixed) => Err(fixed),
            },
            Err(SubmitFault::Rule { fault, whole }) => {
                match tell_refused(alloc, &fault, whole, self.last_seen, close, out) {
                    Ok(()) => {
                        self.last_seen = whole;
                        Ok(())
                    }
                    Err(fixed) => Err(fixed),
                }
            }
            Err(SubmitFault::KeeperFault) => Err(Fixed::StoreFault),
            Err(SubmitFault::OutOfMemory) => Err(Fixed::Memory),
        }
    }
}
