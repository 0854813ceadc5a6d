ghost use Rattle.std.specs.Prelude.{◌≡◌, ◌<◌, ◌^◌, IfOk, None, length};
ghost use Rattle.desk_history.specs.Refused.{ticket_reused};
ghost use Rattle.desk_history.specs.Step.{kept_number};
ghost use Rattle.desk_tables.specs.Ticket.{ticket_for};

use crate::Tables;
use crate::refuse::refuse_if;
use desk_model::{Edit, RuleFault, TicketRow};
use desk_text::{Bytes, OutOfMemory};
use std::alloc::Global;

/// The tickets of edits.
impl Tables {
    /// The row of the edit's ticket, with the number that the edit gets if it is accepted.
    ///
    /// `OutOfMemory`: none was left for the row.
    pub fn ticket_for(&self, alloc: Global, edit: &Edit) -> Result<TicketRow, OutOfMemory>
        requires { length self.now.lists.tickets < 2 ^ 63 }
        ensures { IfOk result (λ ticket. ticket ≡ ticket_for self.now.lists edit.now) }
    {
        let mut code = Bytes::start(alloc);
        edit.ticket_code(&mut code)?;
        let mut text = Bytes::start(alloc);
        edit.text(&mut text)?;
        Ok(TicketRow {
            code,
            number: self.number() + 1,
            text,
        })
    }

    /// The number of the edit whose ticket this is, where the tables hold the ticket with the edit's text.
    #[tactic(auto, unfolding(desk_history::specs::Step::kept_number))]
    pub fn kept_number(&self, edit: &Edit, ticket: &TicketRow) -> Option<u64>
        requires { ticket.now ≡ ticket_for self.now.lists edit.now }
        ensures { result ≡ kept_number self.now.lists edit.now }
    {
        match self.tables.tickets.get(&ticket.code) {
            Some(kept) if kept.text == ticket.text => Some(kept.number),
            _ => None,
        }
    }

    /// 1: the ticket is kept with another edit.
    #[tactic(auto, unfolding(desk_history::specs::Refused::ticket_reused))]
    pub(crate) fn ticket_reused(&self, edit: &Edit, ticket: &TicketRow) -> Option<RuleFault>
        requires { ticket.now ≡ ticket_for self.now.lists edit.now }
        ensures { result ≡ ticket_reused self.now.lists edit.now }
    {
        match self.tables.tickets.get(&ticket.code) {
            Some(kept) => refuse_if(kept.text != ticket.text, RuleFault::TicketReused),
            None => None,
        }
    }
}
