ghost use Rattle.std.specs.Prelude.{◌≡◌, ◌<◌, ◌||◌, IfOk, IfSome, IsNone, MatchBool, MatchOption, length, nat_lt, slice_index_or};
ghost use Rattle.std.specs.List.{AllByRecursion};
ghost use Rattle.desk_model.specs.declared.limits.TheConstants.{TICKET_LIMIT};
ghost use Rattle.desk_model.specs.declared.rows.ticket.TicketRow.{TicketRow};
ghost use Rattle.desk_history.specs.Limits.{has_too_much_text};
ghost use Rattle.desk_history.specs.Sound.{IsTicketOfEdit};
ghost use Rattle.desk_tables.specs.Soundness.{AreTicketsGood, IsTicketBroken, NamesBreach};

use crate::numbers_sound::odd_number;
use crate::tested_row::fault_at;
use crate::{SoundFault, Tables};
use desk_fields::{TextFault, read_edit_text};
use desk_model::TicketRow;
use desk_model::limits::{TEXT_LIMIT, TICKET_LIMIT};
use desk_text::OutOfMemory;
use std::alloc::Global;

/// The test of table 10: how many tickets there are and how much text they hold, their numbers, and that each is that
/// of an edit.
impl Tables {
    /// A fault of table 10, if there is one. It takes three passes over the tickets and reads the text of each.
    pub(crate) fn ticket_fault(&self, alloc: Global) -> Option<SoundFault>
        ensures good { IsNone result → AreTicketsGood self.now.lists }
        ensures told { IfSome result (NamesBreach self.now.lists) }
    {
        match self.broken_ticket(alloc) {
            Ok(Some(place)) => Some(fault_at(alloc, &self.tickets()[place])),
            Ok(None) => None,
            Err(_) => Some(SoundFault::OutOfMemory),
        }
    }

    /// The place of a ticket that breaks a clause.
    fn broken_ticket(&self, alloc: Global) -> Result<Option<usize>, OutOfMemory>
        ensures { IfOk result (λ place. MatchOption place (AreTicketsGood self.now.lists) (IsTicketBroken self.now.lists)) }
    {
        if self.has_too_many_tickets() {
            return Ok(Some(0));
        }
        match odd_number(alloc, self.tickets())? {
            Some(place) => Ok(Some(place)),
            None => first_of_no_edit(alloc, self.tickets()),
        }
    }

    /// Whether there are too many tickets, or too much text in them.
    fn has_too_many_tickets(&self) -> bool
        ensures { result ≡ (nat_lt TICKET_LIMIT (length self.now.lists.tickets) || has_too_much_text self.now.lists) }
    {
        self.tickets().len() > TICKET_LIMIT || self.has_too_much_text()
    }

    /// Whether the texts of the tickets are too long together.
    #[tactic(auto, unfolding(desk_history::specs::Limits::has_too_much_text))]
    fn has_too_much_text(&self) -> bool
        ensures { result ≡ has_too_much_text self.now.lists }
    {
        self.text > TEXT_LIMIT as u128
    }
}

/// The place of the first ticket that is that of no edit.
fn first_of_no_edit(alloc: Global, tickets: &[TicketRow]) -> Result<Option<usize>, OutOfMemory>
    ensures { IfOk result (λ place. MatchOption place
        (AllByRecursion IsTicketOfEdit tickets.now)
        (λ place. (place < length tickets.now) × ((d : TicketRow) → IsTicketOfEdit (slice_index_or tickets.now place d) → ⊥))) }
{
    for (place, ticket) in tickets.iter().enumerate() {
        let is_of_edit = is_of_edit(alloc, ticket)?;
        if !is_of_edit {
            return Ok(Some(place));
        }
    }
    Ok(None)
}

/// Whether the ticket is that of an edit.
fn is_of_edit(alloc: Global, ticket: &TicketRow) -> Result<bool, OutOfMemory>
    ensures { IfOk result (λ is. MatchBool is (IsTicketOfEdit ticket.now) (IsTicketOfEdit ticket.now → ⊥)) }
{
    match read_edit_text(alloc, ticket.code.as_slice(), ticket.text.as_slice()) {
        Ok(edit) => {
            drop(edit);
            Ok(true)
        }
        Err(TextFault::NotAnEdit) => Ok(false),
        Err(TextFault::OutOfMemory) => Err(OutOfMemory),
    }
}
