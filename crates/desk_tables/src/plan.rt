ghost use Rattle.std.specs.Prelude.{◌≡◌, None, false};
ghost use Rattle.desk_text.specs.Code.{code_cmp};
ghost use Rattle.desk_rows.specs.Held.{IsRoomFor};
ghost use Rattle.desk_rows.specs.Rows.{with_row};
ghost use Rattle.desk_model.specs.Lists.{ticket_row};
ghost use Rattle.desk_history.specs.Limits.{has_too_much_text};
ghost use Rattle.desk_tables.specs.Change.{IsReady, with_change_made, rows_with_room};
ghost use Rattle.desk_tables.specs.Plan.{CanCommit, plan_number, tables_planned};

use crate::{RowChange, Tables};
use desk_model::TicketRow;
use desk_rows::Room;

/// What one edit does to the tables: made while they stand, carried out without a refusal and without memory.
#[derive(Drop)]
pub enum TablesPlan {
    /// The edit is kept already, and nothing changes.
    Kept {
        /// The edit's number.
        number: u64,
    },
    /// The edit is new and meets no refusal.
    New {
        /// What it makes of the rows.
        change: RowChange,
        /// Its ticket, with its number.
        ticket: TicketRow,
        /// Room for the ticket.
        room: Room<TicketRow>,
    },
}

impl TablesPlan {
    /// The number of the edit: kept, or that which it gets.
    #[tactic(auto, unfolding(crate::specs::Plan::plan_number))]
    pub fn number(&self) -> u64
        ensures { result ≡ plan_number self.now }
    {
        match self {
            TablesPlan::Kept { number } => *number,
            TablesPlan::New { ticket, .. } => ticket.number,
        }
    }
}

impl Tables {
    /// Carries out the plan, which was prepared at these tables as they stand, and gives the edit's number. It can't be refused and
    /// takes no memory.
    #[tactic(auto, unfolding(crate::specs::Plan::tables_planned, crate::specs::Plan::plan_number, crate::specs::Plan::CanCommit))]
    pub fn commit(&mut self, plan: TablesPlan) -> u64
        requires { CanCommit self.old plan }
        ensures number { result ≡ plan_number plan }
        ensures lists { self.new.lists ≡ tables_planned self.old.lists plan }
    {
        match plan {
            TablesPlan::Kept { number } => number,
            TablesPlan::New {
                change,
                ticket,
                room,
            } => {
                let number = ticket.number;
                self.make(change);
                self.enter(ticket, room);
                number
            }
        }
    }

    /// Makes the change of the rows.
    #[tactic(auto, unfolding(crate::specs::Change::with_change_made, crate::specs::Change::IsReady))]
    fn make(&mut self, change: RowChange)
        requires { IsReady self.old change }
        ensures lists { self.new.lists ≡ with_change_made self.old.lists change }
        ensures tickets { self.new.rooms.tickets ≡ self.old.rooms.tickets }
    {
        match change {
            RowChange::PutSubstance { row, room } => self.tables.substances.put_ready(row, room),
            RowChange::PutMember { row, room } => self.tables.members.put_ready(row, room),
            RowChange::DropMember { substance, rule } => {
                self.tables.members.take(&(substance, rule.number()));
            }
            RowChange::PutMaterials { rows, room } => {
                self.tables.materials.put_all_ready(rows.into_vec(), room);
            }
            RowChange::PutPart { row, room } => self.tables.parts.put_ready(row, room),
            RowChange::PutLine { row, room } => self.tables.lines.put_ready(row, room),
            RowChange::DropLine { parent, child } => {
                self.tables.lines.take(&(parent, child));
            }
            RowChange::PutProduct { row, room } => self.tables.products.put_ready(row, room),
            RowChange::PutExemption { row, room } => self.tables.exemptions.put_ready(row, room),
            RowChange::DropExemption { row } => {
                drop(self.tables.exemptions.take(&row));
            }
            RowChange::PutCandidate { row, room } => self.tables.candidates.put_ready(row, room),
            RowChange::PutShipment { row, room } => self.tables.shipments.put_ready(row, room),
            RowChange::DropShipment { year, product } => {
                self.tables.shipments.take(&(year, product));
            }
        }
    }

    /// Enters a ticket that isn't kept.
    fn enter(&mut self, ticket: TicketRow, room: Room<TicketRow>)
        requires room { IsRoomFor 1 (rows_with_room self.old.lists.tickets self.old.rooms.tickets) room }
        requires new { ticket_row self.old.lists ticket.code ≡ None }
        requires fits { has_too_much_text (record self.old.lists { tickets = with_row (λ row. row.code) code_cmp ticket self.old.lists.tickets }) ≡ false }
        ensures { self.new.lists ≡ record self.old.lists { tickets = with_row (λ row. row.code) code_cmp ticket self.old.lists.tickets } }
    {
        self.text += ticket.text.len() as u128;
        self.tables.tickets.put_ready(ticket, room);
    }
}
