ghost use Rattle.std.specs.Prelude.{◌≡◌, OnErr, OnOk, length, sum_by};
ghost use Rattle.desk_model.specs.PutRows.{put_in};
ghost use Rattle.desk_tables.specs.Gathered.{no_rows};

use crate::Tables;
use crate::ten_tables::TenTables;
use desk_model::{Row, TicketRow};
use desk_text::OutOfMemory;
use std::alloc::Global;
use std::marker::Model;

/// Rows that are put together as tables, one after the other, in any order. They aren't tested: `Tables::is_sound` does that. Contracts
/// see the lists.
#[derive(Drop)]
pub struct Gathering {
    tables: TenTables,
}

impl Model for Gathering {
    ghost use Rattle.desk_model.specs.Lists.{Lists};
    ghost use Rattle.desk_tables.specs.Desk.{desk_of};

    ghost Value = { Lists };

    ghost view = { λ t. (desk_of t.tables).lists };
}

impl Gathering {
    /// No rows.
    pub fn new(alloc: Global) -> Gathering
        ensures { result ≡ no_rows }
    {
        Gathering {
            tables: TenTables::new(alloc),
        }
    }

    /// Puts the row in its place in its table, where it replaces the one of its key, if there is one. A binary search finds the place,
    /// and the rows behind it are moved.
    ///
    /// `OutOfMemory`: none was left for the row, and nothing was put in.
    pub fn put(&mut self, row: Row) -> Result<(), OutOfMemory>
        ensures ok { OnOk result (self.new ≡ put_in row self.old) }
        ensures err { OnErr result (self.new ≡ self.old) }
    {
        self.tables.put(row)
    }

    /// The tables with just these rows. It takes no memory.
    pub fn into_tables(self) -> Tables
        ensures { result.lists ≡ self }
    {
        let text = text_length(self.tables.tickets.as_slice());
        let Gathering { tables } = self;
        Tables { tables, text }
    }
}

/// How many bytes the texts of these tickets have together.
fn text_length(tickets: &[TicketRow]) -> u128
    ensures { result ≡ sum_by (λ ticket. length ticket.text) tickets.now }
{
    let mut length = 0u128;
    for ticket in tickets {
        length += ticket.text.len() as u128;
    }
    length
}
