ghost use Rattle.std.specs.Prelude.{◌≡◌, ◌+◌, ◌<◌, ◌≤◌, ◌^◌, [], length, vec_len, vec_capacity, option_copied, IfOk, IsNone, IsSome, IsOk, OnOk, OnErr};
ghost use Rattle.desk_rows.specs.Held.{IsRoomFor};
ghost use Rattle.desk_rows.specs.Rows.{IsByKey, row_of, with_row, with_rows, without_row};

use crate::keyed::Keyed;
use crate::place::{place_of_key, place_of_row};
use crate::room::Room;
use desk_text::OutOfMemory;
use std::alloc::Global;
use std::marker::Model;

/// Rows in the order of their keys, each key once. Contracts see the list of the rows, and how many more need no memory.
#[derive(Drop)]
pub struct Table<R: Keyed> {
    rows: Vec<R>,
}

impl<R: Keyed> Model for Table<R> {
    ghost use Rattle.std.specs.Prelude.{◌-◌, vec_len, vec_capacity};
    ghost use Rattle.desk_rows.specs.Held.{Held};
    ghost use Rattle.desk_rows.specs.Rows.{IsByKey};

    ghost Value = { Held R };

    ghost view = { λ t. record { rows = t.rows.items; room = vec_capacity t.rows - vec_len t.rows } };

    ghost invariant = { λ t. IsByKey R.key R.Key.cmp t.rows.items };
}

impl<R: Keyed> Table<R> {
    /// No rows. It takes no memory yet.
    pub fn new(alloc: Global) -> Table<R>
        ensures { result.rows ≡ [] }
    {
        Table {
            rows: Vec::new(alloc),
        }
    }

    /// The rows, in the order of their keys.
    pub fn as_slice(&self) -> &[R]
        ensures rows { result.now ≡ self.now.rows }
        ensures by_key { IsByKey R.key R.Key.cmp self.now.rows }
    {
        self.rows.as_slice()
    }

    /// The row with this key.
    pub fn get(&self, key: &R::Key) -> Option<&R>
        ensures { option_copied result ≡ row_of R.key R.Key.cmp key.now self.now.rows }
    {
        match place_of_key(self.rows.as_slice(), key) {
            Ok(at) => Some(&self.rows[at]),
            Err(_) => None,
        }
    }

    /// How many rows the table would have with this row put in.
    pub fn len_with(&self, row: &R) -> usize
        requires { length self.now.rows < 2 ^ 63 }
        ensures { result ≡ length (with_row R.key R.Key.cmp row.now self.now.rows) }
    {
        match place_of_row(self.rows.as_slice(), row) {
            Ok(_) => self.rows.len(),
            Err(_) => self.rows.len() + 1,
        }
    }

    /// Puts the row in its place: a row with the same key is replaced, and that takes no memory.
    pub fn put(&mut self, row: R) -> Result<(), OutOfMemory>
        ensures ok { OnOk result (self.new.rows ≡ with_row R.key R.Key.cmp row self.old.rows) }
        ensures err { OnErr result (self.new.rows ≡ self.old.rows) }
        ensures replaces { IsSome (row_of R.key R.Key.cmp (R.key row) self.old.rows) → IsOk result }

        // A row that wasn't there, put in and taken out again, leaves the table as it was.
        ensures undone { OnOk result (IsNone (row_of R.key R.Key.cmp (R.key row) self.old.rows)
            → without_row R.key R.Key.cmp (R.key row) self.new.rows ≡ self.old.rows) }
    {
        match place_of_row(self.rows.as_slice(), &row) {
            Ok(at) => self.rows[at] = row,
            Err(at) => self.rows.insert(at, row)?,
        }
        Ok(())
    }

    /// Puts in each of the rows, one after the other, or none of them. No rows take no memory.
    pub fn put_all(&mut self, more: Vec<R>) -> Result<(), OutOfMemory>
        ensures ok { OnOk result (self.new.rows ≡ with_rows R.key R.Key.cmp more.items self.old.rows) }
        ensures err { OnErr result (self.new.rows ≡ self.old.rows) }
        ensures nothing { more.items ≡ [] → IsOk result }
    {
        self.rows.reserve(more.len())?;
        for row in more {
            put_reserved(&mut self.rows, row);
        }
        Ok(())
    }

    /// Room for so many rows more: where the table has it, that takes no memory. Else an empty list of at least twice the table's
    /// length, so that many rows put in one by one copy each row a few times and no more.
    pub fn room_for(&self, alloc: Global, more: usize) -> Result<Room<R>, OutOfMemory>
        ensures { IfOk result (λ room. IsRoomFor more self.now room) }
    {
        let len = self.rows.len();
        if more <= self.rows.capacity() - len {
            return Ok(Room { fresh: None });
        }
        match len.checked_add(more.max(len)) {
            Some(capacity) => {
                let rows = Vec::with_capacity(alloc, capacity)?;
                Ok(Room { fresh: Some(rows) })
            }
            None => Err(OutOfMemory),
        }
    }

    /// Puts the row in its place, as `put` does, in room that was made for it. It takes no memory.
    pub fn put_ready(&mut self, row: R, room: Room<R>)
        requires { IsRoomFor 1 self.old room }
        ensures { self.new.rows ≡ with_row R.key R.Key.cmp row self.old.rows }
    {
        self.take_room(1, room);
        put_reserved(&mut self.rows, row);
    }

    /// Puts in each of the rows, as `put_all` does, in room that was made for them. It takes no memory.
    pub fn put_all_ready(&mut self, more: Vec<R>, room: Room<R>)
        requires { IsRoomFor (length more.items) self.old room }
        ensures { self.new.rows ≡ with_rows R.key R.Key.cmp more.items self.old.rows }
    {
        self.take_room(more.len(), room);
        for row in more {
            put_reserved(&mut self.rows, row);
        }
    }

    /// Moves the rows into the list of the room, where there is one, so that there is room for so many rows more.
    fn take_room(&mut self, _more: usize, room: Room<R>)
        requires { IsRoomFor _more self.old room }
        ensures rows { self.new.rows ≡ self.old.rows }
        ensures room { _more ≤ self.new.room }
    {
        if let Some(mut rows) = room.fresh {
            let moved = rows.append(&mut self.rows);
            prove!(moved.is_ok());
            self.rows = rows;
        }
    }

    /// Takes the row with this key out, and gives it.
    pub fn take(&mut self, key: &R::Key) -> Option<R>
        ensures taken { result ≡ row_of R.key R.Key.cmp key.now self.old.rows }
        ensures rest { self.new.rows ≡ without_row R.key R.Key.cmp key.now self.old.rows }
    {
        match place_of_key(self.rows.as_slice(), key) {
            Ok(at) => Some(self.rows.remove(at)),
            Err(_) => None,
        }
    }

    /// The same table once more. Of an empty table that takes no memory.
    pub fn copied(&self, alloc: Global) -> Result<Table<R>, OutOfMemory>
        ensures copy { IfOk result (λ table. table.rows ≡ self.now.rows) }
        ensures nothing { self.now.rows ≡ [] → IsOk result }
    {
        let mut rows = Vec::with_capacity(alloc, self.rows.len())?;
        for row in self.rows.as_slice() {
            rows.push_reserved(row.copied(alloc)?);
        }
        Ok(Table { rows })
    }

    /// The same table once more, with the row put in.
    pub fn copied_with(&self, alloc: Global, row: R) -> Result<Table<R>, OutOfMemory>
        ensures { IfOk result (λ table. table.rows ≡ with_row R.key R.Key.cmp row self.now.rows) }
    {
        let mut table = self.copied(alloc)?;
        table.put(row)?;
        Ok(table)
    }

    /// The same table once more, without the row of this key.
    pub fn copied_without(&self, alloc: Global, key: &R::Key) -> Result<Table<R>, OutOfMemory>
        ensures { IfOk result (λ table. table.rows ≡ without_row R.key R.Key.cmp key.now self.now.rows) }
    {
        let mut table = self.copied(alloc)?;
        table.take(key);
        Ok(table)
    }
}

/// Puts the row in its place, where room for one more row was made before.
fn put_reserved<R: Keyed>(rows: &mut Vec<R>, row: R)
    requires by_key { IsByKey R.key R.Key.cmp rows.old.items }
    requires room { vec_len rows.old < vec_capacity rows.old }
    ensures rows { rows.new.items ≡ with_row R.key R.Key.cmp row rows.old.items }
    ensures by_key { IsByKey R.key R.Key.cmp rows.new.items }
    ensures len { vec_len rows.new ≤ vec_len rows.old + 1 }
    ensures capacity { vec_capacity rows.new ≡ vec_capacity rows.old }
{
    match place_of_row(rows.as_slice(), &row) {
        Ok(at) => rows[at] = row,
        Err(at) => {
            let entered = rows.insert(at, row);
            prove!(entered.is_ok());
        }
    }
}
