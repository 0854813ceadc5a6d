ghost use Rattle.std.specs.Prelude.{◌≡◌, ◌<◌, ◌≤◌, [], length, IfOk, IsErr, Some};
ghost use Rattle.std.specs.Io.KnownBytes.{ReadConsumes, WriteAppends};
ghost use Rattle.desk_edge.specs.Faults.{CountsFaults};
ghost use Rattle.desk_edge.specs.Memory.{read_answer, after_read, buffer_after, write_answer, after_write};

use crate::failed::Failed;
use crate::link::Link;
use desk_text::{Bytes, OutOfMemory};
use std::alloc::Global;
use std::marker::Model;

/// A link in memory, for tests. It tells its bytes, gives them in pieces, has a limited room for
/// what is written, and fails on the calls that it is told to fail on, and on no other.
#[derive(Debug)]
pub struct MemoryLink {
    input: Bytes,
    at: usize,
    written: Vec<u8>,
    piece: usize,
    room: usize,
    failing: Vec<u64>,
    calls: u64,
    faults: u64,
    read_faults: u64,
}

// Written out, so that a function that owns one does not prove anew how each part is dropped.
impl Drop for MemoryLink {
    fn drop(self) {
        let MemoryLink {
            input: _,
            at: _,
            written: _,
            piece: _,
            room: _,
            failing: _,
            calls: _,
            faults: _,
            read_faults: _,
        } = self;
    }
}

impl Model for MemoryLink {
    ghost use Rattle.std.specs.Prelude.{◌+◌, ◌≤◌, drop, length, vec_len, vec_capacity};
    ghost use Rattle.desk_edge.specs.Memory.{Memory};

    ghost Value = { Memory };

    ghost view = { λ m. record {
      unread = drop m.at m.input;
      written = m.written.items;
      piece = m.piece;
      room = m.room;
      failing = m.failing.items;
      calls = m.calls;
      faults = m.faults;
      read_faults = m.read_faults;
    } };

    ghost invariant = { λ m.
        (1 ≤ m.piece) × (m.at ≤ length m.input) × (vec_len m.written + m.room ≤ vec_capacity m.written) };
}

impl MemoryLink {
    /// A link that gives `input`, at most `piece` bytes a read, and has room for `room` bytes of
    /// output, which it takes at once. The calls whose numbers `failing` has fail; reads and
    /// writes are counted together, from 1.
    pub fn new(
        alloc: Global,
        input: Bytes,
        piece: usize,
        room: usize,
        failing: Vec<u64>,
    ) -> Result<MemoryLink, OutOfMemory>
        requires { 1 ≤ piece }
        ensures { IfOk result (λ link. link ≡ record {
          unread = input;
          written = [];
          piece = piece;
          room = room;
          failing = failing.items;
          calls = 0;
          faults = 0;
          read_faults = 0;
        }) }
    {
        let written = Vec::with_capacity(alloc, room)?;
        Ok(MemoryLink {
            input,
            at: 0,
            written,
            piece,
            room,
            failing,
            calls: 0,
            faults: 0,
            read_faults: 0,
        })
    }

    /// The bytes that writes have taken so far.
    pub fn written(&self) -> &[u8]
        ensures { result.now ≡ self.now.written }
    {
        self.written.as_slice()
    }
}

impl Link for MemoryLink {
    ghost faults = { λ m. m.faults };

    ghost read_faults = { λ m. m.read_faults };

    ghost unread = { λ m. Some m.unread };

    ghost written = { λ m. Some m.written };

    fn read(&mut self, into: &mut [u8]) -> Result<usize, Failed>
        ensures within { IfOk result (λ n. n ≤ length into.new) }
        ensures gives { ReadConsumes (Some self.old.unread) (Some self.new.unread) result into.new }
        ensures output_stays { Some self.new.written ≡ Some self.old.written }
        ensures faults { CountsFaults (IsErr result) self.old.faults self.new.faults }
        ensures read_faults { CountsFaults (IsErr result) self.old.read_faults self.new.read_faults }
        ensures answer { result ≡ read_answer self.old (length into.old) }
        ensures after { self.new ≡ after_read self.old (length into.old) }
        ensures buffer { into.new ≡ buffer_after self.old into.old }
    {
        self.calls = self.calls.saturating_add(1);
        if self.failing.contains(&self.calls) {
            self.faults = self.faults.saturating_add(1);
            self.read_faults = self.read_faults.saturating_add(1);
            return Err(Failed);
        }
        let (_, left) = self.input.as_slice().split_at(self.at);
        let n = self.piece.min(into.len()).min(left.len());
        into[..n].copy_from_slice(left.split_at(n).0);
        self.at += n;
        Ok(n)
    }

    fn write(&mut self, piece: &[u8]) -> Result<usize, Failed>
        ensures within { IfOk result (λ n. n ≤ length piece.now) }
        ensures some { IfOk result (λ n. 0 < length piece.now → 0 < n) }
        ensures takes { WriteAppends (Some self.old.written) (Some self.new.written) result piece.now }
        ensures input_stays { Some self.new.unread ≡ Some self.old.unread }
        ensures reads_stay { self.new.read_faults ≡ self.old.read_faults }
        ensures faults { CountsFaults (IsErr result) self.old.faults self.new.faults }
        ensures answer { result ≡ write_answer self.old piece.now }
        ensures after { self.new ≡ after_write self.old piece.now }
    {
        self.calls = self.calls.saturating_add(1);
        if self.failing.contains(&self.calls) || (self.room == 0 && !piece.is_empty()) {
            self.faults = self.faults.saturating_add(1);
            return Err(Failed);
        }
        let n = self.room.min(piece.len());
        self.written.extend_from_slice(&piece[..n]).unwrap();
        self.room -= n;
        Ok(n)
    }
}
