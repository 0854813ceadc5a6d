ghost use Rattle.std.specs.Prelude.{◌≡◌, ◌+◌, ◌-◌, ◌<◌, ◌≤◌, [], List, ℕ, drop, length, take, IfOk, OnErr, IsErr};
ghost use Rattle.std.specs.Io.KnownBytes.{Keeps};
ghost use Rattle.desk_edge.specs.Faults.{CountsFaults};
ghost use Rattle.desk_front.specs.ReadBuffer.{ReadMore, held_limit};

use desk_edge::{Failed, Link};
use desk_http::{BODY_BYTES, HEAD_BYTES};
use desk_text::OutOfMemory;
use std::alloc::Global;
use std::marker::Model;

/// Room for the longest request.
const ROOM: usize = HEAD_BYTES + BODY_BYTES;

/// The bytes that were read of a stream and aren't used yet, in a buffer of 73,728 bytes.
#[derive(Drop)]
pub(crate) struct ReadBuffer {
    buffer: Vec<u8>,
    len: usize,
}

impl Model for ReadBuffer {
    ghost use Rattle.std.specs.Prelude.{◌≡◌, ◌≤◌, ℕ, List, take, vec_len};
    ghost use Rattle.desk_front.specs.ReadBuffer.{held_limit};

    ghost Value = { List ℕ };

    ghost view = { λ h. take h.len h.buffer.items };

    ghost invariant = { λ h. (h.len ≤ held_limit) × (vec_len h.buffer ≡ held_limit) };
}

impl ReadBuffer {
    /// No bytes, with the room for them.
    pub(crate) fn new(alloc: Global) -> Result<ReadBuffer, OutOfMemory>
        ensures { IfOk result (λ held. held ≡ []) }
    {
        let buffer = vec![in alloc; 0; ROOM]?;
        Ok(ReadBuffer { buffer, len: 0 })
    }

    /// The bytes, in order.
    pub(crate) fn as_slice(&self) -> &[u8]
        ensures { result.now ≡ self.now }
    {
        &self.buffer[..self.len]
    }

    /// How many more bytes there is room for.
    pub(crate) fn room(&self) -> usize
        ensures { result ≡ held_limit - length self.now }
    {
        ROOM - self.len
    }

    /// Takes the first bytes out. What is behind them is moved to the front.
    pub(crate) fn drop_front(&mut self, count: usize)
        requires { count ≤ length self.old }
        ensures { self.new ≡ drop count self.old }
    {
        self.buffer.as_mut_slice().copy_within(count..self.len, 0);
        self.len -= count;
    }

    /// Reads on, at most so many bytes, for which there is room. The answer is how many came; 0 is the end of the input.
    pub(crate) fn read_from<L: Link>(&mut self, link: &mut L, most: usize) -> Result<usize, Failed>
        requires some { 0 < most }
        requires room { length self.old + most ≤ held_limit }
        ensures more { IfOk result (λ count. ReadMore (L.unread link.old) (L.unread link.new) self.old self.new most count) }
        ensures err { OnErr result ((self.new ≡ self.old) × Keeps (L.unread link.old) (L.unread link.new)) }
        ensures output_stays { L.written link.new ≡ L.written link.old }
        ensures faults { CountsFaults (IsErr result) (L.faults link.old) (L.faults link.new) }
    {
        let from = self.len;
        let count = link.read(&mut self.buffer[from..from + most])?;
        self.len += count;
        Ok(count)
    }
}
