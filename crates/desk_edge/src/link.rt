ghost use Rattle.std.specs.Prelude.{◌≡◌, ℕ, ◌<◌, ◌≤◌, List, length, Option, IfOk, IsErr};
ghost use Rattle.std.specs.Io.KnownBytes.{ReadConsumes, WriteAppends};
ghost use Rattle.desk_edge.specs.Faults.{CountsFaults};

use crate::failed::Failed;

/// A stream of bytes in and a stream of bytes out, such as a terminal, a pipe or a connection.
///
/// A link counts its faults, those of reads also by themselves, and may tell the bytes that it has left to give and those that it
/// has taken: in memory it does, over a real file it doesn't. What a call doesn't concern stays
/// equal, so that what is told before is told afterwards.
pub trait Link {
    // How many faults were counted so far. The count never falls.
    ghost faults: { Self → ℕ };

    // How many of these faults were of reads, counted in the same way.
    ghost read_faults: { Self → ℕ };

    // The bytes that reads will give, where the link tells them.
    ghost unread: { Self → Option (List ℕ) };

    // The bytes that writes have taken, where the link tells them.
    ghost written: { Self → Option (List ℕ) };

    /// Gives the next bytes, at the front of the buffer, and answers how many.
    ///
    /// 0 for a buffer that isn't empty is the end of the input. `Failed` comes exactly where a
    /// fault was counted in this call; nothing was given then, and what the buffer holds isn't
    /// said.
    fn read(&mut self, into: &mut [u8]) -> Result<usize, Failed>
        ensures within { IfOk result (λ n. n ≤ length into.new) }
        ensures gives { ReadConsumes (unread self.old) (unread self.new) result into.new }
        ensures output_stays { written self.new ≡ written self.old }
        ensures faults { CountsFaults (IsErr result) (faults self.old) (faults self.new) }
        ensures read_faults { CountsFaults (IsErr result) (read_faults self.old) (read_faults self.new) };

    /// Takes bytes from the front of the piece, and answers how many: at least one of a piece that
    /// isn't empty.
    ///
    /// `Failed` comes exactly where a fault was counted in this call; nothing was taken then.
    fn write(&mut self, piece: &[u8]) -> Result<usize, Failed>
        ensures within { IfOk result (λ n. n ≤ length piece.now) }
        ensures some { IfOk result (λ n. 0 < length piece.now → 0 < n) }
        ensures takes { WriteAppends (written self.old) (written self.new) result piece.now }
        ensures input_stays { unread self.new ≡ unread self.old }
        ensures reads_stay { read_faults self.new ≡ read_faults self.old }
        ensures faults { CountsFaults (IsErr result) (faults self.old) (faults self.new) };
}
