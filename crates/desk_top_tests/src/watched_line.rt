use crate::notes::{Notes, Sign};
use desk_edge::{Failed, Link};

/// A connection that waits for a sign before it gives its first byte, and ends where that doesn't come. It counts in the notes what it
/// writes.
#[derive(Drop)]
pub(crate) struct WatchedLine<'a, L> {
    link: L,
    notes: &'a Notes,
    sign: Sign,
    has_begun: bool,
}

impl<'a, L: Link> WatchedLine<'a, L> {
    pub(crate) fn new(link: L, notes: &'a Notes, sign: Sign) -> WatchedLine<'a, L> {
        WatchedLine {
            link,
            notes,
            sign,
            has_begun: false,
        }
    }
}

/// It tells neither what it gives nor what it takes.
impl<L: Link> Link for WatchedLine<'_, L> {
    ghost use Rattle.std.specs.Prelude.{None};

    ghost faults = { λ line. L.faults line.link };

    ghost read_faults = { λ line. L.read_faults line.link };

    ghost unread = { λ _. None };

    ghost written = { λ _. None };

    fn read(&mut self, into: &mut [u8]) -> Result<usize, Failed> {
        if !self.has_begun {
            self.has_begun = true;
            self.notes.note_begun();
        }
        if !self.notes.waits_for(self.sign) {
            return Ok(0);
        }
        self.link.read(into)
    }

    fn write(&mut self, piece: &[u8]) -> Result<usize, Failed> {
        let taken = self.link.write(piece)?;
        self.notes.note_written(taken);
        Ok(taken)
    }
}
