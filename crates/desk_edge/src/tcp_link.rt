ghost use Rattle.std.specs.Prelude.{◌≡◌, ◌≤◌, None};
ghost use Rattle.desk_edge.specs.Faults.{one_more};

use crate::failed::Failed;
use crate::link::Link;
use std::io::{Read, Write};
use std::net::TcpStream;

/// A link over a connection of the network. It tells no bytes.
///
/// It counts a fault exactly where it answers `Failed`: where the system refuses a call, since the other side is gone or says nothing for
/// longer than the stream waits, and where it takes nothing of a piece that isn't empty. It is closed where it is dropped.
#[derive(Drop)]
pub struct TcpLink {
    stream: TcpStream,
    faults: u64,
    read_faults: u64,
}

impl TcpLink {
    /// A link over this stream, with no fault counted yet.
    pub fn new(stream: TcpStream) -> TcpLink
        ensures count { ⟦<TcpLink as Link>⟧.faults result ≡ 0 }
        ensures read_count { ⟦<TcpLink as Link>⟧.read_faults result ≡ 0 }
    {
        TcpLink {
            stream,
            faults: 0,
            read_faults: 0,
        }
    }

    /// Counts a fault, up to the last value of the count.
    fn refused(&mut self) -> Failed
        ensures reads_stay { self.new.read_faults ≡ self.old.read_faults }
        ensures never_falls { self.old.faults ≤ self.new.faults }
        ensures one_more { self.new.faults ≡ one_more self.old.faults }
    {
        self.faults = self.faults.saturating_add(1);
        Failed
    }
}

impl Link for TcpLink {
    ghost faults = { λ link. link.faults };

    ghost read_faults = { λ link. link.read_faults };

    ghost unread = { λ _. None };

    ghost written = { λ _. None };

    fn read(&mut self, into: &mut [u8]) -> Result<usize, Failed> {
        match self.stream.read(into) {
            Ok(n) => Ok(n),
            Err(_) => {
                self.read_faults = self.read_faults.saturating_add(1);
                Err(self.refused())
            }
        }
    }

    fn write(&mut self, piece: &[u8]) -> Result<usize, Failed> {
        match self.stream.write(piece) {
            Ok(n) if n > 0 || piece.is_empty() => Ok(n),
            _ => Err(self.refused()),
        }
    }
}
