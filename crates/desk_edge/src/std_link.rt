ghost use Rattle.std.specs.Prelude.{◌≡◌, ◌<◌, ◌≤◌};
ghost use Rattle.desk_edge.specs.Faults.{one_more};

use crate::failed::Failed;
use crate::link::Link;
use std::io::{Read, Write};

/// A link over a reader and a writer of the standard library.
///
/// It tells what they tell, and counts a fault exactly where it answers `Failed`: where they refuse
/// a call, and where the writer takes nothing of a piece that isn't empty. The writer should not
/// keep bytes back: nothing is flushed.
#[derive(Drop)]
pub struct StdLink<I, O> {
    input: I,
    output: O,
    faults: u64,
    read_faults: u64,
}

impl<I: Read, O: Write> StdLink<I, O> {
    /// A link that reads from `input` and writes to `output`, with no fault counted yet.
    pub fn new(input: I, output: O) -> StdLink<I, O>
        ensures input { ⟦<StdLink<I, O> as Link>⟧.unread result ≡ I.remaining input }
        ensures output { ⟦<StdLink<I, O> as Link>⟧.written result ≡ O.contents output }
        ensures count { ⟦<StdLink<I, O> as Link>⟧.faults result ≡ 0 }
        ensures read_count { ⟦<StdLink<I, O> as Link>⟧.read_faults result ≡ 0 }
    {
        StdLink {
            input,
            output,
            faults: 0,
            read_faults: 0,
        }
    }

    /// Counts a fault, up to the last value of the count.
    fn refused(&mut self) -> Failed
        ensures input_stays { self.new.input ≡ self.old.input }
        ensures output_stays { self.new.output ≡ self.old.output }
        ensures reads_stay { self.new.read_faults ≡ self.old.read_faults }
        ensures never_falls { self.old.faults ≤ self.new.faults }
        ensures one_more { self.new.faults ≡ one_more self.old.faults }
    {
        self.faults = self.faults.saturating_add(1);
        Failed
    }
}

impl<I: Read, O: Write> Link for StdLink<I, O> {
    ghost faults = { λ link. link.faults };

    ghost read_faults = { λ link. link.read_faults };

    ghost unread = { λ link. I.remaining link.input };

    ghost written = { λ link. O.contents link.output };

    fn read(&mut self, into: &mut [u8]) -> Result<usize, Failed> {
        match self.input.read(into) {
            Ok(n) => Ok(n),
            Err(_) => {
                self.read_faults = self.read_faults.saturating_add(1);
                Err(self.refused())
            }
        }
    }

    fn write(&mut self, piece: &[u8]) -> Result<usize, Failed> {
        match self.output.write(piece) {
            Ok(n) if n > 0 || piece.is_empty() => Ok(n),
            _ => Err(self.refused()),
        }
    }
}
