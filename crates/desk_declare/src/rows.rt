ghost use Rattle.std.specs.Prelude.{◌≡◌, ◌≤◌, [], ◌∷◌, IfOk, MatchBool, length};
ghost use Rattle.csv.specs.Records.{fields_of};
ghost use Rattle.desk_declare.specs.Rows.{csv_rows_of};

use csv::{ByteRecord, ErrorKind, Reader, ReaderBuilder};
use desk_text::OutOfMemory;
use std::alloc::Global;
use std::marker::Model;

/// The rows of a text that are still to be read.
#[derive(Drop)]
pub(crate) struct Rows<'a> {
    reader: Reader<&'a [u8]>,
    ended: bool,
}

impl<'a> Model for Rows<'a> {
    ghost use Rattle.std.specs.Prelude.{◌≡◌, List, ℕ, false, [], if◌then◌else◌};
    ghost use Rattle.desk_declare.specs.Rows.{rows_left, IsPlain};

    ghost Value = { List (List (List ℕ)) };

    ghost view = { λ rows. if rows.ended then [] else rows_left rows.reader };

    ghost invariant = { λ rows. rows.ended ≡ false → IsPlain rows.reader };
}

impl<'a> Rows<'a> {
    /// The rows of a text, without its byte-order mark.
    pub(crate) fn new(alloc: Global, text: &'a [u8]) -> Rows<'a>
        ensures rows { result ≡ csv_rows_of text.now }
        ensures room { length result ≤ length text.now }
    {
        let reader = ReaderBuilder::new()
            .has_headers(false)
            .flexible(true)
            .from_reader(alloc, text);
        Rows {
            reader,
            ended: false,
        }
    }

    /// Puts the next row into `row`, and answers whether there was one. After an error there is
    /// none.
    pub(crate) fn next(&mut self, row: &mut ByteRecord) -> Result<bool, OutOfMemory>
        ensures { IfOk result (λ found.
            MatchBool found (self.old ≡ fields_of row.new ∷ self.new) (self.old ≡ [])) }
    {
        if self.ended {
            return Ok(false);
        }
        let error = match self.reader.read_byte_record(row) {
            Ok(true) => return Ok(true),
            Ok(false) => {
                self.ended = true;
                return Ok(false);
            }
            Err(error) => error,
        };
        self.ended = true;
        match error.into_kind() {
            // To read from a slice never fails, so there was no memory.
            ErrorKind::Io(_) | ErrorKind::OutOfMemory => Err(OutOfMemory),
            _ => unreachable!(),
        }
    }
}
