ghost use Rattle.std.specs.Prelude.{◌≡◌, true};
ghost use Rattle.std.specs.List.{list_all};
ghost use Rattle.std.specs.Option.{option_map_or};
ghost use Rattle.std.specs.Str.{is_utf8};
ghost use Rattle.csv.specs.Records.{field_at, fields_of};

use csv::ByteRecord;
use std::str;

/// Whether each field of a record is UTF-8.
pub(crate) fn is_text(row: &ByteRecord) -> bool
    ensures { result ≡ list_all is_utf8 (fields_of row.now) }
{
    // Most records are of ASCII alone, which is told without a look at each field.
    row.as_slice().is_ascii() || are_texts(row)
}

/// Whether each field of a record is UTF-8, one after the other.
#[tactic(auto, using(crate::proofs::Texts::texts_from))]
fn are_texts(row: &ByteRecord) -> bool
    ensures { result ≡ list_all is_utf8 (fields_of row.now) }
{
    for place in 0..row.len() {
        if !is_text_at(row, place) {
            return false;
        }
    }
    true
}

/// Whether the field at a place, counted from 0, is UTF-8, where there is one.
fn is_text_at(row: &ByteRecord, place: usize) -> bool
    ensures { result ≡ option_map_or is_utf8 (field_at (fields_of row.now) place) true }
{
    match row.get(place) {
        Some(field) => str::from_utf8(field).is_ok(),
        None => true,
    }
}
