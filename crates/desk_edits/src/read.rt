ghost use Rattle.std.specs.Prelude.{◌≡◌, ◌≢◌, ◌<◌, length, Some, None, Err, IfOk, IfErr};
ghost use Rattle.serde_json.specs.View.{view};
ghost use Rattle.desk_edits.specs.Edit.{edit_of_json, edit_of_word, json_of, word_in};

use crate::edit_key::WORD_KEY;
use crate::{JsonFault, rows};
use desk_model::{Edit, EditWord};
use serde_json::Value;
use std::alloc::Global;

/// The edit that bytes are: one JSON object in UTF-8, whose key `edit` has the edit's word, with the key `ticket` and
/// the keys of the word. A declaration is none: it comes in CSV.
///
/// The faults are looked for in the order in which [`JsonFault`] lists them, so each comes exactly where the bytes
/// have it and none before it. `OutOfMemory` may come for any bytes, unless there are none.
pub fn read_edit(alloc: Global, bytes: &[u8]) -> Result<Edit, JsonFault>
    ensures edit { result ≢ Err JsonFault.OutOfMemory → result ≡ edit_of_json bytes.now }
    ensures memory { result ≡ Err JsonFault.OutOfMemory → 0 < length bytes.now }
{
    let value = value_of(alloc, bytes)?;
    match word_in(&value) {
        Some(word) => edit_of_word(alloc, word, &value),
        None => Err(JsonFault::NotAnEdit),
    }
}

/// The JSON value that bytes are. An empty input is none, which is told without memory.
#[tactic(auto, using(crate::proofs::Bytes::some_bytes, crate::proofs::Bytes::json_of_text, crate::proofs::Bytes::json_of_none))]
fn value_of(alloc: Global, bytes: &[u8]) -> Result<Value, JsonFault>
    ensures value { IfOk result (λ value. json_of bytes.now ≡ Some (view value)) }
    ensures bytes { IfOk result (λ _. 0 < length bytes.now) }
    ensures fault { IfErr result (λ fault. fault ≢ JsonFault.OutOfMemory → (fault ≡ JsonFault.NotJson) × (json_of bytes.now ≡ None)) }
    ensures memory { result ≡ Err JsonFault.OutOfMemory → 0 < length bytes.now }
{
    match Value::from_slice(alloc, bytes) {
        Ok(value) => Ok(value),
        Err(error) if error.is_memory() => Err(JsonFault::OutOfMemory),
        Err(_) => Err(JsonFault::NotJson),
    }
}

/// The word of an object's key `edit`.
#[tactic(auto, unfolding(crate::specs::Edit::word_in))]
fn word_in(object: &Value) -> Option<EditWord>
    ensures { result ≡ word_in (view object.now) }
{
    EditWord::read(object.get(WORD_KEY)?.as_str()?.as_bytes())
}

/// The edit of a word that an object is. A declaration is none, as it comes in CSV.
#[tactic(auto, unfolding(crate::specs::Edit::edit_of_word))]
fn edit_of_word(alloc: Global, word: EditWord, object: &Value) -> Result<Edit, JsonFault>
    ensures { result ≢ Err JsonFault.OutOfMemory → result ≡ edit_of_word word (view object.now) }
{
    match word {
        EditWord::Substance => rows::substance(alloc, object),
        EditWord::Member => rows::member(object),
        EditWord::Declare => Err(JsonFault::NotAnEdit),
        EditWord::Part => rows::part(alloc, object),
        EditWord::Line => rows::line(object),
        EditWord::Unline => rows::unline(object),
        EditWord::Product => rows::product(object),
        EditWord::Exemption => rows::exemption(alloc, object),
        EditWord::Unexempt => rows::unexempt(object),
        EditWord::Candidate => rows::candidate(object),
        EditWord::Ship => rows::ship(object),
        EditWord::Unship => rows::unship(object),
    }
}
